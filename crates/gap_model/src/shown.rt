//! What a leaf shows of its part.

ghost use Rattle.std.specs.Prelude.{◌≡◌};
ghost use Rattle.gap_model.specs.Leaves.{count_shows, void_shows, tangent_shows, sixty_fourth};

use gap_base::ceil_div64;

/// What is known of the objective of each list of a part that meets the limits: nothing, that it is at least a number,
/// or that there is no such list. `Nothing` is below each `AtLeast`, and `Empty` above.
#[derive(Clone, Copy, PartialEq, Eq, PartialOrd, Ord, Debug)]
pub enum Shown {
    Nothing,
    AtLeast(i128),
    Empty,
}

impl Shown {
    /// What the count shows: Empty where it can't be met.
    pub fn of_count(is_met: bool) -> Shown
        ensures { result ≡ count_shows is_met }
    {
        if is_met { Shown::Nothing } else { Shown::Empty }
    }

    /// What a theta of the multipliers alone shows: Empty where there is none, or where it is above 0.
    pub fn of_void(theta: Option<i128>) -> Shown
        ensures { result ≡ void_shows theta }
    {
        match theta {
            None => Shown::Empty,
            Some(t) => { if 0 < t { Shown::Empty } else { Shown::Nothing } }
        }
    }

    /// What the theta of a tangent leaf shows: its 64th part, brought up to a whole number; Empty where there is none.
    pub fn of_tangent(theta: Option<i128>) -> Shown
        ensures { result ≡ tangent_shows theta }
    {
        match theta {
            None => Shown::Empty,
            Some(t) => Shown::AtLeast(sixty_fourth(t)),
        }
    }
}

/// The 64th part of a theta, brought up to a whole number.
fn sixty_fourth(theta: i128) -> i128
    ensures { result ≡ sixty_fourth theta }
{
    ceil_div64(theta)
}
