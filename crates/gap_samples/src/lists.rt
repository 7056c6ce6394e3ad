//! Lists of few numbers.

ghost use Rattle.std.specs.Prelude.{◌≡◌, [], ◌∷◌};

use gap_base::Lots;

/// The list of two numbers.
pub fn two(a: u16, b: u16) -> Lots
    ensures { result ≡ a ∷ b ∷ [] }
{
    let mut list = Lots::zeros(2);
    list.set(0, a);
    list.set(1, b);
    list
}

/// The list of three numbers.
pub fn three(a: u16, b: u16, c: u16) -> Lots
    ensures { result ≡ a ∷ b ∷ c ∷ [] }
{
    let mut list = Lots::zeros(3);
    list.set(0, a);
    list.set(1, b);
    list.set(2, c);
    list
}
