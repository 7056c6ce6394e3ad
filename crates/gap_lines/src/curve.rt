//! Curves that answer a line at each place.

ghost use Rattle.std.specs.Prelude.{◌≡◌, ◌≤◌, ℤ, unsigned_abs};
ghost use Rattle.gap_lines.specs.Lines.{IsLine};

use crate::line::Line;

/// A curve over the whole numbers that lies, at each place, nowhere above some line through it there.
pub trait Curve {
    ghost value: { Self → ℤ → ℤ };

    /// A line through the curve at place `t` that is nowhere below it.
    fn probe(&self, t: i128) -> Line
        requires small { unsigned_abs t ≤ 1000000000000000000000000000000 }
        ensures place { result.place ≡ t }
        ensures line { IsLine (value self.now) result };
}
