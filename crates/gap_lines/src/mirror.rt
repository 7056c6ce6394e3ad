//! A curve read from the other side of 0.

ghost use Rattle.std.specs.Prelude.{◌≡◌, ℤ, neg_ℤ};
ghost use Rattle.gap_lines.specs.Lines.{IsLine};

use crate::curve::Curve;
use crate::line::Line;

/// The curve that has at each place what another has on the other side of 0.
#[derive(Drop)]
pub(crate) struct Mirror<'a, C>(pub(crate) &'a C);

impl<'a, C: Curve> Curve for Mirror<'a, C> {
    ghost value = { λ s t. C.value s.0.now (neg_ℤ t) };

    fn probe(&self, t: i128) -> Line {
        flipped(&self.0.probe(-t))
    }
}

/// The line on the other side of 0.
pub(crate) fn flipped(line: &Line) -> Line
    ensures place { result.place ≡ neg_ℤ line.now.place }
    ensures value { result.value ≡ line.now.value }
    ensures forth { (value : ℤ → ℤ) → IsLine value line.now → IsLine (λ t. value (neg_ℤ t)) result }
    ensures back { (value : ℤ → ℤ) → IsLine (λ t. value (neg_ℤ t)) line.now → IsLine value result }
{
    Line {
        place: -line.place,
        value: line.value,
        slope: -line.slope,
    }
}
