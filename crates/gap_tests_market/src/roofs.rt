//! Curves whose highest places are known: roofs.

ghost use Rattle.std.specs.Prelude.{◌≡◌, ◌≤◌, pos, ◌-ℤ◌, unsigned_abs};
ghost use Rattle.std.specs.Int.{int_min};

use gap_lines::{Curve, Line};

/// The line of a value at a place, and a slope.
fn line(place: i128, value: i128, slope: i128) -> Line
    requires place { unsigned_abs place ≤ 1000000000000000000000000000000 }
    requires value { unsigned_abs value ≤ 10000000000000000000000000000000000000 }
    requires slope { unsigned_abs slope ≤ 1 }
    ensures place { result.place ≡ place }
    ensures value { result.value ≡ value }
    ensures slope { result.slope ≡ slope }
{
    Line {
        place,
        value,
        slope,
    }
}

/// A curve that rises by 1 a place up to `from`, is 0 from there to `to`, and falls by 1 a place behind it: the least of
/// three lines.
#[derive(Drop)]
pub struct Roof {
    pub from: i32,
    pub to: i32,
}

impl Curve for Roof {
    ghost value = { λ s t. int_min (pos 0) (int_min (t -ℤ s.from) (s.to -ℤ t)) };

    fn probe(&self, t: i128) -> Line {
        let rising = t - i128::from(self.from);
        let falling = i128::from(self.to) - t;
        if rising < 0 && rising <= falling {
            return line(t, rising, 1);
        }
        if falling < 0 {
            return line(t, falling, -1);
        }
        line(t, 0, 0)
    }
}
