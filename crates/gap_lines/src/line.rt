//! A line through a curve.

ghost use Rattle.std.specs.Prelude.{◌≤◌, unsigned_abs};

/// The line that has a value at a place, and a slope. Its place is at most 10^30 in size, its value 10^37 and its slope
/// 10^7, so its height at any such place, and the difference of two such heights, stay below 2^127.
#[derive(Clone, Copy)]
pub struct Line {
    /// A place where the line is known.
    pub place: i128,
    /// Its height there.
    pub value: i128,
    /// By how much it is higher one place further.
    pub slope: i128,
    pub ghost place_small: { unsigned_abs place ≤ 1000000000000000000000000000000 },
    pub ghost value_small: { unsigned_abs value ≤ 10000000000000000000000000000000000000 },
    pub ghost slope_small: { unsigned_abs slope ≤ 10000000 },
}
