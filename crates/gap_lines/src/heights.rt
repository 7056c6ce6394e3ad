//! Heights of lines.

ghost use Rattle.std.specs.Prelude.{◌≡◌, ◌≤◌, ◌+◌, pos, ◌≤ℤ◌, ◌<ℤ◌, ◌+ℤ◌, ◌-ℤ◌, ◌*ℤ◌, ℤ, unsigned_abs, neg_ℤ};
ghost use Rattle.gap_lines.specs.Lines.{on, IsLine};

use crate::line::Line;

/// The height of the line at `b`.
pub(crate) fn height_at(line: &Line, b: i128) -> i128
    requires { unsigned_abs b ≤ 1000000000000000000000000000001 }
    ensures value { result ≡ on line.now b }
    ensures small { unsigned_abs result ≤ 31000000000000000000000000000000000000 }
{
    line.value + (b - line.place) * line.slope
}

/// How many whole steps of `slope` fit into `short`.
fn steps_in(short: i128, slope: i128) -> i128
    requires short { pos 0 ≤ℤ short }
    requires slope { pos 0 <ℤ slope }
    ensures least { pos 0 ≤ℤ result }
    ensures most { (result *ℤ slope) ≤ℤ short }
{
    short / slope
}

/// How many whole steps of `slope` lead to `ahead` from 0, forward or back, rounded down.
pub(crate) fn steps_toward(ahead: i128, slope: i128) -> i128
    requires ahead { unsigned_abs ahead ≤ 62000000000000000000000000000000000000 }
    requires slope { pos 0 <ℤ slope }
{
    if ahead < 0 {
        -steps_in(-ahead - 1, slope) - 1
    } else {
        steps_in(ahead, slope)
    }
}

/// The first place behind the line's own where it reaches the height of `top`, at most the place of `top`.
pub(crate) fn reach_within(line: &Line, top: &Line) -> i128
    requires lower { line.now.value <ℤ top.now.value }
    requires rising { pos 0 <ℤ line.now.slope }
    requires ahead { line.now.place <ℤ top.now.place }
    ensures past { line.now.place <ℤ result }
    ensures within { result ≤ℤ top.now.place }
    ensures below { (b : ℤ) → b <ℤ result → on line.now b <ℤ top.now.value }
{
    let steps = steps_in(top.value - 1 - line.value, line.slope);
    if steps < top.place - line.place {
        line.place + steps + 1
    } else {
        top.place
    }
}
