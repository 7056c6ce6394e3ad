//! From a highest place towards 0, as long as the curve stays as high.

ghost use Rattle.std.specs.Prelude.{◌≡◌, ◌≤◌, ◌<◌, ℤ, pos, ◌≤ℤ◌, ◌<ℤ◌, unsigned_abs};
ghost use Rattle.gap_lines.specs.Lines.{IsLine};

use crate::curve::Curve;
use crate::heights::reach_within;
use crate::line::Line;

/// A place from `floor` to that of `top` before which the line `rise` keeps the curve below the top's height, unless it
/// is `floor` itself.
pub(crate) fn first_reach(floor: i128, rise: &Line, top: &Line) -> i128
    requires { floor ≤ℤ top.now.place }
    ensures from { floor ≤ℤ result }
    ensures to { result ≤ℤ top.now.place }
    ensures before { (value : ℤ → ℤ) → IsLine value rise.now → floor <ℤ result → (b : ℤ) → b <ℤ result
        → value b <ℤ top.now.value }
{
    if rise.slope > 0 && rise.value < top.value && rise.place < top.place {
        let reach = reach_within(rise, top);
        if floor < reach {
            return reach;
        }
    }
    floor
}

/// The line at the first place from `from` on where the curve is as high as at the top. Each place that isn't as high
/// says by its line where the curve may be at the earliest.
pub(crate) fn first_top<C: Curve>(curve: &C, floor: i128, from: i128, top: &Line) -> Line
    requires small { unsigned_abs floor ≤ 1000000000000000000000000000000 }
    requires top { IsLine (C.value curve.now) top.now }
    requires from { floor ≤ℤ from }
    requires to { from ≤ℤ top.now.place }
    requires before { floor <ℤ from → (b : ℤ) → b <ℤ from → C.value curve.now b <ℤ top.now.value }
    ensures line { IsLine (C.value curve.now) result }
    ensures from { floor ≤ℤ result.place }
    ensures to { result.place ≤ℤ top.now.place }
    ensures reached { top.now.value ≤ℤ result.value }
    ensures first { floor <ℤ result.place → (b : ℤ) → b <ℤ result.place → C.value curve.now b <ℤ top.now.value }
{
    let mut at = from;
    while at < top.place {
        let line = curve.probe(at);
        if line.value >= top.value {
            return line;
        }
        at = reach_within(&line, top);
    }
    *top
}

/// The line at the place nearest to 0 where the curve is as high as at the top, from `low` on. The top's place isn't
/// below 0, and `rise` is any line of the curve.
pub(crate) fn toward_zero<C: Curve>(curve: &C, low: i128, rise: &Line, top: &Line) -> Line
    requires small { unsigned_abs low ≤ 1000000000000000000000000000000 }
    requires rise { IsLine (C.value curve.now) rise.now }
    requires top { IsLine (C.value curve.now) top.now }
    requires from { low ≤ℤ top.now.place }
    requires positive { pos 0 ≤ℤ top.now.place }
    ensures line { IsLine (C.value curve.now) result }
    ensures from { low ≤ℤ result.place }
    ensures to { result.place ≤ℤ top.now.place }
    ensures reached { top.now.value ≤ℤ result.value }
    ensures first { (b : ℤ) → low ≤ℤ b → unsigned_abs b < unsigned_abs result.place → C.value curve.now b <ℤ top.now.value }
{
    let floor = if low < 0 { 0 } else { low };
    let from = first_reach(floor, rise, top);
    first_top(curve, floor, from, top)
}
