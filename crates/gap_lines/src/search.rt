//! The search for a highest place.

ghost use Rattle.std.specs.Prelude.{◌≡◌, ◌≤◌, ℤ, pos, ◌≤ℤ◌, unsigned_abs};
ghost use Rattle.gap_lines.specs.Lines.{IsLine, IsBest};
ghost use Rattle.gap_lines.specs.Brackets.{IsTop};

use crate::bracket::{Bracket, has_room, longer, narrowed, next_place, opened};
use crate::curve::Curve;
use crate::line::Line;
use crate::mirror::{Mirror, flipped};
use crate::nearest::toward_zero;

/// A place of `low..high` where the curve is highest, with two lines of the curve beside it. From `start` the search
/// goes by steps of `stride`, each eight times as long as the last, until one line rises and one falls; then it looks
/// where the two meet.
fn highest<C: Curve>(curve: &C, low: i128, high: i128, start: i128, stride: i128) -> Bracket
    requires low_small { unsigned_abs low ≤ 1000000000000000000000000000000 }
    requires high_small { unsigned_abs high ≤ 1000000000000000000000000000000 }
    requires from { low ≤ℤ start }
    requires to { start ≤ℤ high }
    requires stride_small { unsigned_abs stride ≤ 1000000000000000000000000000000 }
    ensures top { IsTop (C.value curve.now) low high result.top }
    ensures rise { IsLine (C.value curve.now) result.rise }
    ensures fall { IsLine (C.value curve.now) result.fall }
{
    let first = curve.probe(start);
    let mut bracket = opened(low, high, &first);
    let mut step = stride;
    while has_room(&bracket) {
        let place = match next_place(&bracket, step) {
            Some(place) => place,
            None => return bracket,
        };
        let line = curve.probe(place);
        bracket = narrowed(&bracket, &line);
        step = longer(step);
    }
    bracket
}

/// The line at the place of `low..high` where the curve is highest, and of equal ones at the one nearest to 0.
///
/// The search begins at `start` and goes by steps of `stride` and longer ones until it has a line that rises and one
/// that falls; whatever these two are, the answer is the same. A start near the highest place and a stride about its
/// distance make it short: some five probes where the curve is the least of a few dozen lines. Takes no memory.
pub fn best_place<C: Curve>(curve: &C, low: i128, high: i128, start: i128, stride: i128) -> Line
    requires low_small { unsigned_abs low ≤ 1000000000000000000000000000000 }
    requires high_small { unsigned_abs high ≤ 1000000000000000000000000000000 }
    requires from { low ≤ℤ start }
    requires to { start ≤ℤ high }
    requires stride_small { unsigned_abs stride ≤ 1000000000000000000000000000000 }
    ensures line { IsLine (C.value curve.now) result }
    ensures best { IsBest (C.value curve.now) low high result.place }
{
    let found = highest(curve, low, high, start, stride);
    if found.top.place < 0 {
        let mirror = Mirror(curve);
        let fall = flipped(&found.fall);
        let top = flipped(&found.top);
        let nearest = toward_zero(&mirror, -high, &fall, &top);
        return flipped(&nearest);
    }
    toward_zero(curve, low, &found.rise, &found.top)
}
