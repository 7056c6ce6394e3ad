//! Which asset gives eighths in a round, and which takes them.

ghost use Rattle.std.specs.Prelude.{◌≡◌, ℕ, ◌<◌, ◌≤◌, ltb, int_lt, length, slice_index_or, Some, neg_ℤ, unsigned_abs};
ghost use Rattle.gap_base.specs.Sums.{at};
ghost use Rattle.gap_witness.specs.Places.{later, first_greatest};
ghost use Rattle.gap_witness.specs.Points.{lower_end, upper_end, gradient, giver};
ghost use Rattle.gap_witness.specs.Frames.{setting_in, choice_in, level, AreRanges};

use crate::frame::Frame;
use crate::gradient::above;
use crate::ranges::Ranges;
use gap_base::Eighths;
use gap_tangent::Point;

/// The asset with the greatest slope of those that may give, and the one with the least of those that may take: the first
/// ones of equals.
#[derive(Clone, Copy)]
pub(crate) struct Pair {
    pub(crate) giver: Option<u16>,
    pub(crate) taker: Option<u16>,
}

/// The slope at asset `i`: the gradient of the point less the level of its range.
pub(crate) fn slope_at(frame: &Frame<'_>, levels: &[i128; 256], point: &Point<'_>, i: u16) -> i128
    requires there { i < length frame.now.part.now }
    requires same { point.now.setting ≡ setting_in frame.now }
    requires levels { (k : ℕ) → k < length frame.now.part.now
        → at levels.now k ≡ level (setting_in frame.now) (choice_in frame.now) k }
    requires small { (k : ℕ) → k < length frame.now.part.now
        → unsigned_abs (at levels.now k) ≤ 16000000000000000000000000000 }
    ensures value { result ≡ gradient (setting_in frame.now) (choice_in frame.now) point.now.eighths i }
    ensures small { unsigned_abs result ≤ 5000000000000000000000000000000 }
{
    let _cells = frame.part.len();
    above(point.gradient(i), levels[usize::from(i)])
}

/// Is one slope below another?
fn is_below(less: i128, more: i128) -> bool
    ensures { result ≡ int_lt less more }
{
    less < more
}

/// Asset `i` in place of the one found before, where it is allowed and its slope is greater.
fn steeper(
    allowed: bool,
    frame: &Frame<'_>,
    ranges: &Ranges,
    point: &Point<'_>,
    i: u16,
    found: Option<u16>,
) -> Option<u16>
    requires there { i < length frame.now.part.now }
    requires same { point.now.setting ≡ setting_in frame.now }
    requires ranges { AreRanges frame.now ranges.now }
    requires before { (k : ℕ) → found ≡ Some k → k < i }
    ensures { result ≡ later allowed (gradient (setting_in frame.now) (choice_in frame.now) point.now.eighths) i found }
{
    if !allowed {
        return found;
    }
    match found {
        None => Some(i),
        Some(k) => {
            let before = slope_at(frame, &ranges.levels, point, k);
            let here = slope_at(frame, &ranges.levels, point, i);
            if is_below(before, here) {
                Some(i)
            } else {
                Some(k)
            }
        }
    }
}

/// Asset `i` in place of the one found before, where it is allowed and its slope is less.
fn flatter(
    allowed: bool,
    frame: &Frame<'_>,
    ranges: &Ranges,
    point: &Point<'_>,
    i: u16,
    found: Option<u16>,
) -> Option<u16>
    requires there { i < length frame.now.part.now }
    requires same { point.now.setting ≡ setting_in frame.now }
    requires ranges { AreRanges frame.now ranges.now }
    requires before { (k : ℕ) → found ≡ Some k → k < i }
    ensures { result
        ≡ later allowed (λ k. neg_ℤ (gradient (setting_in frame.now) (choice_in frame.now) point.now.eighths k)) i found }
{
    if !allowed {
        return found;
    }
    match found {
        None => Some(i),
        Some(k) => {
            let before = slope_at(frame, &ranges.levels, point, k);
            let here = slope_at(frame, &ranges.levels, point, i);
            if is_below(here, before) {
                Some(i)
            } else {
                Some(k)
            }
        }
    }
}

/// May asset `i` give eighths?
fn may_give(frame: &Frame<'_>, ranges: &Ranges, y: &Eighths, i: u16) -> bool
    requires there { i < length frame.now.part.now }
    requires same { length y.now ≡ length frame.now.part.now }
    requires ranges { AreRanges frame.now ranges.now }
    ensures { result ≡ ltb (lower_end (choice_in frame.now) i) (slice_index_or y.now i 0) }
{
    let _cells = frame.part.len();
    ranges.lowers[usize::from(i)] < y.get(i)
}

/// May asset `i` take eighths?
fn may_take(frame: &Frame<'_>, ranges: &Ranges, y: &Eighths, i: u16) -> bool
    requires there { i < length frame.now.part.now }
    requires same { length y.now ≡ length frame.now.part.now }
    requires ranges { AreRanges frame.now ranges.now }
    ensures { result ≡ ltb (slice_index_or y.now i 0) (upper_end (choice_in frame.now) i) }
{
    let _cells = frame.part.len();
    y.get(i) < ranges.uppers[usize::from(i)]
}

/// The pair of a point, found in one pass.
pub(crate) fn pair_of(frame: &Frame<'_>, ranges: &Ranges, point: &Point<'_>) -> Pair
    requires same { point.now.setting ≡ setting_in frame.now }
    requires count { length point.now.eighths ≡ length frame.now.part.now }
    requires ranges { AreRanges frame.now ranges.now }
    ensures giver { result.giver ≡ giver (setting_in frame.now) (choice_in frame.now) point.now.eighths }
    ensures taker { result.taker
        ≡ first_greatest (length frame.now.part.now)
        (λ j. ltb (slice_index_or point.now.eighths j 0) (upper_end (choice_in frame.now) j))
        (λ j. neg_ℤ (gradient (setting_in frame.now) (choice_in frame.now) point.now.eighths j)) }
{
    let mut giver = None;
    let mut taker = None;
    for i in 0..frame.part.len() {
        let gives = may_give(frame, ranges, point.eighths(), i);
        giver = steeper(gives, frame, ranges, point, i, giver);
        let takes = may_take(frame, ranges, point.eighths(), i);
        taker = flatter(takes, frame, ranges, point, i, taker);
    }
    Pair { giver, taker }
}
