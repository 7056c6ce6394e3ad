//! The rounds of a tangent point.

ghost use Rattle.std.specs.Prelude.{◌≡◌, ◌≢◌, ℕ, ◌*◌, ◌<◌, ◌≤◌, length, slice_index_or, Some, IfSome, option_map, ◌-ℤ◌, unsigned_abs};
ghost use Rattle.gap_witness.specs.Points.{lower_end, upper_end, gradient, shifted_by, exchange, next, rounds};
ghost use Rattle.gap_witness.specs.Frames.{setting_in, choice_in, moved_by, CanMove, AreRanges};

use crate::frame::Frame;
use crate::moving::Move;
use crate::pairs::{pair_of, slope_at};
use crate::ranges::{Ranges, ranges_of};
use crate::step::{curvature_of, drop_of, gap_of, room_of, step_by};
use gap_base::Eighths;
use gap_tangent::Point;

/// How many eighths a round moves from the asset that gives to the one that takes, by the gap of their slopes; None where
/// the rounds end.
fn exchanged(frame: &Frame<'_>, y: &Eighths, gap: i128, i: u16, j: u16) -> Option<u32>
    requires giver { i < length frame.now.part.now }
    requires taker { j < length frame.now.part.now }
    requires same { length y.now ≡ length frame.now.part.now }
    requires gap { gap
        ≡ gradient (setting_in frame.now) (choice_in frame.now) y.now i
        -ℤ gradient (setting_in frame.now) (choice_in frame.now) y.now j }
    requires small { unsigned_abs gap ≤ 10000000000000000000000000000000 }
    requires gives { lower_end (choice_in frame.now) i < slice_index_or y.now i 0 }
    requires takes { slice_index_or y.now j 0 < upper_end (choice_in frame.now) j }
    ensures value { option_map (λ t. shifted_by y.now t i j) result
        ≡ exchange (setting_in frame.now) (choice_in frame.now) y.now i (Some j) }
    ensures enough { IfSome result (λ t. t ≤ slice_index_or y.now i 0) }
{
    let _assets = frame.part.len();
    if gap <= 0 {
        return None;
    }
    let curve = curvature_of(frame, i, j);
    let room = room_of(frame, y, i, j);
    let step = step_by(room, gap.unsigned_abs(), curve.unsigned_abs());
    if gap <= drop_of(curve, step) {
        return None;
    }
    Some(step)
}

/// The gap of the slopes of two assets.
fn gap_at(frame: &Frame<'_>, ranges: &Ranges, point: &Point<'_>, i: u16, j: u16) -> i128
    requires giver { i < length frame.now.part.now }
    requires taker { j < length frame.now.part.now }
    requires same { point.now.setting ≡ setting_in frame.now }
    requires ranges { AreRanges frame.now ranges.now }
    ensures value { result
        ≡ gradient (setting_in frame.now) (choice_in frame.now) point.now.eighths i
        -ℤ gradient (setting_in frame.now) (choice_in frame.now) point.now.eighths j }
    ensures small { unsigned_abs result ≤ 10000000000000000000000000000000 }
{
    let first = slope_at(frame, &ranges.levels, point, i);
    let second = slope_at(frame, &ranges.levels, point, j);
    gap_of(first, second)
}

/// The move of a round from one asset to another; None where the rounds end.
fn move_between(frame: &Frame<'_>, y: &Eighths, gap: i128, i: u16, j: u16) -> Option<Move>
    requires giver { i < length frame.now.part.now }
    requires taker { j < length frame.now.part.now }
    requires apart { i ≢ j }
    requires same { length y.now ≡ length frame.now.part.now }
    requires gap { gap
        ≡ gradient (setting_in frame.now) (choice_in frame.now) y.now i
        -ℤ gradient (setting_in frame.now) (choice_in frame.now) y.now j }
    requires small { unsigned_abs gap ≤ 10000000000000000000000000000000 }
    requires gives { lower_end (choice_in frame.now) i < slice_index_or y.now i 0 }
    requires takes { slice_index_or y.now j 0 < upper_end (choice_in frame.now) j }
    ensures value { option_map (moved_by y.now) result
        ≡ exchange (setting_in frame.now) (choice_in frame.now) y.now i (Some j) }
    ensures lawful { IfSome result (CanMove (length frame.now.part.now) y.now) }
{
    match exchanged(frame, y, gap, i, j) {
        None => None,
        Some(eighths) => Some(Move {
            from: i,
            to: j,
            eighths,
        }),
    }
}

/// The move of a round from a point; None where the rounds end. Where the asset that may take with the least slope is the
/// one that gives, no gap is left. Costs O(N).
fn next_move(frame: &Frame<'_>, ranges: &Ranges, point: &Point<'_>) -> Option<Move>
    requires same { point.now.setting ≡ setting_in frame.now }
    requires ranges { AreRanges frame.now ranges.now }
    ensures value { option_map (moved_by point.now.eighths) result
        ≡ next (setting_in frame.now) (choice_in frame.now) point.now.eighths }
    ensures lawful { IfSome result (CanMove (length frame.now.part.now) point.now.eighths) }
{
    let y = point.eighths();
    let pair = pair_of(frame, ranges, point);
    let Some(i) = pair.giver else {
        return None;
    };
    let Some(j) = pair.taker else {
        return None;
    };
    if i == j {
        return None;
    }
    let gap = gap_at(frame, ranges, point, i, j);
    move_between(frame, y, gap, i, j)
}

/// The point after at most 8N rounds from a first one.
pub(crate) fn walked<'m>(frame: &Frame<'_>, first: Point<'m>) -> Point<'m>
    requires { first.setting ≡ setting_in frame.now }
    ensures { result ≡ record {
      setting = setting_in frame.now;
      eighths = rounds (8 * length frame.now.part.now) (next (setting_in frame.now) (choice_in frame.now))
          first.entry.eighths;
    } }
{
    let ranges = ranges_of(frame);
    let mut point = first;
    for turn in 0..8 * frame.part.len() {
        match next_move(frame, &ranges, &point) {
            None => return point,
            Some(step) => point.give(step.from, step.to, step.eighths),
        }
    }
    point
}
