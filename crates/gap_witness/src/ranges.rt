//! The ranges of all assets in rows, formed once for all rounds.

ghost use Rattle.std.specs.Prelude.{◌≡◌, ℕ, ◌<◌, ◌≤◌, length, slice_index_or, unsigned_abs};
ghost use Rattle.gap_base.specs.Sums.{at};
ghost use Rattle.gap_witness.specs.Points.{lower_end, upper_end};
ghost use Rattle.gap_witness.specs.Frames.{setting_in, choice_in, level, AreRanges};

use crate::frame::Frame;
use crate::gradient::level_at;
use crate::range::{lower, upper};

/// The ends of all ranges, and what these take off the gradients.
#[derive(Drop)]
pub(crate) struct Ranges {
    pub(crate) lowers: [u32; 256],
    pub(crate) uppers: [u32; 256],
    pub(crate) levels: [i128; 256],
}

/// The least numbers of eighths of all assets.
fn lowers_of(frame: &Frame<'_>) -> [u32; 256]
    ensures { (k : ℕ) → k < length frame.now.part.now → slice_index_or result k 0 ≡ lower_end (choice_in frame.now) k }
{
    let mut lowers = [0; 256];
    for i in 0..frame.part.len() {
        lowers[usize::from(i)] = lower(frame, i);
    }
    lowers
}

/// The greatest numbers of eighths of all assets.
fn uppers_of(frame: &Frame<'_>) -> [u32; 256]
    ensures { (k : ℕ) → k < length frame.now.part.now → slice_index_or result k 0 ≡ upper_end (choice_in frame.now) k }
{
    let mut uppers = [0; 256];
    for i in 0..frame.part.len() {
        uppers[usize::from(i)] = upper(frame, i);
    }
    uppers
}

/// What the ranges of all assets take off their gradients.
fn levels_of(frame: &Frame<'_>) -> [i128; 256]
    ensures value { (k : ℕ) → k < length frame.now.part.now
        → at result k ≡ level (setting_in frame.now) (choice_in frame.now) k }
    ensures small { (k : ℕ) → k < length frame.now.part.now → unsigned_abs (at result k) ≤ 16000000000000000000000000000 }
{
    let mut levels = [0; 256];
    for i in 0..frame.part.len() {
        levels[usize::from(i)] = level_at(frame, i);
    }
    levels
}

/// The rows of the ranges. Costs O(N).
pub(crate) fn ranges_of(frame: &Frame<'_>) -> Ranges
    ensures { AreRanges frame.now result }
{
    Ranges {
        lowers: lowers_of(frame),
        uppers: uppers_of(frame),
        levels: levels_of(frame),
    }
}
