//! How many eighths go from one asset to another in a round.

ghost use Rattle.std.specs.Prelude.{◌≡◌, ◌*◌, ◌<◌, ◌≤◌, length, pos, ◌+ℤ◌, ◌-ℤ◌, ◌*ℤ◌, unsigned_abs, int_le};
ghost use Rattle.gap_model.specs.Settings.{shifted_cov};
ghost use Rattle.gap_witness.specs.Points.{lower_end, upper_end, curvature, room_between, step_of};
ghost use Rattle.gap_witness.specs.Frames.{setting_in, choice_in};

use crate::frame::Frame;
use crate::gradient::entry;
use crate::range::{lower, upper};
use crate::reading::risk_weight;
use gap_base::Eighths;

/// The most that can go from asset `i` to asset `j`.
pub(crate) fn room_of(frame: &Frame<'_>, y: &Eighths, i: u16, j: u16) -> u32
    requires giver { i < length frame.now.part.now }
    requires taker { j < length frame.now.part.now }
    requires same { length y.now ≡ length frame.now.part.now }
    ensures value { result ≡ room_between (choice_in frame.now) y.now i j }
    ensures most { result ≤ 80000 }
{
    let above = y.get(i).saturating_sub(lower(frame, i));
    let below = upper(frame, j).saturating_sub(y.get(j));
    above.min(below)
}

/// What the entries of two assets say of how they move apart.
fn bowed(first: i128, second: i128, both: i128) -> i128
    requires first { unsigned_abs first ≤ 1001000000000000000000 }
    requires second { unsigned_abs second ≤ 1001000000000000000000 }
    requires both { unsigned_abs both ≤ 1001000000000000000000 }
    ensures value { result ≡ (first +ℤ second) -ℤ (pos 2 *ℤ both) }
    ensures small { unsigned_abs result ≤ 4004000000000000000000 }
{
    first + second - 2 * both
}

/// That, times `p`.
fn curved(p: u8, bow: i128) -> i128
    requires p { p ≤ 100 }
    requires bow { unsigned_abs bow ≤ 4004000000000000000000 }
    ensures value { result ≡ pos p *ℤ bow }
    ensures small { unsigned_abs result ≤ 400400000000000000000000 }
{
    i128::from(p) * bow
}

/// Half of what an eighth that goes from asset `i` to asset `j` takes off the gap of their gradients.
pub(crate) fn curvature_of(frame: &Frame<'_>, i: u16, j: u16) -> i128
    requires giver { i < length frame.now.part.now }
    requires taker { j < length frame.now.part.now }
    ensures value { result ≡ curvature (setting_in frame.now) i j }
    ensures small { unsigned_abs result ≤ 400400000000000000000000 }
{
    let first = entry(frame, i, i);
    let second = entry(frame, j, j);
    let both = entry(frame, i, j);
    let bow = bowed(first, second, both);
    curved(risk_weight(frame), bow)
}

/// The gap of two slopes.
pub(crate) fn gap_of(first: i128, second: i128) -> i128
    requires first { unsigned_abs first ≤ 5000000000000000000000000000000 }
    requires second { unsigned_abs second ≤ 5000000000000000000000000000000 }
    ensures value { result ≡ first -ℤ second }
    ensures small { unsigned_abs result ≤ 10000000000000000000000000000000 }
{
    first - second
}

/// What a step takes off that gap.
pub(crate) fn drop_of(curve: i128, s: u32) -> i128
    requires curve { unsigned_abs curve ≤ 400400000000000000000000 }
    requires step { s ≤ 80000 }
    ensures value { result ≡ curve *ℤ pos s }
    ensures small { unsigned_abs result ≤ 32032000000000000000000000000 }
{
    curve * i128::from(s)
}

/// The step of a round: the gap over twice the curvature, rounded down, at least 1 and at most the room.
pub(crate) fn step_by(room: u32, gap: u128, curve: u128) -> u32
    requires room { room ≤ 80000 }
    requires curve { curve ≤ 400400000000000000000000 }
    ensures value { result ≡ step_of room gap curve }
    ensures most { 1 ≤ room → result ≤ room }
{
    if curve == 0 {
        return room;
    }
    (gap / (2 * curve)).min(u128::from(room)).max(1) as u32
}
