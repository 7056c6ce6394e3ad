//! The gradient of a tangent point.

ghost use Rattle.std.specs.Prelude.{◌≡◌, ◌*◌, ◌<◌, ◌≤◌, length, ℤ, pos, ◌-ℤ◌, ◌*ℤ◌, unsigned_abs};
ghost use Rattle.gap_model.specs.Settings.{shifted_cov};
ghost use Rattle.gap_witness.specs.Frames.{setting_in, choice_in, level};

use crate::frame::Frame;
use crate::range::{lower, upper};
use crate::reading::{covariance, diagonal, risk_weight};

/// The entry of A for assets `i` and `j`.
pub(crate) fn entry(frame: &Frame<'_>, i: u16, j: u16) -> i128
    requires row { i < length frame.now.part.now }
    requires column { j < length frame.now.part.now }
    ensures value { result ≡ shifted_cov (setting_in frame.now) i j }
    ensures small { unsigned_abs result ≤ 1001000000000000000000 }
{
    let both = i128::from(covariance(frame, i, j));
    if j == i {
        both + diagonal(frame, i)
    } else {
        both
    }
}

/// `p` times the ends of a range.
fn scaled(p: u8, ends: u32) -> u32
    requires p { p ≤ 100 }
    requires ends { ends ≤ 160000 }
    ensures value { result ≡ p * ends }
    ensures small { result ≤ 16000000 }
{
    u32::from(p) * ends
}

/// Scaled ends times a number of the shift.
fn leveled(scale: u32, d: i128) -> i128
    requires scale { scale ≤ 16000000 }
    requires d { unsigned_abs d ≤ 1000000000000000000000 }
    ensures value { result ≡ pos scale *ℤ d }
    ensures small { unsigned_abs result ≤ 16000000000000000000000000000 }
{
    i128::from(scale) * d
}

/// What the range of asset `i` takes off its gradient.
pub(crate) fn level_at(frame: &Frame<'_>, i: u16) -> i128
    requires { i < length frame.now.part.now }
    ensures value { result ≡ level (setting_in frame.now) (choice_in frame.now) i }
    ensures small { unsigned_abs result ≤ 16000000000000000000000000000 }
{
    let ends = scaled(risk_weight(frame), lower(frame, i) + upper(frame, i));
    leveled(ends, diagonal(frame, i))
}

/// What a gradient is above a level.
pub(crate) fn above(gradient: i128, level: i128) -> i128
    requires gradient { unsigned_abs gradient ≤ 16250000000000000000000000000 }
    requires level { unsigned_abs level ≤ 16000000000000000000000000000 }
    ensures value { result ≡ gradient -ℤ level }
    ensures small { unsigned_abs result ≤ 5000000000000000000000000000000 }
{
    gradient - level
}
