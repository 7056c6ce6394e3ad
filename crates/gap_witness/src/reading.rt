//! What the rounds of a tangent point read of their bound.

ghost use Rattle.std.specs.Prelude.{◌≡◌, ◌*◌, ◌<◌, ◌≤◌, length, unsigned_abs};
ghost use Rattle.gap_base.specs.Sums.{at};
ghost use Rattle.gap_instance.specs.Objective.{cov_of};
ghost use Rattle.gap_witness.specs.Frames.{setting_in};

use crate::frame::Frame;

/// The budget of a point: 8L eighths.
pub(crate) fn budget(frame: &Frame<'_>) -> u32
    ensures value { result ≡ 8 * (setting_in frame.now).instance.lots }
    ensures most { result ≤ 80000 }
{
    8 * u32::from(frame.mv.instance().lots())
}

/// The weight of the risk.
pub(crate) fn risk_weight(frame: &Frame<'_>) -> u8
    ensures value { result ≡ (setting_in frame.now).p }
    ensures most { result ≤ 100 }
{
    frame.mv.weight().p
}

/// The covariance of assets `i` and `j`.
pub(crate) fn covariance(frame: &Frame<'_>, i: u16, j: u16) -> i64
    requires row { i < length frame.now.part.now }
    requires column { j < length frame.now.part.now }
    ensures value { result ≡ cov_of (setting_in frame.now).instance.market i j }
    ensures small { unsigned_abs result ≤ 1000000000000000000 }
{
    frame.mv.instance().cov(i, j)
}

/// The shift of asset `i`.
pub(crate) fn diagonal(frame: &Frame<'_>, i: u16) -> i128
    requires { i < length frame.now.part.now }
    ensures value { result ≡ at (setting_in frame.now).shift i }
    ensures small { unsigned_abs result ≤ 1000000000000000000000 }
{
    frame.mv.shift().d(i)
}
