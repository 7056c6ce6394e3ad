//! The gradient of the square and the reward at a point, from the products with a point.

ghost use Rattle.std.specs.Prelude.{◌≡◌, ℕ, ◌-◌, ◌*◌, ◌<◌, ◌≤◌, slice_index_or, ℤ, pos, ◌+ℤ◌, ◌-ℤ◌, ◌*ℤ◌, unsigned_abs};
ghost use Rattle.gap_base.specs.Sums.{at};
ghost use Rattle.gap_base.specs.Lots.{lots_at};
ghost use Rattle.gap_model.specs.Lagrangian.{reward_of};
ghost use Rattle.gap_model.specs.Leaves.{IsPoint};
ghost use Rattle.gap_tangent.specs.Seen.{setting_of};
ghost use Rattle.gap_tangent.specs.Rows.{AreRows};
ghost use Rattle.gap_tangent.specs.Terms.{tilt_of, gradient_of};

use crate::mean_variance::MeanVariance;
use gap_base::{Eighths, Weight};

/// `row + d eighths`
fn tilted(row: i128, d: i128, eighths: u32) -> i128
    requires row { unsigned_abs row ≤ 80000000000000000000000 }
    requires d { unsigned_abs d ≤ 1000000000000000000000 }
    requires eighths { eighths ≤ 80000 }
    ensures value { result ≡ row +ℤ d *ℤ pos eighths }
    ensures small { unsigned_abs result ≤ 80100000000000000000000000 }
{
    row + d * i128::from(eighths)
}

/// The number at place `i` of the rows.
fn row_at(mv: &MeanVariance<'_>, y: &Eighths, rows: &[i128; 256], i: u16) -> i128
    requires there { i < (setting_of mv.now).instance.market.assets }
    requires rows { AreRows (setting_of mv.now).instance.market y.now rows.now }
    ensures value { result ≡ at rows.now i }
    ensures small { unsigned_abs result ≤ 80000000000000000000000 }
{
    let _assets = mv.instance.n();
    let place = usize::from(i);
    rows[place]
}

/// Row `i` of A times the point.
fn tilt_at(mv: &MeanVariance<'_>, y: &Eighths, rows: &[i128; 256], i: u16) -> i128
    requires there { i < (setting_of mv.now).instance.market.assets }
    requires point { IsPoint (setting_of mv.now).instance y.now }
    requires rows { AreRows (setting_of mv.now).instance.market y.now rows.now }
    ensures value { result ≡ tilt_of (setting_of mv.now) (lots_at y.now) i }
    ensures small { unsigned_abs result ≤ 80100000000000000000000000 }
{
    let _assets = mv.instance.n();
    tilted(row_at(mv, y, rows, i), mv.shift.d(i), eighths_at(mv, y, i))
}

/// `(q - p) 10^12 L`
fn reward_scale(weight: Weight, lots: u16) -> u64
    requires p { weight.p ≤ weight.q }
    requires q { weight.q ≤ 100 }
    requires lots { lots ≤ 10000 }
    ensures value { result ≡ (weight.q - weight.p) * 1000000000000 * lots }
    ensures small { result ≤ 1000000000000000000 }
{
    u64::from(weight.q - weight.p) * 1_000_000_000_000 * u64::from(lots)
}

/// A scale times a mean.
fn rewarded(scale: u64, mean: i32) -> i128
    requires scale { scale ≤ 1000000000000000000 }
    requires mean { unsigned_abs mean ≤ 1000000 }
    ensures value { result ≡ pos scale *ℤ mean }
    ensures small { unsigned_abs result ≤ 1000000000000000000000000 }
{
    i128::from(scale) * i128::from(mean)
}

/// The reward of a lot of asset `i`.
pub(crate) fn reward_at(mv: &MeanVariance<'_>, i: u16) -> i128
    requires { i < (setting_of mv.now).instance.market.assets }
    ensures value { result ≡ reward_of (setting_of mv.now) i }
    ensures small { unsigned_abs result ≤ 1000000000000000000000000 }
{
    rewarded(
        reward_scale(mv.weight, mv.instance.lots()),
        mv.instance.mean(i),
    )
}

/// `2 p tilt`
fn steep(p: u8, tilt: i128) -> i128
    requires p { p ≤ 100 }
    requires tilt { unsigned_abs tilt ≤ 80100000000000000000000000 }
    ensures value { result ≡ pos (2 * p) *ℤ tilt }
    ensures small { unsigned_abs result ≤ 16020000000000000000000000000 }
{
    i128::from(2 * u32::from(p)) * tilt
}

/// `2 p tilt - 8 reward`
fn gradient(p: u8, tilt: i128, reward: i128) -> i128
    requires p { p ≤ 100 }
    requires tilt { unsigned_abs tilt ≤ 80100000000000000000000000 }
    requires reward { unsigned_abs reward ≤ 1000000000000000000000000 }
    ensures value { result ≡ (pos (2 * p) *ℤ tilt) -ℤ (pos 8 *ℤ reward) }
    ensures small { unsigned_abs result ≤ 16250000000000000000000000000 }
{
    steep(p, tilt) - 8 * reward
}

/// The gradient at asset `i`.
fn gradient_at(mv: &MeanVariance<'_>, y: &Eighths, rows: &[i128; 256], i: u16) -> i128
    requires there { i < (setting_of mv.now).instance.market.assets }
    requires point { IsPoint (setting_of mv.now).instance y.now }
    requires rows { AreRows (setting_of mv.now).instance.market y.now rows.now }
    ensures value { result ≡ gradient_of (setting_of mv.now) (lots_at y.now) i }
    ensures small { unsigned_abs result ≤ 16250000000000000000000000000 }
{
    gradient(mv.weight.p, tilt_at(mv, y, rows, i), reward_at(mv, i))
}

/// The gradients of the assets.
pub(crate) fn gradients_of(mv: &MeanVariance<'_>, y: &Eighths, rows: &[i128; 256]) -> [i128; 256]
    requires point { IsPoint (setting_of mv.now).instance y.now }
    requires rows { AreRows (setting_of mv.now).instance.market y.now rows.now }
    ensures { (i : ℕ) → i < (setting_of mv.now).instance.market.assets
        → at result i ≡ gradient_of (setting_of mv.now) (lots_at y.now) i }
{
    let mut gradients = [0; 256];
    for i in 0..mv.instance.n() {
        let value = gradient_at(mv, y, rows, i);
        let place = usize::from(i);
        gradients[place] = value;
    }
    gradients
}

/// The number of eighths at place `i`.
pub(crate) fn eighths_at(mv: &MeanVariance<'_>, y: &Eighths, i: u16) -> u32
    requires there { i < (setting_of mv.now).instance.market.assets }
    requires point { IsPoint (setting_of mv.now).instance y.now }
    ensures value { result ≡ slice_index_or y.now i 0 }
    ensures small { result ≤ 80000 }
{
    let _assets = mv.instance.n();
    y.get(i)
}
