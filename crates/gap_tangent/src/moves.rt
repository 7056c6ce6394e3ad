//! Gradients after eighths went from one asset to another.

ghost use Rattle.std.specs.Prelude.{◌≡◌, ◌≢◌, ℕ, ◌*◌, ◌<◌, ◌≤◌, slice_set, ℤ, pos, ◌+ℤ◌, ◌-ℤ◌, ◌*ℤ◌, unsigned_abs};
ghost use Rattle.gap_base.specs.Sums.{at};
ghost use Rattle.gap_model.specs.Settings.{shifted_cov};
ghost use Rattle.gap_tangent.specs.Seen.{setting_of};

use crate::mean_variance::MeanVariance;

/// The entry of A for assets `i` and `j`.
fn entry(mv: &MeanVariance<'_>, i: u16, j: u16) -> i128
    requires row { i < (setting_of mv.now).instance.market.assets }
    requires column { j < (setting_of mv.now).instance.market.assets }
    ensures value { result ≡ shifted_cov (setting_of mv.now) i j }
    ensures small { unsigned_abs result ≤ 1001000000000000000000 }
{
    let covariance = i128::from(mv.instance.cov(j, i));
    if j == i {
        covariance + mv.shift.d(i)
    } else {
        covariance
    }
}

/// `2 p s`
fn steepness(p: u8, s: u32) -> u32
    requires p { p ≤ 100 }
    requires s { s ≤ 80000 }
    ensures value { result ≡ 2 * p * s }
    ensures small { result ≤ 16000000 }
{
    2 * u32::from(p) * s
}

/// `more - less`
fn lead(more: i128, less: i128) -> i128
    requires more { unsigned_abs more ≤ 1001000000000000000000 }
    requires less { unsigned_abs less ≤ 1001000000000000000000 }
    ensures value { result ≡ more -ℤ less }
    ensures small { unsigned_abs result ≤ 2002000000000000000000 }
{
    more - less
}

/// A steepness times a lead.
fn climbed(steep: u32, lead: i128) -> i128
    requires steep { steep ≤ 16000000 }
    requires lead { unsigned_abs lead ≤ 2002000000000000000000 }
    ensures value { result ≡ pos steep *ℤ lead }
    ensures small { unsigned_abs result ≤ 32032000000000000000000000000 }
{
    i128::from(steep) * lead
}

/// `more - less`, in 64 bits
fn difference(more: i64, less: i64) -> i64
    requires more { unsigned_abs more ≤ 1000000000000000000 }
    requires less { unsigned_abs less ≤ 1000000000000000000 }
    ensures value { result ≡ more -ℤ less }
    ensures small { unsigned_abs result ≤ 2000000000000000000 }
{
    more - less
}

/// The same lead where asset `k` is neither of the two: the difference of two covariances, in 64 bits.
fn lead_apart(mv: &MeanVariance<'_>, k: u16, i: u16, j: u16) -> i64
    requires there { k < (setting_of mv.now).instance.market.assets }
    requires giver { i < (setting_of mv.now).instance.market.assets }
    requires taker { j < (setting_of mv.now).instance.market.assets }
    requires not_giver { k ≢ i }
    requires not_taker { k ≢ j }
    ensures value { result ≡ shifted_cov (setting_of mv.now) k j -ℤ shifted_cov (setting_of mv.now) k i }
    ensures small { unsigned_abs result ≤ 2000000000000000000 }
{
    let more = mv.instance.cov(j, k);
    let less = mv.instance.cov(i, k);
    difference(more, less)
}

/// A steepness times such a lead.
fn climbed_apart(steep: u32, lead: i64) -> i128
    requires steep { steep ≤ 16000000 }
    requires lead { unsigned_abs lead ≤ 2000000000000000000 }
    ensures value { result ≡ pos steep *ℤ lead }
    ensures small { unsigned_abs result ≤ 32032000000000000000000000000 }
{
    i128::from(steep) * i128::from(lead)
}

/// What the gradient at asset `k` gains where `s` eighths go from asset `i` to asset `j`.
fn gained(mv: &MeanVariance<'_>, k: u16, i: u16, j: u16, s: u32) -> i128
    requires there { k < (setting_of mv.now).instance.market.assets }
    requires giver { i < (setting_of mv.now).instance.market.assets }
    requires taker { j < (setting_of mv.now).instance.market.assets }
    requires s { s ≤ 80000 }
    ensures value { result ≡ pos (2 * (setting_of mv.now).p * s)
        *ℤ (shifted_cov (setting_of mv.now) k j -ℤ shifted_cov (setting_of mv.now) k i) }
    ensures small { unsigned_abs result ≤ 32032000000000000000000000000 }
{
    let steep = steepness(mv.weight.p, s);
    if k == i || k == j {
        return climbed(steep, lead(entry(mv, k, j), entry(mv, k, i)));
    }
    climbed_apart(steep, lead_apart(mv, k, i, j))
}

/// Adds an amount to the number at place `k`.
fn add_to(gradients: &mut [i128; 256], k: u16, amount: i128)
    requires there { k < 256 }
    requires old { unsigned_abs (at gradients.old k) ≤ 16250000000000000000000000000 }
    requires amount { unsigned_abs amount ≤ 32032000000000000000000000000 }
    ensures { gradients.new ≡ slice_set gradients.old k (at gradients.old k +ℤ amount) }
{
    let place = usize::from(k);
    let old = gradients[place];
    gradients[place] = old + amount;
}

/// Changes the gradients to those after `s` eighths went from asset `i` to asset `j`. Costs O(N).
pub(crate) fn move_gradients(
    mv: &MeanVariance<'_>,
    gradients: &mut [i128; 256],
    i: u16,
    j: u16,
    s: u32,
)
    requires giver { i < (setting_of mv.now).instance.market.assets }
    requires taker { j < (setting_of mv.now).instance.market.assets }
    requires s { s ≤ 80000 }
    requires small { (k : ℕ) → k < (setting_of mv.now).instance.market.assets
        → unsigned_abs (at gradients.old k) ≤ 16250000000000000000000000000 }
    ensures { (k : ℕ) → k < (setting_of mv.now).instance.market.assets
        → at gradients.new k
        ≡ at gradients.old k
        +ℤ pos (2 * (setting_of mv.now).p * s)
        *ℤ (shifted_cov (setting_of mv.now) k j -ℤ shifted_cov (setting_of mv.now) k i) }
{
    for k in 0..mv.instance.n() {
        add_to(gradients, k, gained(mv, k, i, j, s));
    }
}
