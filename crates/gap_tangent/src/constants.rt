//! What a tangent has at no asset, from the gradients at its point.

ghost use Rattle.std.specs.Prelude.{◌≡◌, ℕ, ◌*◌, ◌<◌, ◌≤◌, ℤ, pos, ◌+ℤ◌, ◌*ℤ◌, ◌≤ℤ◌, neg_ℤ, unsigned_abs};
ghost use Rattle.gap_base.specs.Sums.{sum_below, at};
ghost use Rattle.gap_base.specs.Lots.{lots_at};
ghost use Rattle.gap_model.specs.Lagrangian.{reward_of};
ghost use Rattle.gap_model.specs.Leaves.{IsPoint};
ghost use Rattle.gap_tangent.specs.Seen.{setting_of};
ghost use Rattle.gap_tangent.specs.Terms.{gradient_of, constant_at};

use crate::gradients::{eighths_at, reward_at};
use crate::mean_variance::MeanVariance;
use gap_base::Eighths;

/// The gradient at asset `i`, of those kept.
fn kept_gradient(mv: &MeanVariance<'_>, y: &Eighths, gradients: &[i128; 256], i: u16) -> i128
    requires there { i < (setting_of mv.now).instance.market.assets }
    requires point { IsPoint (setting_of mv.now).instance y.now }
    requires kept { (k : ℕ) → k < (setting_of mv.now).instance.market.assets
        → at gradients.now k ≡ gradient_of (setting_of mv.now) (lots_at y.now) k }
    ensures value { result ≡ gradient_of (setting_of mv.now) (lots_at y.now) i }
    ensures small { unsigned_abs result ≤ 16250000000000000000000000000 }
{
    let _assets = mv.instance.n();
    let place = usize::from(i);
    gradients[place]
}

/// `gradient + 8 reward`: what the square alone adds to a gradient, `2p (Ay)_i`.
fn pull(gradient: i128, reward: i128) -> i128
    requires gradient { unsigned_abs gradient ≤ 16250000000000000000000000000 }
    requires reward { unsigned_abs reward ≤ 1000000000000000000000000 }
    ensures value { result ≡ gradient +ℤ pos 8 *ℤ reward }
    ensures small { unsigned_abs result ≤ 16258000000000000000000000000 }
{
    gradient + 8 * reward
}

/// A pull times the eighths of its asset.
fn weighed(pull: i128, eighths: u32) -> i128
    requires pull { unsigned_abs pull ≤ 16258000000000000000000000000 }
    requires eighths { eighths ≤ 80000 }
    ensures value { result ≡ pull *ℤ pos eighths }
    ensures small { unsigned_abs result ≤ 1300640000000000000000000000000000 }
{
    pull * i128::from(eighths)
}

/// The pull at asset `i` times its eighths.
fn term_at(mv: &MeanVariance<'_>, y: &Eighths, gradients: &[i128; 256], i: u16) -> i128
    requires there { i < (setting_of mv.now).instance.market.assets }
    requires point { IsPoint (setting_of mv.now).instance y.now }
    requires kept { (k : ℕ) → k < (setting_of mv.now).instance.market.assets
        → at gradients.now k ≡ gradient_of (setting_of mv.now) (lots_at y.now) k }
    ensures value { result ≡ (gradient_of (setting_of mv.now) (lots_at y.now) i
        +ℤ pos 8 *ℤ reward_of (setting_of mv.now) i) *ℤ lots_at y.now i }
    ensures small { unsigned_abs result ≤ 1300640000000000000000000000000000 }
{
    let pull = pull(kept_gradient(mv, y, gradients, i), reward_at(mv, i));
    weighed(pull, eighths_at(mv, y, i))
}

/// The sum of the pulls, each times the eighths of its asset: `2p y'Ay`.
#[tactic(auto, using(gap_base::proofs::SumLaws::sum_steps))]
fn pull_sum(mv: &MeanVariance<'_>, y: &Eighths, gradients: &[i128; 256]) -> i128
    requires point { IsPoint (setting_of mv.now).instance y.now }
    requires kept { (k : ℕ) → k < (setting_of mv.now).instance.market.assets
        → at gradients.now k ≡ gradient_of (setting_of mv.now) (lots_at y.now) k }
    ensures value { result ≡ sum_below (setting_of mv.now).instance.market.assets
        (λ i. (gradient_of (setting_of mv.now) (lots_at y.now) i +ℤ pos 8 *ℤ reward_of (setting_of mv.now) i)
        *ℤ lots_at y.now i) }
    ensures small { unsigned_abs result ≤ 256 * 1300640000000000000000000000000000 }
{
    let mut sum: i128 = 0;
    for i in 0..mv.instance.n() {
        sum += term_at(mv, y, gradients, i);
    }
    sum
}

/// Half of a number that isn't negative, rounded down.
fn half(number: i128) -> i128
    requires { pos 0 ≤ℤ number }
    ensures sign { pos 0 ≤ℤ result }
    ensures least { (pos 2 *ℤ result) ≤ℤ number }
    ensures most { number ≤ℤ (pos 2 *ℤ result +ℤ pos 1) }
{
    number / 2
}

/// What a tangent has at no asset: `-p y'Ay`. Costs O(N).
pub(crate) fn constant_of(mv: &MeanVariance<'_>, y: &Eighths, gradients: &[i128; 256]) -> i128
    requires point { IsPoint (setting_of mv.now).instance y.now }
    requires kept { (k : ℕ) → k < (setting_of mv.now).instance.market.assets
        → at gradients.now k ≡ gradient_of (setting_of mv.now) (lots_at y.now) k }
    ensures { result ≡ constant_at (setting_of mv.now) (lots_at y.now) }
{
    -half(pull_sum(mv, y, gradients))
}
