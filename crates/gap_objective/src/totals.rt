//! Risk, return and the scaled objective of a list of lots, from the list itself.

ghost use Rattle.std.specs.Prelude.{◌≡◌, ℕ, ◌≤◌, ◌<◌, ◌*ℤ◌, length, slice_index_or, unsigned_abs};
ghost use Rattle.gap_base.specs.Lots.{lots_at};
ghost use Rattle.gap_instance.specs.Instances.{AreBetween, IsInstance};
ghost use Rattle.gap_instance.specs.Objective.{risk_of, return_of, objective};
ghost use Rattle.gap_objective.specs.Slopes.{row_of};

use crate::terms::{earned, joined, share, weighted};
use gap_base::{Lots, Weight};
use gap_instance::Instance;

/// Row `i` of the covariances times the list. Costs O(N).
#[tactic(auto, using(gap_base::proofs::SumLaws::sum_steps), unfolding(crate::specs::Slopes::row_of))]
pub fn row(inst: &Instance, x: &Lots, i: u16) -> i128
    requires inside { i < inst.now.market.assets }
    requires lots { AreBetween inst.now.market.assets 0 10000 x.now }
    ensures value { result ≡ row_of inst.now.market x.now i }
    ensures instance { IsInstance inst.now }
    ensures small { unsigned_abs result ≤ 2560000000000000000000000 }
{
    let mut sum: i128 = 0;
    for j in 0..inst.n() {
        sum += share(inst.cov(i, j), x.get(j));
    }
    sum
}

/// What asset `i` adds to the risk: its row times its lots. Costs O(N), or O(1) where it isn't held.
fn risk_share(inst: &Instance, x: &Lots, i: u16) -> i128
    requires inside { i < inst.now.market.assets }
    requires lots { AreBetween inst.now.market.assets 0 10000 x.now }
    ensures value { result ≡ row_of inst.now.market x.now i *ℤ lots_at x.now i }
    ensures small { unsigned_abs result ≤ 25600000000000000000000000000 }
{
    let lots = x.get(i);
    if lots == 0 {
        return 0;
    }
    weighted(row(inst, x, i), lots)
}

/// The risk of a list of N numbers of at most 10000: the sum of C_ij x_i x_j over all pairs of assets, in units of
/// 10^-18 and for all the lots. Costs O(N) for each asset that is held and O(N) more, and takes no memory.
#[tactic(auto, using(gap_base::proofs::SumLaws::sum_steps, crate::proofs::RiskLaws::rows))]
pub fn risk(inst: &Instance, x: &Lots) -> i128
    requires { AreBetween inst.now.market.assets 0 10000 x.now }
    ensures value { result ≡ risk_of inst.now.market x.now }
    ensures small { unsigned_abs result ≤ 6553600000000000000000000000000 }
{
    let mut sum: i128 = 0;
    for i in 0..inst.n() {
        sum += risk_share(inst, x, i);
    }
    sum
}

/// The return of a list of N numbers of at most 10000: the sum of mean_i x_i over all assets, in millionths and for all
/// the lots. Costs O(N) and takes no memory.
#[tactic(auto, using(gap_base::proofs::SumLaws::sum_steps), unfolding(gap_instance::specs::Objective::return_of))]
pub fn ret(inst: &Instance, x: &Lots) -> i128
    requires { AreBetween inst.now.market.assets 0 10000 x.now }
    ensures value { result ≡ return_of inst.now.market x.now }
    ensures small { unsigned_abs result ≤ 2560000000000 }
{
    let mut sum: i128 = 0;
    for i in 0..inst.n() {
        sum += earned(inst.mean(i), x.get(i));
    }
    sum
}

/// The scaled objective of a list of N numbers of at most 10000 under the weight p/q: p times the risk less
/// (q - p) * 10^12 * L times the return. Costs O(N) for each asset that is held and O(N) more, and takes no memory.
#[tactic(auto, unfolding(gap_instance::specs::Objective::objective))]
pub fn value(inst: &Instance, w: Weight, x: &Lots) -> i128
    requires { AreBetween inst.now.market.assets 0 10000 x.now }
    ensures value { result ≡ objective inst.now w.p w.q x.now }
    ensures small { unsigned_abs result ≤ 2000000000000000000000000000000000 }
{
    joined(w, inst.lots(), risk(inst, x), ret(inst, x))
}
