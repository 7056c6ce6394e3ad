//! What a search begins with: a list, and the leaf of the root.

ghost use Rattle.std.specs.Prelude.{◌≡◌, ◌≤◌, Some, None, IfOk, IfSome, IsSome, length, ℤ, ◌≤ℤ◌};
ghost use Rattle.std.specs.Option.{ForSome, option_copied};
ghost use Rattle.gap_base.specs.Lots.{eighths_of};
ghost use Rattle.gap_instance.specs.Limits.{MeetsLimits};
ghost use Rattle.gap_instance.specs.Objective.{objective};
ghost use Rattle.gap_model.specs.Leaves.{IsPoint};
ghost use Rattle.gap_tangent.specs.Seen.{setting_of};
ghost use Rattle.gap_solve.specs.Searching.{CostsAtMost, IsFirst, eighths_from, IsAlphaAt, IsBestAt, IsRootLeaf};
ghost use Rattle.gap_solve.specs.Ended.{root_of};

use bumpalo::Bump;
use gap_base::{Eighths, Lots, OutOfMemory, Weight, Witness};
use gap_box::Part;
use gap_instance::Instance;
use gap_leaf::{best_alpha, witness_for};
use gap_model::{Leaf, NodeBound};
use gap_objective::{Holding, value};
use gap_start::{polish, start};
use gap_tangent::MeanVariance;

/// A list that meets the limits, polished.
fn polished_list(inst: &Instance, w: Weight, x: &Lots) -> Lots
    requires { MeetsLimits inst.now x.now }
    ensures meets { MeetsLimits inst.now result }
    ensures better { objective inst.now w.p w.q result ≤ℤ objective inst.now w.p w.q x.now }
{
    let _assets = inst.n();
    let mut holding = Holding::new(inst, w, x);
    polish(&mut holding);
    holding.lots().copy()
}

/// Of a list that may be there and another that is, the one that costs less, the first of equal ones.
fn cheaper(inst: &Instance, w: Weight, found: Option<Lots>, other: Lots) -> Lots
    requires meets { ForSome found (MeetsLimits inst.now) }
    requires other { MeetsLimits inst.now other }
    ensures meets { MeetsLimits inst.now result }
    ensures found { ForSome found (λ x. objective inst.now w.p w.q result ≤ℤ objective inst.now w.p w.q x) }
    ensures other { objective inst.now w.p w.q result ≤ℤ objective inst.now w.p w.q other }
{
    match found {
        None => other,
        Some(x) => {
            let _assets = inst.n();
            if value(inst, w, &other) < value(inst, w, &x) {
                other
            } else {
                x
            }
        }
    }
}

/// The list that a search starts from: the start's, or the list handed in, polished, where it costs less or there is
/// no start.
pub fn first_list(inst: &Instance, w: Weight, warm: Option<&Lots>) -> Option<Lots>
    requires { ForSome (option_copied warm) (MeetsLimits inst.now) }
    ensures { IsFirst inst.now w.p w.q (option_copied warm.entry) result }
{
    let found = start(inst, w);
    match warm {
        None => found,
        Some(x) => Some(cheaper(inst, w, found, polished_list(inst, w, x))),
    }
}

/// A list in eighths, all 0 where there is none.
pub fn point_of(inst: &Instance, found: &Option<Lots>) -> Eighths
    requires { ForSome found.now (MeetsLimits inst.now) }
    ensures value { result ≡ eighths_from inst.now.market.assets found.now }
    ensures point { IsPoint inst.now result }
{
    match found {
        None => Eighths::zeros(inst.n()),
        Some(x) => Eighths::of(x),
    }
}

/// The best alpha at a point on the root, where the count can be met there, else 0.
fn alpha_at(bound: &MeanVariance<'_>, root: &Part, y: &Eighths) -> i128
    requires root { root.now ≡ root_of (setting_of bound.now) }
    requires point { IsPoint (setting_of bound.now).instance y.now }
    ensures { IsAlphaAt (setting_of bound.now) y.now result }
{
    if root.count_within(bound.held(), bound.held_most()) {
        best_alpha(bound, root, y, 0)
    } else {
        0
    }
}

/// The witness at a point with the best alpha on the root, where the count can be met there.
fn best_at(bound: &MeanVariance<'_>, y: Eighths) -> Witness
    requires { IsPoint (setting_of bound.now).instance y }
    ensures { IsBestAt (setting_of bound.now) y result }
{
    let alpha = alpha_at(bound, &bound.root(), &y);
    Witness { y, alpha, tau: 0 }
}

/// The leaf of the root from a point.
pub fn root_leaf<'a>(
    bound: &MeanVariance<'_>,
    y: Eighths,
    arena: &'a Bump,
) -> Result<Leaf<'a>, OutOfMemory>
    requires { IsPoint (setting_of bound.now).instance y }
    ensures { IfOk result (IsRootLeaf (setting_of bound.now) y) }
{
    let hint = best_at(bound, y);
    witness_for(bound, &bound.root(), &hint, arena)
}
