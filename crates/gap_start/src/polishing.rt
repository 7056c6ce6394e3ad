//! A list that has no better neighbour.

ghost use Rattle.std.specs.Prelude.{◌≡◌, ℕ, ◌<◌, ◌≤◌, IsTrue, IsFalse, ◌≤ℤ◌, ◌<ℤ◌};
ghost use Rattle.gap_instance.specs.Limits.{MeetsLimits};
ghost use Rattle.gap_instance.specs.Neighbours.{HasNoBetterNeighbour};
ghost use Rattle.gap_instance.specs.Objective.{objective};
ghost use Rattle.gap_start.specs.Steps.{height};

use crate::step::{Kind, best_step};
use gap_objective::Holding;

/// Goes from the list of a holding, which meets the limits, from neighbour to neighbour until none that meets the limits
/// has a smaller objective: each time to the one with the least. Costs O(K * N) a step and takes no memory.
pub fn polish(h: &mut Holding<'_>)
    requires { MeetsLimits h.old.instance h.old.lots }
    ensures instance { h.new.instance ≡ h.old.instance }
    ensures weight { h.new.weight ≡ h.old.weight }
    ensures meets { MeetsLimits h.new.instance h.new.lots }
    ensures better { objective h.old.instance h.old.weight.p h.old.weight.q h.new.lots
        ≤ℤ objective h.old.instance h.old.weight.p h.old.weight.q h.old.lots }
    ensures best { HasNoBetterNeighbour h.new.instance h.new.weight.p h.new.weight.q h.new.lots }
{
    let mut going = true;
    while going {
        going = improved(h);
    }
}

/// Goes to the best neighbour that meets the limits, if one is better.
fn improved(h: &mut Holding<'_>) -> bool
    requires { MeetsLimits h.old.instance h.old.lots }
    ensures instance { h.new.instance ≡ h.old.instance }
    ensures weight { h.new.weight ≡ h.old.weight }
    ensures meets { MeetsLimits h.new.instance h.new.lots }
    ensures better { IsTrue result
        → objective h.old.instance h.old.weight.p h.old.weight.q h.new.lots
        <ℤ objective h.old.instance h.old.weight.p h.old.weight.q h.old.lots }
    ensures lower { IsTrue result
        → height h.old.instance h.old.weight.p h.old.weight.q h.new.lots
        < height h.old.instance h.old.weight.p h.old.weight.q h.old.lots }
    ensures stays { IsFalse result → h.new ≡ h.old }
    ensures best { IsFalse result → HasNoBetterNeighbour h.old.instance h.old.weight.p h.old.weight.q h.old.lots }
{
    let before = h.value();
    match best_step(h).step {
        Some(step) => {
            match step.kind {
                Kind::Move => h.move_lot(step.from, step.to),
                Kind::Replace => h.exchange(step.from, step.to),
            }
            h.value() < before
        }
        None => false,
    }
}
