//! One weight.

ghost use Rattle.std.specs.Prelude.{◌≡◌, ◌≤◌, IfOk};
ghost use Rattle.std.specs.Option.{ForSome, option_copied};
ghost use Rattle.gap_instance.specs.Limits.{MeetsLimits};
ghost use Rattle.gap_instance.specs.Objective.{cov_of};
ghost use Rattle.gap_psd.specs.Shifts.{IsDominantShift};
ghost use Rattle.gap_solve.specs.Solving.{IsSolved};

use crate::begin::first_list;
use crate::ending::finished;
use crate::searching::searched;
use bumpalo::Bump;
use gap_base::{Lots, OutOfMemory, Weight};
use gap_instance::Instance;
use gap_psd::Shift;
use gap_solved::Solved;
use gap_tangent::MeanVariance;
use std::alloc::Global;

/// Solves one weight: searches for the best portfolio with a budget of splits, by 1 to 16 workers, and answers what is
/// known of it in the end, with the tree that shows it. `warm` is a list that meets the limits, as the portfolio of the
/// weight before. It takes memory for twice as many nodes as splits; the leaves' entries are placed in the arena. Err comes
/// where memory is refused.
pub fn solve_one<'a>(
    alloc: Global,
    inst: &Instance,
    shift: &Shift,
    w: Weight,
    nodes: u32,
    workers: u8,
    warm: Option<&Lots>,
    arena: &'a Bump,
) -> Result<Solved<'a>, OutOfMemory>
    requires same { inst.now.market.assets ≡ shift.now.assets }
    requires dominant { IsDominantShift (cov_of inst.now.market) shift.now }
    requires p_most { w.p ≤ w.q }
    requires q_least { 1 ≤ w.q }
    requires q_most { w.q ≤ 100 }
    requires nodes { nodes ≤ 100000 }
    requires least_workers { 1 ≤ workers }
    requires most_workers { workers ≤ 16 }
    requires warm { ForSome (option_copied warm) (MeetsLimits inst.now) }
    ensures { IfOk result (IsSolved inst.now shift.now w nodes (option_copied warm.entry)) }
{
    let found = first_list(inst, w, warm);
    let bound = MeanVariance::new(inst, shift, w);
    let search = searched(alloc, bound, nodes, workers, &found, arena)?;
    finished(search, arena)
}
