//! The search of a weight.

ghost use Rattle.std.specs.Prelude.{◌≡◌, ◌≤◌, IfOk};
ghost use Rattle.std.specs.Option.{ForSome};
ghost use Rattle.gap_instance.specs.Limits.{MeetsLimits};
ghost use Rattle.gap_tangent.specs.Seen.{setting_of};
ghost use Rattle.gap_solve.specs.Searching.{IsRun};

use crate::begin::{point_of, root_leaf};
use bumpalo::Bump;
use gap_base::{Lots, OutOfMemory};
use gap_guide::Steering;
use gap_search::{Search, drive};
use gap_tangent::MeanVariance;
use std::alloc::Global;

/// A search that was driven to its end from a list that was found before, if there is one.
pub fn searched<'a, 'm>(
    alloc: Global,
    bound: MeanVariance<'m>,
    nodes: u32,
    workers: u8,
    found: &Option<Lots>,
    arena: &'a Bump,
) -> Result<Search<'a, MeanVariance<'m>>, OutOfMemory>
    requires nodes { nodes ≤ 100000 }
    requires least_workers { 1 ≤ workers }
    requires most_workers { workers ≤ 16 }
    requires meets { ForSome found.now (MeetsLimits (setting_of bound).instance) }
    ensures bound { IfOk result (λ s. s.bound ≡ bound.entry) }
    ensures run { IfOk result (λ s. IsRun (setting_of bound.entry) nodes found.now s.board) }
{
    let leaf = root_leaf(&bound, point_of(bound.instance(), found), arena)?;
    let mut search = Search::new(alloc, bound, nodes, workers, leaf, found.as_ref())?;
    let mut guide = Steering::new(alloc, arena);
    drive(&mut search, &mut guide)?;
    Ok(search)
}
