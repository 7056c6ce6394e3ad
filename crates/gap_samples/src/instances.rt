//! Small instances.

ghost use Rattle.std.specs.Prelude.{◌≡◌, ◌≤◌, None, replicate, IfOk};

use crate::markets::two_apart;
use gap_base::{Job, Lots, Market, OutOfMemory, Weights};
use gap_instance::Instance;
use std::alloc::Global;

/// The instance of a market of which `held.0` to `held.1` assets are held, with lots of which each has 1 to `greatest`;
/// none are held at present, and no turnover is set.
#[tactic(auto, using(gap_instance::proofs::LimitLaws::few_numbers))]
pub fn limited(
    alloc: Global,
    market: Market,
    held: (u16, u16),
    lots: u16,
    greatest: u16,
) -> Result<Instance, OutOfMemory>
    requires least { 1 ≤ held.0 }
    requires order { held.0 ≤ held.1 }
    requires most { held.1 ≤ market.assets }
    requires lots { lots ≤ 10000 }
    requires some { 1 ≤ greatest }
    requires within { greatest ≤ lots }
    ensures market { IfOk result (λ inst. inst.market ≡ market) }
    ensures lots { IfOk result (λ inst. inst.lots ≡ lots) }
    ensures held { IfOk result (λ inst. inst.held ≡ held.0) }
    ensures held_most { IfOk result (λ inst. inst.held_most ≡ held.1) }
    ensures least { IfOk result (λ inst. inst.least ≡ replicate market.assets 1) }
    ensures greatest { IfOk result (λ inst. inst.greatest ≡ replicate market.assets greatest) }
    ensures present { IfOk result (λ inst. inst.present ≡ replicate market.assets 0) }
    ensures turnover { IfOk result (λ inst. inst.turnover ≡ None) }
{
    let n = market.n();
    let job = Job {
        lots,
        held: held.0,
        held_most: held.1,
        least: Lots::filled(n, 1),
        greatest: Lots::filled(n, greatest),
        present: Lots::zeros(n),
        turnover: None,
        weights: Weights::new(),
        nodes: 0,
        workers: 1,
    };
    Instance::new(alloc, market, &job)
}

/// An instance of a market, for what its limits play no part in.
pub fn placed(alloc: Global, market: Market) -> Result<Instance, OutOfMemory>
    ensures { IfOk result (λ inst. inst.market ≡ market) }
{
    // there are two assets at least
    let _assets = market.n();
    limited(alloc, market, (1, 1), 1, 1)
}

/// Two assets with means .001 and .002, deviations .1 and .2 and no correlation, and 10 lots in `fewest` to 2 of them.
pub fn two_assets(alloc: Global, fewest: u16) -> Result<Instance, OutOfMemory>
    requires least { 1 ≤ fewest }
    requires most { fewest ≤ 2 }
    ensures assets { IfOk result (λ inst. inst.market.assets ≡ 2) }
    ensures lots { IfOk result (λ inst. inst.lots ≡ 10) }
    ensures held { IfOk result (λ inst. inst.held ≡ fewest) }
    ensures turnover { IfOk result (λ inst. inst.turnover ≡ None) }
{
    limited(alloc, two_apart(alloc)?, (fewest, 2), 10, 10)
}
