//! The market that a number generates.

ghost use Rattle.std.specs.Prelude.{◌≡◌, ◌+◌, ◌*◌, ◌<◌, ◌≤◌, ℕ, length, slice_index_or, IfOk};
ghost use Rattle.rand_pcg.specs.Lcg.{Lcg};
ghost use Rattle.gap_gen.specs.Demo.{IsGenerated};
ghost use Rattle.gap_gen.specs.Draws.{AreDrawn, IsAsset};

use crate::asset::{Asset, next_asset};
use crate::ties::tie;
use gap_base::{Market, OutOfMemory};
use rand_core::SeedableRng;
use rand_pcg::Lcg64Xsh32;
use std::alloc::Global;

/// Puts asset `i` behind those before it.
fn add_asset(market: &mut Market, loads: &mut Vec<u16>, i: u16, asset: Asset)
    requires asset_in { i < market.old.assets }
    requires places { length loads.old.items ≡ market.old.assets }
    requires small { (k : ℕ) → slice_index_or loads.old.items k 0 ≤ 900 }
    ensures { (g : Lcg) → (n : ℕ) → AreDrawn g n market.old loads.old.items i
        → IsAsset g i asset.load asset.mean asset.deviation → AreDrawn g n market.new loads.new.items (i + 1) }
{
    let _assets = market.n();
    loads[usize::from(i)] = asset.load;
    market.set_mean(i, asset.mean);
    market.set_dev(i, asset.deviation);
    tie(market, loads, i);
}

/// The market of `n` assets, 2 to 256, that a number generates: for each asset in order a load on one factor, a mean
/// return and a deviation are drawn, and the correlation of two assets is the product of their loads. Costs O(n * n),
/// also of memory. None of it varies from run to run.
#[tactic(auto, using(crate::proofs::DrawLaws::all_drawn))]
pub fn demo_market(alloc: Global, number: u64, n: u16) -> Result<Market, OutOfMemory>
    requires few { 2 ≤ n }
    requires many { n ≤ 256 }
    ensures { IfOk result (IsGenerated number n) }
{
    let mut market = Market::new(alloc, n)?;
    let mut loads = vec![in alloc; 0u16; usize::from(n)]?;
    let mut words = Lcg64Xsh32::seed_from_u64(number);
    for i in 0..n {
        let asset = next_asset(&mut words);
        add_asset(&mut market, &mut loads, i, asset);
    }
    Ok(market)
}
