//! A market said anew, as the head of a certificate says it.

ghost use Rattle.std.specs.Prelude.{◌≡◌, ◌+◌, ◌<◌, ◌≤◌, IfOk};
ghost use Rattle.gap_valid.specs.Said.{said_market};
ghost use Rattle.gap_valid.specs.Steps.{IsSaidUpTo};

use gap_base::{Market, OutOfMemory};
use std::alloc::Global;

/// Says the correlations of asset `i` with each asset before it.
fn say_pairs(said: &mut Market, market: &Market, i: u16)
    requires asset_in { i < market.now.assets }
    requires before { IsSaidUpTo market.now said.old (i + 1) i 0 }
    ensures { IsSaidUpTo market.now said.new (i + 1) (i + 1) 0 }
{
    for j in 0..i {
        said.set_rho(i, j, market.rho(i, j));
    }
}

/// Says asset `i`, behind those before it.
fn say_asset(said: &mut Market, market: &Market, i: u16)
    requires asset_in { i < market.now.assets }
    requires before { IsSaidUpTo market.now said.old i i 0 }
    ensures { IsSaidUpTo market.now said.new (i + 1) (i + 1) 0 }
{
    said.set_mean(i, market.mean(i));
    said.set_dev(i, market.dev(i));
    say_pairs(said, market, i);
}

/// The same market as the head of a certificate says it: each mean, each deviation and the correlation of each two assets
/// is the same, no numeral counts as rounded, and the table of correlations, as contracts see it, has 0 on its diagonal.
/// Costs O(N * N), which is also its memory.
pub fn said_anew(alloc: Global, market: &Market) -> Result<Market, OutOfMemory>
    ensures { IfOk result (λ said. said ≡ said_market market.now) }
{
    let mut said = Market::new(alloc, market.n())?;
    for i in 0..market.n() {
        say_asset(&mut said, market, i);
    }
    Ok(said)
}
