//! Small markets.

ghost use Rattle.std.specs.Prelude.{◌≡◌, ◌<◌, ◌≤◌, IfOk, unsigned_abs};

use gap_base::{Market, OutOfMemory};
use std::alloc::Global;

/// Gives an asset a deviation, and the same correlation with each asset before it.
fn set_row(market: &mut Market, i: u16, dev: u32, rho: i32)
    requires asset { i < market.old.assets }
    requires deviation { dev ≤ 1000000 }
    requires correlation { unsigned_abs rho ≤ 1000000 }
    ensures { market.new.assets ≡ market.old.assets }
{
    market.set_dev(i, dev);
    for j in 0..i {
        market.set_rho(i, j, rho);
    }
}

/// A market of `n` assets with means 0, the same deviation each and the same correlation of each two.
pub fn even(alloc: Global, n: u16, dev: u32, rho: i32) -> Result<Market, OutOfMemory>
    requires least { 2 ≤ n }
    requires most { n ≤ 256 }
    requires deviation { dev ≤ 1000000 }
    requires correlation { unsigned_abs rho ≤ 1000000 }
    ensures { IfOk result (λ market. market.assets ≡ n) }
{
    let mut market = Market::new(alloc, n)?;
    for i in 0..n {
        set_row(&mut market, i, dev, rho);
    }
    Ok(market)
}

/// A market of two assets with means .001 and .002, deviations .1 and .2 and no correlation.
pub fn two_apart(alloc: Global) -> Result<Market, OutOfMemory>
    ensures { IfOk result (λ market. market.assets ≡ 2) }
{
    let mut market = Market::new(alloc, 2)?;
    market.set_mean(0, 1_000);
    market.set_mean(1, 2_000);
    market.set_dev(0, 100_000);
    market.set_dev(1, 200_000);
    Ok(market)
}
