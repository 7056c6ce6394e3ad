//! The table of covariances of a market.

ghost use Rattle.std.specs.Prelude.{◌≡◌, ◌+◌, ◌*◌, ◌<◌, ◌≤◌, pos, ◌*ℤ◌, OnOk, IfOk, unsigned_abs};
ghost use Rattle.gap_base.specs.Markets.{MarketValue};
ghost use Rattle.gap_instance.specs.Objective.{cov_of};
ghost use Rattle.gap_instance.specs.Tables.{IsTable, IsTableBefore};

use gap_base::{Market, OutOfMemory};
use std::alloc::Global;

/// A correlation times the product of two deviations.
fn scaled(rho: i32, deviations: u64) -> i64
    requires rho { unsigned_abs rho ≤ 1000000 }
    requires deviations { deviations ≤ 1000000000000 }
    ensures value { result ≡ rho *ℤ pos deviations }
    ensures small { unsigned_abs result ≤ 1000000000000000000 }
{
    i64::from(rho) * deviations as i64
}

/// The covariance of assets `i` and `j` of a market, in units of 10^-18.
#[tactic(auto, unfolding(crate::specs::Objective::cov_of))]
fn covariance(market: &Market, i: u16, j: u16) -> i64
    requires row { i < market.now.assets }
    requires column { j < market.now.assets }
    ensures { result ≡ cov_of market.now i j }
{
    scaled(
        market.rho(i, j),
        u64::from(market.dev(i)) * u64::from(market.dev(j)),
    )
}

/// Appends row `i` to the table of the rows before it.
#[tactic(auto, using(crate::proofs::TableLaws::table_steps))]
fn push_row(table: &mut Vec<i64>, market: &Market, i: u16) -> Result<(), OutOfMemory>
    requires row { i < market.now.assets }
    requires before { IsTableBefore market.now (i * market.now.assets) table.old.items }
    ensures { OnOk result (IsTableBefore market.now ((i + 1) * market.now.assets) table.new.items) }
{
    for j in 0..market.n() {
        table.push(covariance(market, i, j))?;
    }
    Ok(())
}

/// The covariances of all pairs of assets, row by row. Costs O(N * N), which is also its memory.
#[tactic(auto, using(crate::proofs::TableLaws::table_steps))]
pub fn table_of(alloc: Global, market: &Market) -> Result<Vec<i64>, OutOfMemory>
    ensures { IfOk result (λ table. IsTable market.now table.items) }
{
    let count = usize::from(market.n());
    let mut table = Vec::with_capacity(alloc, count * count)?;
    for i in 0..market.n() {
        push_row(&mut table, market, i)?;
    }
    Ok(table)
}
