//! The instance, the shift and the root of a whole head.

ghost use Rattle.std.specs.Prelude.{◌≡◌, ◌+◌, ◌*◌, ◌<◌, ◌≤◌, IfOk, IfErr, unsigned_abs, map};
ghost use Rattle.gap_base.specs.Markets.{rho_of};
ghost use Rattle.gap_base.specs.Sums.{at};
ghost use Rattle.gap_valid.specs.Steps.{IsSaidUpTo};
ghost use Rattle.gap_valid.specs.Heads.{pair_number, row_number, market_in, shift_in, IsHead};
ghost use Rattle.gap_judge.specs.Faults.{factor_place};
ghost use Rattle.gap_judge.specs.Steps.{IsShiftUpTo};
ghost use Rattle.gap_judge.specs.Stops.{IsBasisOf, IsShiftStop, IsJobOf};

use crate::basis::Basis;
use crate::fault::fault;
use crate::head::Head;
use crate::stop::CertStop;
use gap_base::{Job, Lots, Market, OutOfMemory, Weights};
use gap_box::Part;
use gap_instance::Instance;
use gap_model::CertKind;
use gap_psd::{Shift, dominant};
use std::alloc::Global;

/// The number of the pair `i < j` among the pairs of `n` assets.
#[tactic(auto, using(crate::proofs::PairLaws::pair_place))]
fn pair_place(n: u16, i: u16, j: u16) -> usize
    requires first { i < j }
    requires second { j < n }
    requires few { n ≤ 256 }
    ensures { result ≡ pair_number n i j }
{
    let n = usize::from(n);
    let i = usize::from(i);
    let j = usize::from(j);
    i * (2 * n - i - 1) / 2 + (j - i - 1)
}

/// The correlation of the assets `j < i`.
#[tactic(auto, using(crate::proofs::PairLaws::pair_there, gap_valid::proofs::HeadLaws::turned_rho, crate::proofs::BuiltLaws::rho_small))]
fn rho_between(head: &Head, i: u16, j: u16) -> i32
    requires head_is { IsHead head.now }
    requires first { j < i }
    requires second { i < head.now.n }
    ensures value { result ≡ rho_of (market_in head.now) i j }
    ensures small { unsigned_abs result ≤ 1000000 }
{
    head.correlation(pair_place(head.n(), j, i))
}

/// Says the correlations of asset `i` with each asset before it.
#[tactic(auto, using(gap_valid::proofs::Saying::said_row), unfolding(gap_valid::specs::Heads::market_in))]
fn say_pairs(market: &mut Market, head: &Head, i: u16)
    requires head_is { IsHead head.now }
    requires asset_in { i < head.now.n }
    requires before { IsSaidUpTo (market_in head.now) market.old (i + 1) i 0 }
    ensures { IsSaidUpTo (market_in head.now) market.new (i + 1) (i + 1) 0 }
{
    for j in 0..i {
        market.set_rho(i, j, rho_between(head, i, j));
    }
}

/// Says asset `i`, behind those before it.
#[tactic(auto, using(crate::proofs::BuiltLaws::line_there, crate::proofs::BuiltLaws::line_is), unfolding(gap_valid::specs::Heads::market_in))]
fn say_asset(market: &mut Market, head: &Head, i: u16)
    requires head_is { IsHead head.now }
    requires asset_in { i < head.now.n }
    requires before { IsSaidUpTo (market_in head.now) market.old i i 0 }
    ensures { IsSaidUpTo (market_in head.now) market.new (i + 1) (i + 1) 0 }
{
    let line = head.line(i);
    market.set_mean(i, line.mean);
    market.set_dev(i, line.dev);
    say_pairs(market, head, i);
}

/// The market of a head.
#[tactic(auto, using(gap_valid::proofs::Saying::said_start, gap_valid::proofs::Saying::said_whole, crate::proofs::BuiltLaws::market_said, gap_valid::proofs::HeadLaws::market_is), unfolding(gap_valid::specs::Heads::market_in))]
fn market_of(alloc: Global, head: &Head) -> Result<Market, OutOfMemory>
    requires { IsHead head.now }
    ensures { IfOk result (λ market. market ≡ market_in head.now) }
{
    let n = head.n();
    let mut market = Market::new(alloc, n)?;
    for i in 0..n {
        say_asset(&mut market, head, i);
    }
    Ok(market)
}

/// The least lots of the assets.
#[tactic(auto, using(crate::proofs::BuiltLaws::line_there, crate::proofs::BuiltLaws::lots_step, crate::proofs::BuiltLaws::list_is, crate::proofs::BuiltLaws::map_at))]
fn least_of(head: &Head) -> Lots
    requires { IsHead head.now }
    ensures { result ≡ map (λ a. a.least) head.now.assets }
{
    let n = head.n();
    let mut list = Lots::zeros(n);
    for i in 0..n {
        list.set(i, head.line(i).least);
    }
    list
}

/// The greatest lots of the assets.
#[tactic(auto, using(crate::proofs::BuiltLaws::line_there, crate::proofs::BuiltLaws::lots_step, crate::proofs::BuiltLaws::list_is, crate::proofs::BuiltLaws::map_at))]
fn greatest_of(head: &Head) -> Lots
    requires { IsHead head.now }
    ensures { result ≡ map (λ a. a.greatest) head.now.assets }
{
    let n = head.n();
    let mut list = Lots::zeros(n);
    for i in 0..n {
        list.set(i, head.line(i).greatest);
    }
    list
}

/// The present lots of the assets.
#[tactic(auto, using(crate::proofs::BuiltLaws::line_there, crate::proofs::BuiltLaws::lots_step, crate::proofs::BuiltLaws::list_is, crate::proofs::BuiltLaws::map_at))]
fn present_of(head: &Head) -> Lots
    requires { IsHead head.now }
    ensures { result ≡ map (λ a. a.present) head.now.assets }
{
    let n = head.n();
    let mut list = Lots::zeros(n);
    for i in 0..n {
        list.set(i, head.line(i).present);
    }
    list
}

/// The limits of a head, as a job without weights.
fn job_of(head: &Head) -> Job
    requires { IsHead head.now }
    ensures { IsJobOf head.now result }
{
    Job {
        lots: head.lots(),
        held: head.held(),
        held_most: head.held_most(),
        least: least_of(head),
        greatest: greatest_of(head),
        present: present_of(head),
        turnover: head.turnover(),
        weights: Weights::new(),
        nodes: 0,
        workers: 1,
    }
}

/// The number of the entry in row `i` and column `k` of a triangle.
#[tactic(auto, using(crate::proofs::PairLaws::row_place))]
fn row_place(i: u16, k: u16) -> usize
    requires column { k ≤ i }
    requires few { i < 256 }
    ensures { result ≡ row_number i k }
{
    let i = usize::from(i);
    i * (i + 1) / 2 + usize::from(k)
}

/// The entry in row `i` and column `k` of R.
#[tactic(auto, using(crate::proofs::PairLaws::row_there, crate::proofs::BuiltLaws::factor_small))]
fn entry_of(head: &Head, i: u16, k: u16) -> i64
    requires head_is { IsHead head.now }
    requires column { k ≤ i }
    requires row { i < head.now.n }
    ensures value { result ≡ at head.now.factor (row_number i k) }
    ensures small { unsigned_abs result ≤ 1000000000000000 }
{
    let _n = head.n();
    head.factor(row_place(i, k))
}

/// Sets row `i` of R.
#[tactic(auto, using(crate::proofs::BuiltLaws::shift_entry, crate::proofs::BuiltLaws::shift_row))]
fn set_row(shift: &mut Shift, head: &Head, i: u16)
    requires head_is { IsHead head.now }
    requires row { i < head.now.n }
    requires before { IsShiftUpTo head.now shift.old i 0 i }
    ensures { IsShiftUpTo head.now shift.new (i + 1) 0 i }
{
    for k in 0..i + 1 {
        shift.set_r(i, k, entry_of(head, i, k));
    }
}

/// The shift of a head.
#[tactic(auto, using(crate::proofs::BuiltLaws::shift_begun, crate::proofs::BuiltLaws::shift_diagonal, crate::proofs::BuiltLaws::shift_whole, crate::proofs::BuiltLaws::diagonal_is))]
fn shift_of(alloc: Global, head: &Head) -> Result<Shift, OutOfMemory>
    requires { IsHead head.now }
    ensures { IfOk result (λ shift. shift ≡ shift_in head.now) }
{
    let n = head.n();
    let mut shift = Shift::zero(alloc, n)?;
    for i in 0..n {
        set_row(&mut shift, head, i);
        shift.set_d(i, head.diagonal(i));
    }
    Ok(shift)
}

/// The instance, the shift and the root of a whole head, where the shift is dominant; else the first row that isn't.
#[tactic(auto, using(crate::proofs::BuiltLaws::instance_made, crate::proofs::BuiltLaws::limits_made), unfolding(gap_valid::specs::Heads::instance_in, gap_valid::specs::Heads::shift_in, gap_valid::specs::Heads::market_in))]
pub(crate) fn basis_of(alloc: Global, head: &Head, behind: u64) -> Result<Basis, CertStop>
    requires { IsHead head.now }
    ensures ok { IfOk result (λ basis. IsBasisOf head.now basis.instance basis.shift basis.root) }
    ensures fault { IfErr result (IsShiftStop head.now behind) }
{
    let market = market_of(alloc, head)?;
    let job = job_of(head);
    let instance = Instance::new(alloc, market, &job)?;
    let shift = shift_of(alloc, head)?;
    if let Some(row) = dominant(&instance, &shift) {
        return fault(factor_place(head.n(), behind), CertKind::Shift(row));
    }
    let root = Part::root(&job.least, &job.greatest);
    Ok(Basis {
        instance,
        shift,
        root,
    })
}

/// The number of the first byte of R, from the number of the byte behind D.
fn factor_place(n: u16, behind: u64) -> u64
    requires { n ≤ 256 }
    ensures { result ≡ factor_place n behind }
{
    let n = u64::from(n);
    behind.saturating_sub(16 * n + 4 * (n * (n + 1)))
}
