//! Weights of small markets, from their start to their end.

ghost use Rattle.std.specs.Prelude.{◌≡◌, ◌≤◌, IfOk};

use bumpalo::Bump;
use gap_base::{Job, Lots, Market, OutOfMemory, Weight, Weights};
use gap_instance::Instance;
use gap_model::{Best, Outcome};
use gap_psd::{Shift, dominant};
use gap_samples::{even, limited, two, two_apart};
use gap_solve::solve_one;
use gap_solved::Solved;
use std::alloc::Global;
use std::test::Fail;

/// The objectives of ten lots are told in this unit.
const UNIT: i128 = 10_000_000_000_000_000;

/// What a weight comes to: its splits, the objective of its portfolio with the lots of the first two assets, and the bound.
type End = (u32, Option<(i128, u16, u16)>, Option<i128>);

/// A portfolio, as it is told.
fn told(best: &Best) -> (i128, u16, u16) {
    // there are two assets at least
    let _assets = best.lots.len();
    (best.value, best.lots.get(0), best.lots.get(1))
}

/// What a weight comes to; a closed one has its objective as the bound.
fn end_of(solved: &Solved<'_>) -> End {
    let inner = solved.inner();
    match solved.outcome() {
        Outcome::Closed(best) => (inner, Some(told(best)), Some(best.value)),
        Outcome::NoPortfolio => (inner, None, None),
        Outcome::Bounded { best, bound } => (inner, best.as_ref().map(told), Some(*bound)),
    }
}

/// What a weight comes to whose objectives are in a unit, with its splits, its lots and its bound.
fn open(inner: u32, first: u16, second: u16, objective: i64, bound: i64) -> Option<End> {
    let best = (i128::from(objective) * UNIT, first, second);
    Some((inner, Some(best), Some(i128::from(bound) * UNIT)))
}

/// The same where the bound is the objective.
fn closed(inner: u32, first: u16, second: u16, objective: i64) -> Option<End> {
    open(inner, first, second, objective, objective)
}

/// The weight `w` of an instance from its start to its end; None where the shift isn't dominant.
fn ending(
    alloc: Global,
    inst: &Instance,
    shift: &Shift,
    w: (u8, u8),
    nodes: u32,
    workers: u8,
) -> Result<Option<End>, OutOfMemory>
    requires same { inst.now.market.assets ≡ shift.now.assets }
    requires p_most { w.0 ≤ w.1 }
    requires q_least { 1 ≤ w.1 }
    requires q_most { w.1 ≤ 100 }
    requires nodes { nodes ≤ 100000 }
    requires least_workers { 1 ≤ workers }
    requires most_workers { workers ≤ 16 }
{
    if dominant(inst, shift).is_some() {
        return Ok(None);
    }
    let arena = Bump::new(alloc);
    let w = Weight { p: w.0, q: w.1 };
    let solved = solve_one(alloc, inst, shift, w, nodes, workers, None, &arena)?;
    Ok(Some(end_of(&solved)))
}

/// Two assets of which both are held with ten lots, and whose present lots may not be turned over.
#[tactic(auto, using(gap_instance::proofs::LimitLaws::few_numbers))]
fn settled(alloc: Global, first: u16, second: u16) -> Result<Instance, OutOfMemory>
    requires first { first ≤ 10 }
    requires second { second ≤ 10 }
    ensures { IfOk result (λ inst. inst.market.assets ≡ 2) }
{
    let job = Job {
        lots: 10,
        held: 2,
        held_most: 2,
        least: two(1, 1),
        greatest: two(10, 10),
        present: two(first, second),
        turnover: Some(0),
        weights: Weights::new(),
        nodes: 0,
        workers: 1,
    };
    Instance::new(alloc, two_apart(alloc)?, &job)
}

/// A weight of a market without a shift, of which `held.0` to `held.1` assets are held with `lots.0` lots, 1 to `lots.1` each.
fn of_market(
    alloc: Global,
    market: Market,
    held: (u16, u16),
    lots: (u16, u16),
    w: (u8, u8),
    nodes: u32,
    workers: u8,
) -> Result<Option<End>, OutOfMemory>
    requires least { 1 ≤ held.0 }
    requires order { held.0 ≤ held.1 }
    requires most { held.1 ≤ market.assets }
    requires lots { lots.0 ≤ 10000 }
    requires some { 1 ≤ lots.1 }
    requires within { lots.1 ≤ lots.0 }
    requires p_most { w.0 ≤ w.1 }
    requires q_least { 1 ≤ w.1 }
    requires q_most { w.1 ≤ 100 }
    requires nodes { nodes ≤ 100000 }
    requires least_workers { 1 ≤ workers }
    requires most_workers { workers ≤ 16 }
{
    let n = market.n();
    let inst = limited(alloc, market, held, lots.0, lots.1)?;
    let shift = Shift::zero(alloc, n)?;
    ending(alloc, &inst, &shift, w, nodes, workers)
}

/// A weight of the two assets with ten lots, by one worker.
fn of_two(
    alloc: Global,
    held: (u16, u16),
    w: (u8, u8),
    nodes: u32,
) -> Result<Option<End>, OutOfMemory>
    requires least { 1 ≤ held.0 }
    requires order { held.0 ≤ held.1 }
    requires most { held.1 ≤ 2 }
    requires p_most { w.0 ≤ w.1 }
    requires q_least { 1 ≤ w.1 }
    requires q_most { w.1 ≤ 100 }
    requires nodes { nodes ≤ 100000 }
{
    of_market(alloc, two_apart(alloc)?, held, (10, 10), w, nodes, 1)
}

/// The weight 1/1 of the two assets whose present lots may not be turned over.
fn of_settled(alloc: Global, first: u16, second: u16) -> Result<Option<End>, OutOfMemory>
    requires first { first ≤ 10 }
    requires second { second ≤ 10 }
{
    let inst = settled(alloc, first, second)?;
    let shift = Shift::zero(alloc, 2)?;
    ending(alloc, &inst, &shift, (1, 1), 0, 1)
}

#[test]
fn weights_of_two_assets(rt: HostRuntime) -> Result<(), Fail> {
    let alloc = rt.alloc();
    assert_eq!(rt; of_two(alloc, (2, 2), (1, 1), 0)?, closed(0, 8, 2, 80));
    assert_eq!(rt; of_two(alloc, (1, 1), (1, 1), 100)?, closed(1, 10, 0, 100));
    assert_eq!(rt; of_two(alloc, (1, 1), (1, 1), 0)?, open(0, 10, 0, 100, 80));
    assert_eq!(rt; of_two(alloc, (1, 1), (0, 1), 0)?, closed(0, 0, 10, -20));
    assert_eq!(rt; of_two(alloc, (2, 2), (1, 2), 100)?, closed(3, 8, 2, 68));
    Ok(())
}

#[test]
fn a_held_range_of_two_assets(rt: HostRuntime) -> Result<(), Fail> {
    let alloc = rt.alloc();
    assert_eq!(rt; of_two(alloc, (1, 2), (1, 1), 0)?, open(0, 10, 0, 100, 80));
    assert_eq!(rt; of_two(alloc, (1, 2), (1, 1), 1)?, closed(1, 8, 2, 80));
    Ok(())
}

#[test]
fn an_open_weight_of_two_assets(rt: HostRuntime) -> Result<(), Fail> {
    let bound = Some(676_718_750_000_000_000);
    let best = Some((68 * UNIT, 8, 2));
    for nodes in 0..2u32 {
        let end = of_two(rt.alloc(), (2, 2), (1, 2), nodes)?;
        assert_eq!(rt; end, Some((nodes, best, bound)));
    }
    Ok(())
}

#[test]
fn sixteen_workers_end_as_one(rt: HostRuntime) -> Result<(), Fail> {
    let alloc = rt.alloc();
    let end = of_market(alloc, two_apart(alloc)?, (2, 2), (10, 10), (1, 2), 120, 16)?;
    assert_eq!(rt; end, closed(3, 8, 2, 68));
    Ok(())
}

#[test]
fn limits_that_no_list_meets(rt: HostRuntime) -> Result<(), Fail> {
    let alloc = rt.alloc();
    let none: Option<End> = Some((0, None, None));
    let few = of_market(alloc, two_apart(alloc)?, (2, 2), (1, 1), (1, 1), 0, 1)?;
    assert_eq!(rt; few, none);
    let low = of_market(alloc, two_apart(alloc)?, (2, 2), (10, 4), (1, 1), 1000, 1)?;
    assert_eq!(rt; low, none);
    assert_eq!(rt; of_settled(alloc, 8, 1)?, none);
    Ok(())
}

#[test]
fn present_lots_that_stay(rt: HostRuntime) -> Result<(), Fail> {
    assert_eq!(rt; of_settled(rt.alloc(), 5, 5)?, closed(0, 5, 5, 125));
    Ok(())
}

/// Two assets that aren't correlated, with means of .001 and deviations of some tenths.
fn level(alloc: Global, tenths: (u32, u32)) -> Result<Market, OutOfMemory>
    requires first { tenths.0 ≤ 10 }
    requires second { tenths.1 ≤ 10 }
    ensures { IfOk result (λ m. m.assets ≡ 2) }
{
    let mut market = Market::new(alloc, 2)?;
    market.set_mean(0, 1_000);
    market.set_mean(1, 1_000);
    market.set_dev(0, 100_000 * tenths.0);
    market.set_dev(1, 100_000 * tenths.1);
    Ok(market)
}

#[test]
fn a_tie_of_two_equal_assets(rt: HostRuntime) -> Result<(), Fail> {
    let alloc = rt.alloc();
    let end = of_market(
        alloc,
        level(alloc, (1, 1))?,
        (1, 1),
        (10, 10),
        (1, 1),
        100,
        1,
    )?;
    assert_eq!(rt; end, closed(1, 10, 0, 100));
    Ok(())
}

/// The weight 1/1 of a market of which one asset is held with ten lots, begun from a list that another weight gave; None
/// where it doesn't meet the limits.
fn warmed(alloc: Global, market: Market, x: &Lots) -> Result<Option<End>, OutOfMemory>
    requires { market.assets ≡ 2 }
{
    let inst = limited(alloc, market, (1, 1), 10, 10)?;
    let shift = Shift::zero(alloc, 2)?;
    if dominant(&inst, &shift).is_some() || inst.keeps(x).is_some() {
        return Ok(None);
    }
    let arena = Bump::new(alloc);
    let w = Weight { p: 1, q: 1 };
    let solved = solve_one(alloc, &inst, &shift, w, 10, 1, Some(x), &arena)?;
    Ok(Some(end_of(&solved)))
}

#[test]
fn a_weight_behind_another(rt: HostRuntime) -> Result<(), Fail> {
    let alloc = rt.alloc();
    let first = of_market(
        alloc,
        level(alloc, (2, 1))?,
        (1, 1),
        (10, 10),
        (0, 1),
        10,
        1,
    )?;
    assert_eq!(rt; first, closed(0, 10, 0, -10));
    let second = warmed(alloc, level(alloc, (2, 1))?, &two(10, 0))?;
    assert_eq!(rt; second, closed(1, 0, 10, 100));
    Ok(())
}

/// Three assets of which each falls where another rises, held with nine lots, under their least shift.
fn of_opposed(alloc: Global) -> Result<Option<End>, OutOfMemory> {
    let market = even(alloc, 3, 100_000, -1_000_000)?;
    let inst = limited(alloc, market, (3, 3), 9, 9)?;
    let mut shift = Shift::zero(alloc, 3)?;
    shift.set_d(0, UNIT);
    shift.set_d(1, UNIT);
    shift.set_d(2, UNIT);
    ending(alloc, &inst, &shift, (1, 1), 999, 1)
}

#[test]
fn three_assets_against_one_another(rt: HostRuntime) -> Result<(), Fail> {
    assert_eq!(rt; of_opposed(rt.alloc())?, closed(10, 3, 3, -27));
    Ok(())
}

/// Three assets that aren't correlated, of which the last is wild.
fn wild(alloc: Global) -> Result<Market, OutOfMemory>
    ensures { IfOk result (λ m. m.assets ≡ 3) }
{
    let mut market = Market::new(alloc, 3)?;
    market.set_mean(0, 1_000);
    market.set_mean(1, 2_000);
    market.set_dev(0, 100_000);
    market.set_dev(1, 200_000);
    market.set_dev(2, 1_000_000);
    Ok(market)
}

#[test]
fn the_better_two_of_three_assets(rt: HostRuntime) -> Result<(), Fail> {
    let alloc = rt.alloc();
    let bound = Some(611_718_750_000_000_000);
    let best = Some((68 * UNIT, 8, 2));
    for nodes in 0..2u32 {
        let end = of_market(alloc, wild(alloc)?, (2, 2), (10, 10), (1, 2), nodes, 1)?;
        assert_eq!(rt; end, Some((nodes, best, bound)));
    }
    Ok(())
}
