//! Tables by listing: the least of the ways to hold a number of cells in a range, the objectives of neighbours, and the
//! orders of assets.

ghost use Rattle.std.specs.Prelude.{◌≡◌, ◌≤◌, [], ◌∷◌, length, IfOk, IfSome};
ghost use Rattle.gap_base.specs.Sums.{AreWithin};
ghost use Rattle.gap_box.specs.Cells.{IsCell};
ghost use Rattle.gap_instance.specs.Instances.{AreBetween};
ghost use Rattle.gap_relax.specs.Choices.{most_cost};

use gap_base::{Job, Lots, Market, OutOfMemory, Weight, Weights};
use gap_box::{Cell, Part};
use gap_instance::{By, Instance};
use gap_objective::{Holding, value};
use gap_relax::least_within;
use std::alloc::Global;
use std::process::Abort;
use std::test::Fail;

/// A cell that is free, out, or must be held, by a digit.
fn cell_of(digit: u32) -> Cell
    ensures { IsCell result }
{
    match digit {
        1 => Cell::Out,
        2 => Cell::Held { l: 1, u: 1 },
        _ => Cell::Free { l: 1, u: 1 },
    }
}

/// A part of four cells, by the digits of its number to the base 3.
fn part_of(number: u32) -> Part
    ensures { length result ≡ 4 }
{
    let mut part = Part::root(&Lots::filled(4, 1), &Lots::filled(4, 1));
    let mut rest = number;
    for i in 0..4u16 {
        part.put(i, cell_of(rest % 3));
        rest /= 3;
    }
    part
}

/// Does a cell allow its asset to be held, or not?
fn allows(cell: Cell, holds: bool) -> bool {
    match cell {
        Cell::Out => !holds,
        Cell::Held { .. } => holds,
        Cell::Free { .. } => true,
    }
}

/// What a way to hold four cells costs; None where the part doesn't allow it.
fn cost_of_way(part: &Part, here: &[i128; 4], away: &[i128; 4], way: u32) -> Option<i128>
    requires { length part.now ≡ 4 }
{
    let mut sum: i128 = 0;
    for i in 0..4u16 {
        let holds = (way >> u32::from(i)) % 2 == 1;
        if !allows(part.cell(i), holds) {
            return None;
        }
        let place = usize::from(i);
        sum = sum.wrapping_add(if holds { here[place] } else { away[place] });
    }
    Some(sum)
}

/// The lesser of a number and one that may be there.
fn lesser(sum: i128, least: Option<i128>) -> Option<i128> {
    match least {
        Some(other) => Some(other.min(sum)),
        None => Some(sum),
    }
}

/// The least of the sums over all ways to hold from `fewest` to `most` cells, by going over the sixteen ways.
fn listed(part: &Part, here: &[i128; 4], away: &[i128; 4], fewest: u32, most: u32) -> Option<i128>
    requires { length part.now ≡ 4 }
{
    let mut least: Option<i128> = None;
    for way in 0..16u32 {
        let count = way.count_ones();
        if fewest <= count && count <= most {
            if let Some(sum) = cost_of_way(part, here, away, way) {
                least = lesser(sum, least);
            }
        }
    }
    least
}

/// Compares the least sums over every part and every range with those by listing.
fn compare(rt: &impl Abort, here: &[i128; 4], away: &[i128; 4])
    requires here { AreWithin most_cost here.now }
    requires away { AreWithin most_cost away.now }
{
    for number in 0..81u32 {
        let part = part_of(number);
        for fewest in 0..5u16 {
            for more in 0..5u16 {
                let most = fewest + more;
                let found = least_within(&part, here, away, fewest, most);
                let due = listed(&part, here, away, fewest.into(), most.into());
                assert_eq!(rt; found, due, "part {number}, {fewest} to {most}");
            }
        }
    }
}

#[test]
fn least_sums_over_ranges_of_held_cells(rt: HostRuntime) {
    compare(&rt, &[5, -3, 2, -3], &[0, 0, 0, 0]);
    compare(&rt, &[5, -3, 2, -3], &[4, -4, 2, 1]);
    compare(&rt, &[-1, -1, -1, -1], &[0, 0, 0, 0]);
    compare(&rt, &[7, 1, 3, 9], &[9, 9, 9, 9]);
}

/// The list of three numbers of at most 100; None where one is greater.
#[tactic(auto, using(gap_instance::proofs::LimitLaws::few_numbers))]
fn list_of(x: [u16; 3]) -> Option<Lots>
    ensures value { IfSome result (λ list. list ≡ x) }
    ensures between { IfSome result (λ list. AreBetween 3 0 10000 list) }
{
    if x[0] > 100 || x[1] > 100 || x[2] > 100 {
        return None;
    }
    let mut list = Lots::zeros(3);
    list.set(0, x[0]);
    list.set(1, x[1]);
    list.set(2, x[2]);
    Some(list)
}

/// The list of three numbers of 1 to 10; None where one isn't.
#[tactic(auto, using(gap_instance::proofs::LimitLaws::few_numbers))]
fn limits_of(x: [u16; 3]) -> Option<Lots>
    ensures { IfSome result (λ list. AreBetween 3 1 10 list) }
{
    if x[0] < 1 || x[1] < 1 || x[2] < 1 || x[0] > 10 || x[1] > 10 || x[2] > 10 {
        return None;
    }
    let mut list = Lots::zeros(3);
    list.set(0, x[0]);
    list.set(1, x[1]);
    list.set(2, x[2]);
    Some(list)
}

/// Three assets with means, deviations and correlations of both signs, with these limits and 10 lots in one to three.
#[tactic(auto, using(gap_instance::proofs::LimitLaws::few_numbers))]
fn instance(alloc: Global, least: Lots, greatest: Lots) -> Result<Instance, OutOfMemory>
    requires least { AreBetween 3 1 10 least }
    requires greatest { AreBetween 3 1 10 greatest }
    ensures { IfOk result (λ inst. inst.market.assets ≡ 3) }
{
    let mut market = Market::new(alloc, 3)?;
    market.set_mean(0, 1000);
    market.set_mean(1, -2000);
    market.set_mean(2, 500);
    market.set_dev(0, 100_000);
    market.set_dev(1, 200_000);
    market.set_dev(2, 70_000);
    market.set_rho(1, 0, 300_000);
    market.set_rho(2, 0, -450_000);
    market.set_rho(2, 1, 990_000);
    let job = Job {
        lots: 10,
        held: 1,
        held_most: 3,
        least,
        greatest,
        present: Lots::zeros(3),
        turnover: None,
        weights: Weights::new(),
        nodes: 0,
        workers: 1,
    };
    Instance::new(alloc, market, &job)
}

/// The objective after a move of some lots, as the holding tells it and by the list itself; None where there is no such
/// move.
fn moved(inst: &Instance, w: Weight, x: [u16; 3], i: u16, j: u16, lots: u16) -> Option<(i128, i128)>
    requires { inst.now.market.assets ≡ 3 }
{
    if i >= 3 || j >= 3 || i == j || x[usize::from(i)] < lots {
        return None;
    }
    if lots > 100 || x[usize::from(j)] > 100 {
        return None;
    }
    let before = list_of(x)?;
    let holding = Holding::new(inst, w, &before);
    let mut y = x;
    y[usize::from(i)] = x[usize::from(i)] - lots;
    y[usize::from(j)] = x[usize::from(j)] + lots;
    let after = list_of(y)?;
    Some((holding.moved_value(i, j, lots), value(inst, w, &after)))
}

/// The objective after an exchange, as the holding tells it and by the list itself; None where there is none.
fn exchanged(inst: &Instance, w: Weight, x: [u16; 3], i: u16, j: u16) -> Option<(i128, i128)>
    requires { inst.now.market.assets ≡ 3 }
{
    if i >= 3 || j >= 3 || i == j {
        return None;
    }
    let before = list_of(x)?;
    let holding = Holding::new(inst, w, &before);
    let mut y = x;
    y[usize::from(i)] = x[usize::from(j)];
    y[usize::from(j)] = x[usize::from(i)];
    let after = list_of(y)?;
    Some((holding.exchanged_value(i, j), value(inst, w, &after)))
}

/// How many moves of up to five lots there are at a list, and how many moves and exchanges are told another objective
/// than that of the list itself.
fn followed(inst: &Instance, w: Weight, x: [u16; 3], i: u16, j: u16) -> (u32, u32)
    requires { inst.now.market.assets ≡ 3 }
{
    let mut moves: u32 = 0;
    let mut wrong: u32 = 0;
    for lots in 0..6 {
        if let Some((told, due)) = moved(inst, w, x, i, j, lots) {
            moves = moves.wrapping_add(1);
            wrong = wrong.wrapping_add(u32::from(told != due));
        }
    }
    if let Some((told, due)) = exchanged(inst, w, x, i, j) {
        wrong = wrong.wrapping_add(u32::from(told != due));
    }
    (moves, wrong)
}

#[test]
fn objectives_of_neighbours(rt: HostRuntime) -> Result<(), Fail> {
    let one = limits_of([1, 1, 1]).ok_or("limits")?;
    let ten = limits_of([10, 10, 10]).ok_or("limits")?;
    let inst = instance(rt.alloc(), one, ten)?;
    let w = Weight { p: 3, q: 4 };
    let mut all: u32 = 0;
    for code in 0..216u16 {
        let x = [code % 6, code / 6 % 6, code / 36];
        for pair in 0..9 {
            let (moves, wrong) = followed(&inst, w, x, pair / 3, pair % 3);
            assert_eq!(rt; wrong, 0, "pair {pair} at {x:?}");
            all = all.wrapping_add(moves);
        }
    }
    assert_eq!(rt; all, 4536);
    Ok(())
}

/// Does an asset stand before another by rising numbers, the lower asset of equal ones first? All stand before one that
/// is none of the three.
fn is_before(numbers: &[i32; 3], j: u16, i: u16) -> bool {
    let (Some(one), Some(two)) = (numbers.get(usize::from(j)), numbers.get(usize::from(i))) else {
        return true;
    };
    (*one, j) < (*two, i)
}

/// How many assets stand before an asset by rising numbers.
fn standing(numbers: &[i32; 3], i: u16) -> u32 {
    let mut before: u32 = 0;
    for j in 0..3u16 {
        before = before.wrapping_add(u32::from(is_before(numbers, j, i)));
    }
    before
}

/// Do three assets stand in an order by rising numbers, the lower asset of equal ones first?
fn stands(inst: &Instance, by: By, numbers: [i32; 3]) -> bool {
    let order = inst.order(Weight { p: 1, q: 2 }, by);
    for place in 0..order.len() {
        if standing(&numbers, order.get(place)) != u32::from(place) {
            return false;
        }
    }
    order.len() == 3
}

#[test]
fn orders_with_equal_limits(rt: HostRuntime) -> Result<(), Fail> {
    for code in 0..27u16 {
        let x = [1 + code % 3, 1 + code / 3 % 3, 1 + code / 9];
        let numbers = [i32::from(x[0]), i32::from(x[1]), i32::from(x[2])];
        let falling = [-numbers[0], -numbers[1], -numbers[2]];
        let least = limits_of(x).ok_or("limits")?;
        let inst = instance(rt.alloc(), least, limits_of([3, 3, 3]).ok_or("limits")?)?;
        assert!(rt; stands(&inst, By::Least, numbers), "least {x:?}");
        let greatest = limits_of(x).ok_or("limits")?;
        let inst = instance(rt.alloc(), limits_of([1, 1, 1]).ok_or("limits")?, greatest)?;
        assert!(rt; stands(&inst, By::Greatest, falling), "greatest {x:?}");
    }
    Ok(())
}
