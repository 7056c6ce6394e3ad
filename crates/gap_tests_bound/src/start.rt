//! Starts and polished lists of small instances.

ghost use Rattle.std.specs.Prelude.{◌≡◌, ◌≤◌, IfOk, IfSome, length};

use gap_base::{Eighths, Job, Lots, OutOfMemory, Weight, Weights};
use gap_box::{Part, Side, Split};
use gap_instance::Instance;
use gap_objective::Holding;
use gap_samples::{even, three, two, two_assets};
use gap_start::{polish, polished, rounded, rounding_of, start};
use std::alloc::Global;
use std::test::Fail;

/// The two numbers of the list to which `x` is polished under the weight 1/q; 0 and 0 where it breaks a limit.
#[tactic(auto, using(gap_instance::proofs::LimitLaws::few_numbers))]
fn after_polish(alloc: Global, q: u8, x: (u16, u16)) -> Result<(u16, u16), OutOfMemory>
    requires first { x.0 ≤ 10000 }
    requires second { x.1 ≤ 10000 }
{
    let inst = two_assets(alloc, 1)?;
    let mut holding = Holding::new(&inst, Weight { p: 1, q }, &two(x.0, x.1));
    if inst.keeps(holding.lots()).is_some() {
        return Ok((0, 0));
    }
    polish(&mut holding);
    let list = holding.lots();
    if list.len() < 2 {
        return Ok((0, 0));
    }
    Ok((list.get(0), list.get(1)))
}

#[test]
fn no_lot_goes_to_an_asset_that_is_not_held(rt: HostRuntime) -> Result<(), Fail> {
    assert_eq!(rt; after_polish(rt.alloc(), 1, (10, 0))?, (10, 0));
    assert_eq!(rt; after_polish(rt.alloc(), 1, (0, 10))?, (10, 0));
    Ok(())
}

#[test]
fn lots_move_to_the_best_of_two_held(rt: HostRuntime) -> Result<(), Fail> {
    assert_eq!(rt; after_polish(rt.alloc(), 2, (3, 7))?, (8, 2));
    assert_eq!(rt; after_polish(rt.alloc(), 1, (9, 1))?, (8, 2));
    Ok(())
}

/// The two numbers of the start with at least `fewest` assets under the weight 1/q; 0 and 0 where there is none.
fn started(alloc: Global, fewest: u16, q: u8) -> Result<(u16, u16), OutOfMemory>
    requires least { 1 ≤ fewest }
    requires most { fewest ≤ 2 }
{
    let inst = two_assets(alloc, fewest)?;
    match start(&inst, Weight { p: 1, q }) {
        Some(list) => {
            if list.len() < 2 {
                return Ok((0, 0));
            }
            Ok((list.get(0), list.get(1)))
        }
        None => Ok((0, 0)),
    }
}

#[test]
fn a_start_holds_two_assets_or_one(rt: HostRuntime) -> Result<(), Fail> {
    assert_eq!(rt; started(rt.alloc(), 2, 2)?, (8, 2));
    assert_eq!(rt; started(rt.alloc(), 1, 1)?, (10, 0));
    Ok(())
}

/// The first two numbers of a list.
fn pair(list: &Lots) -> (u16, u16) {
    let _assets = list.len();
    (list.get(0), list.get(1))
}

/// The list to which a point is rounded where one or two of two assets are held, the list to which this is polished, and
/// that to which 3 and 8 lots are.
#[tactic(auto, using(gap_instance::proofs::LimitLaws::few_numbers))]
fn rounded_at(
    alloc: Global,
    y: (u32, u32),
) -> Result<((u16, u16), [Option<(u16, u16)>; 2]), OutOfMemory> {
    let inst = two_assets(alloc, 1)?;
    let w = Weight { p: 1, q: 2 };
    let part = Part::root(&two(1, 1), &two(10, 10));
    let mut point = Eighths::zeros(2);
    point.set(0, y.0);
    point.set(1, y.1);
    let list = rounding_of(&inst, w, &part, &point);
    let first = polished(&inst, w, &list).map(|x| pair(&x));
    let second = polished(&inst, w, &two(3, 8)).map(|x| pair(&x));
    Ok((pair(&list), [first, second]))
}

#[test]
fn a_point_is_rounded_before_it_is_polished(rt: HostRuntime) -> Result<(), Fail> {
    let (list, lists) = rounded_at(rt.alloc(), (24, 56))?;
    assert_eq!(rt; list, (3, 7));
    assert_eq!(rt; lists, [Some((8, 2)), None]);
    Ok(())
}

/// Three assets with means 0, deviations .1 and no correlation, and 10 lots in `fewest` to `most` of them.
#[tactic(auto, using(gap_instance::proofs::LimitLaws::few_numbers))]
fn alike(
    alloc: Global,
    fewest: u16,
    most: u16,
    present: (u16, u16, u16),
    turnover: Option<u32>,
) -> Result<Instance, OutOfMemory>
    requires least { 1 ≤ fewest }
    requires range { fewest ≤ most }
    requires most { most ≤ 3 }
    requires first { present.0 ≤ 10000 }
    requires second { present.1 ≤ 10000 }
    requires third { present.2 ≤ 10000 }
    requires turnover { IfSome turnover (λ t. t ≤ 3000000) }
    ensures { IfOk result (λ inst. inst.market.assets ≡ 3) }
{
    let market = even(alloc, 3, 100_000, 0)?;
    let job = Job {
        lots: 10,
        held: fewest,
        held_most: most,
        least: three(1, 1, 1),
        greatest: three(9, 9, 9),
        present: three(present.0, present.1, present.2),
        turnover,
        weights: Weights::new(),
        nodes: 0,
        workers: 1,
    };
    Instance::new(alloc, market, &job)
}

/// The part of three assets that may each be held.
fn whole() -> Part
    ensures { length result ≡ 3 }
{
    Part::root(&three(1, 1, 1), &three(9, 9, 9))
}

/// A child of a part of three assets, where the split is lawful.
fn child(part: &Part, split: Split, side: Side) -> Part
    requires { length part.now ≡ 3 }
    ensures { length result ≡ 3 }
{
    if part.lawful(split) {
        part.child(split, side)
    } else {
        part.copy()
    }
}

/// The three numbers of the list to which eighths are rounded under the weight 1/1; 0, 0 and 0 where there is none.
fn numbers(inst: &Instance, part: &Part, a: u32, b: u32, c: u32) -> (u16, u16, u16)
    requires instance { inst.now.market.assets ≡ 3 }
    requires part { length part.now ≡ 3 }
{
    let mut y = Eighths::zeros(3);
    y.set(0, a);
    y.set(1, b);
    y.set(2, c);
    match rounded(inst, Weight { p: 1, q: 1 }, part, &y) {
        Some(list) => {
            if list.len() < 3 {
                return (0, 0, 0);
            }
            (list.get(0), list.get(1), list.get(2))
        }
        None => (0, 0, 0),
    }
}

/// The same where `fewest` to `most` of three assets are held, without a turnover limit; 0, 0 and 0 for another range than
/// one within 1 to 3.
fn numbers_of_some(
    alloc: Global,
    fewest: u16,
    most: u16,
    y: [u32; 3],
) -> Result<(u16, u16, u16), OutOfMemory> {
    if fewest < 1 || most < fewest || 3 < most {
        return Ok((0, 0, 0));
    }
    let inst = alike(alloc, fewest, most, (0, 0, 0), None)?;
    Ok(numbers(&inst, &whole(), y[0], y[1], y[2]))
}

#[test]
fn the_assets_with_the_most_eighths_are_held(rt: HostRuntime) -> Result<(), Fail> {
    for (fewest, most, y, due) in [
        (2, 2, [8, 40, 24], (0, 5, 5)),
        (2, 2, [16, 24, 16], (5, 5, 0)),
        (1, 3, [8, 40, 24], (3, 4, 3)),
        (1, 3, [8, 40, 0], (5, 5, 0)),
        (2, 3, [0, 40, 0], (5, 5, 0)),
        // one asset has at most 9 lots
        (1, 3, [0, 40, 0], (0, 0, 0)),
    ] {
        assert_eq!(rt; numbers_of_some(rt.alloc(), fewest, most, y)?, due, "{y:?}");
    }
    Ok(())
}

#[test]
fn the_cells_of_the_part_come_first(rt: HostRuntime) -> Result<(), Fail> {
    let inst = alike(rt.alloc(), 2, 2, (0, 0, 0), None)?;
    let held = child(&whole(), Split::Held(2), Side::Second);
    assert_eq!(rt; numbers(&inst, &held, 16, 24, 0), (0, 5, 5));
    let out = child(&whole(), Split::Held(1), Side::First);
    assert_eq!(rt; numbers(&inst, &out, 8, 40, 24), (5, 0, 5));
    Ok(())
}

/// The same where two of three assets are held, with a turnover limit from these present lots.
fn numbers_within(
    alloc: Global,
    present: [u8; 3],
    turnover: u8,
    y: [u32; 3],
) -> Result<(u16, u16, u16), OutOfMemory> {
    let lots = (present[0].into(), present[1].into(), present[2].into());
    let inst = alike(alloc, 2, 2, lots, Some(turnover.into()))?;
    Ok(numbers(&inst, &whole(), y[0], y[1], y[2]))
}

#[test]
fn a_turnover_limit_leads_to_the_present_lots(rt: HostRuntime) -> Result<(), Fail> {
    for (present, turnover, y, due) in [
        ([0, 9, 1], 6, [0, 32, 32], (0, 6, 4)),
        ([0, 9, 1], 5, [0, 32, 32], (0, 0, 0)),
        ([0, 8, 2], 0, [0, 64, 32], (0, 8, 2)),
        ([9, 1, 0], 0, [0, 40, 24], (0, 0, 0)),
    ] {
        assert_eq!(rt;
            numbers_within(rt.alloc(), present, turnover, y)?,
            due,
            "{y:?}"
        );
    }
    Ok(())
}
