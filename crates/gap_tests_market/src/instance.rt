//! The answers of `keeps`, and what an instance reads back.

ghost use Rattle.std.specs.Prelude.{ℕ, ◌≤◌, IfSome};

use gap_base::{Job, Lots, Market, OutOfMemory, Weight, Weights};
use gap_instance::{Broken, By, Instance, Order};
use gap_samples::three;
use std::alloc::Global;
use std::test::Fail;

/// Three assets: 10 lots in `fewest` to 2 assets, least 2, 1 and 1, greatest 10, 9 and 4, and 5, 0 and 3 lots at present.
#[tactic(auto, using(gap_instance::proofs::LimitLaws::few_numbers))]
fn instance(alloc: Global, fewest: u16, turnover: Option<u32>) -> Result<Instance, OutOfMemory>
    requires least { 1 ≤ fewest }
    requires most { fewest ≤ 2 }
    requires turnover { IfSome turnover (λ t. t ≤ 3000000) }
{
    let job = Job {
        lots: 10,
        held: fewest,
        held_most: 2,
        least: three(2, 1, 1),
        greatest: three(10, 9, 4),
        present: three(5, 0, 3),
        turnover,
        weights: Weights::new(),
        nodes: 0,
        workers: 1,
    };
    Instance::new(alloc, Market::new(alloc, 3)?, &job)
}

/// The first limit that the list of three numbers breaks.
fn broken(inst: &Instance, a: u16, b: u16, c: u16) -> Option<Broken> {
    inst.keeps(&three(a, b, c))
}

/// Does the list have another length than the instance's?
fn has_another_length(inst: &Instance, list: &Lots) -> bool {
    matches!(inst.keeps(list), Some(Broken::Length))
}

#[test]
fn keeps_answers_the_first_broken_limit(rt: HostRuntime) -> Result<(), Fail> {
    let inst = instance(rt.alloc(), 2, None)?;
    for (a, b, c, due) in [
        (8, 2, 0, None),
        (8, 1, 0, Some(Broken::Lots)),
        (10, 0, 0, Some(Broken::Held)),
        (4, 4, 2, Some(Broken::Held)),
        (1, 9, 0, Some(Broken::Least(0))),
        (0, 5, 5, Some(Broken::Greatest(2))),
        // the earlier of two broken limits
        (9, 0, 0, Some(Broken::Lots)),
        (1, 0, 9, Some(Broken::Least(0))),
    ] {
        assert_eq!(rt; broken(&inst, a, b, c), due, "{a} {b} {c}");
    }
    assert!(rt; has_another_length(&inst, &Lots::zeros(4)));
    Ok(())
}

#[test]
fn a_range_of_held_numbers_takes_both_ends(rt: HostRuntime) -> Result<(), Fail> {
    let inst = instance(rt.alloc(), 1, None)?;
    assert_eq!(rt; (inst.held(), inst.held_most()), (1, 2));
    for (a, b, c, due) in [
        (10, 0, 0, None),
        (8, 2, 0, None),
        (5, 4, 1, Some(Broken::Held)),
        (0, 0, 10, Some(Broken::Greatest(2))),
    ] {
        assert_eq!(rt; broken(&inst, a, b, c), due, "{a} {b} {c}");
    }
    Ok(())
}

#[test]
fn the_turnover_counts_the_lots_of_assets_given_up(rt: HostRuntime) -> Result<(), Fail> {
    for (limit, due) in [(8, None), (7, Some(Broken::Turnover))] {
        let inst = instance(rt.alloc(), 2, Some(limit))?;
        assert_eq!(rt; broken(&inst, 8, 2, 0), due, "{limit}");
    }
    Ok(())
}

/// The assets of an order of at most three, and 9 for each that is missing.
fn assets(order: &Order) -> (u16, u16, u16) {
    let at = |k: u16| if k < order.len() { order.get(k) } else { 9 };
    (at(0), at(1), at(2))
}

/// Is the order by key empty?
fn has_none(inst: &Instance) -> bool {
    inst.order(Weight { p: 1, q: 2 }, By::Key).is_empty()
}

/// The assets of an order by key, for the weight p/2.
fn by_key(inst: &Instance, p: u8) -> (u16, u16, u16) {
    assets(&inst.order(Weight { p, q: 2 }, By::Key))
}

/// The assets of the orders by key, by least and by greatest, for the weight 1/2.
fn orders(inst: &Instance) -> [(u16, u16, u16); 3] {
    let w = Weight { p: 1, q: 2 };
    let least = assets(&inst.order(w, By::Least));
    [by_key(inst, 1), least, assets(&inst.order(w, By::Greatest))]
}

#[test]
fn orders_by_key_by_least_and_by_greatest(rt: HostRuntime) -> Result<(), Fail> {
    let inst = instance(rt.alloc(), 2, None)?;
    assert_eq!(rt; orders(&inst), [(0, 1, 2), (1, 2, 0), (0, 1, 2)]);
    let turning = instance(rt.alloc(), 2, Some(9))?;
    assert_eq!(rt; by_key(&turning, 1), (0, 2, 1));
    assert!(rt; !has_none(&turning));
    Ok(())
}

/// Three assets of which the last earns most: 10 lots in one or two, least 2 each, greatest 4, `second` and 6, and 3, 3 and
/// 0 lots at present.
#[tactic(auto, using(gap_instance::proofs::LimitLaws::few_numbers))]
fn tied(alloc: Global, second: u16, turnover: Option<u32>) -> Result<Instance, OutOfMemory>
    requires least { 1 ≤ second }
    requires most { second ≤ 10 }
    requires turnover { IfSome turnover (λ t. t ≤ 3000000) }
{
    let job = Job {
        lots: 10,
        held: 1,
        held_most: 2,
        least: three(2, 2, 2),
        greatest: three(4, second, 6),
        present: three(3, 3, 0),
        turnover,
        weights: Weights::new(),
        nodes: 0,
        workers: 1,
    };
    let mut market = Market::new(alloc, 3)?;
    market.set_mean(2, 5000);
    Instance::new(alloc, market, &job)
}

#[test]
fn ties_of_an_order_go_to_the_lower_asset(rt: HostRuntime) -> Result<(), Fail> {
    let inst = tied(rt.alloc(), 6, None)?;
    assert_eq!(rt; orders(&inst), [(2, 0, 1), (0, 1, 2), (1, 2, 0)]);
    let turning = tied(rt.alloc(), 6, Some(9))?;
    // for risk alone the means don't count
    assert_eq!(rt;
        [by_key(&turning, 1), by_key(&inst, 2)],
        [(0, 1, 2), (0, 1, 2)]
    );
    Ok(())
}

#[test]
fn an_order_leaves_out_what_cannot_be_held(rt: HostRuntime) -> Result<(), Fail> {
    let inst = tied(rt.alloc(), 1, None)?;
    assert_eq!(rt; orders(&inst), [(2, 0, 9), (0, 2, 9), (2, 0, 9)]);
    let turning = tied(rt.alloc(), 1, Some(9))?;
    assert_eq!(rt; by_key(&turning, 1), (0, 2, 9));
    Ok(())
}
