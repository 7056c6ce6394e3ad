//! The objective of a list that changes.

use gap_base::{OutOfMemory, Weight};
use gap_objective::{Holding, ret, risk, value};
use gap_samples::{two, two_assets};
use std::alloc::Global;
use std::test::Fail;

/// The objectives of the lots 8 and 2, with one of them moved, with none of the second, after this move, with the lots
/// exchanged and after the exchange; the lots then; and whether the holding reads back its weight and its instance.
#[tactic(auto, using(gap_instance::proofs::LimitLaws::few_numbers))]
fn followed(alloc: Global) -> Result<([i128; 6], (u16, u16), bool), OutOfMemory> {
    let inst = two_assets(alloc, 2)?;
    let mut holding = Holding::new(&inst, Weight { p: 1, q: 2 }, &two(8, 2));
    let begun = holding.value();
    let moved = holding.moved_value(0, 1, 1);
    let put = holding.put_value(1, 0);
    holding.move_lot(0, 1);
    let after = holding.value();
    let exchanged = holding.exchanged_value(0, 1);
    holding.exchange(0, 1);
    let last = holding.value();
    let lots = (holding.lots().get(0), holding.lots().get(1));
    let weight = holding.weight();
    let same = weight.p == 1 && weight.q == 2 && holding.instance().lots() == 10;
    Ok(([begun, moved, put, after, exchanged, last], lots, same))
}

#[test]
fn holding_follows_a_move_and_an_exchange(rt: HostRuntime) -> Result<(), Fail> {
    let (objectives, lots, same) = followed(rt.alloc())?;
    let due = [
        680_000_000_000_000_000,
        720_000_000_000_000_000,
        560_000_000_000_000_000,
        720_000_000_000_000_000,
        1_880_000_000_000_000_000,
        1_880_000_000_000_000_000,
    ];
    assert_eq!(rt; objectives, due);
    assert_eq!(rt; lots, (3, 7));
    assert!(rt; same);
    Ok(())
}

/// Risk and return of the lots 8 and 2, and their objectives for the weights 1/2 and 1/1.
#[tactic(auto, using(gap_instance::proofs::LimitLaws::few_numbers))]
fn of_eight_and_two(alloc: Global) -> Result<[i128; 4], OutOfMemory> {
    let inst = two_assets(alloc, 2)?;
    let x = two(8, 2);
    let half = value(&inst, Weight { p: 1, q: 2 }, &x);
    let whole = value(&inst, Weight { p: 1, q: 1 }, &x);
    Ok([risk(&inst, &x), ret(&inst, &x), half, whole])
}

#[test]
fn risk_return_and_objective_of_a_list(rt: HostRuntime) -> Result<(), Fail> {
    let due = [
        800_000_000_000_000_000,
        12_000,
        680_000_000_000_000_000,
        800_000_000_000_000_000,
    ];
    assert_eq!(rt; of_eight_and_two(rt.alloc())?, due);
    Ok(())
}
