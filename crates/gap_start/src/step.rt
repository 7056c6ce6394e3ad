//! The steps from a list to its neighbours, and the best of them.

ghost use Rattle.std.specs.Prelude.{◌≡◌, ◌≢◌, ℕ, ◌+◌, ◌-◌, ◌*◌, ◌<◌, ◌≤◌, ◌↔◌, length, slice_index_or, slice_set, IsTrue, IsFalse, IfSome, pos, ◌≤ℤ◌, ◌<ℤ◌};
ghost use Rattle.gap_instance.specs.Instances.{IsInstance, AreBetween};
ghost use Rattle.gap_instance.specs.Limits.{MeetsLimits, held_of, turnover_of};
ghost use Rattle.gap_instance.specs.Objective.{objective};
ghost use Rattle.gap_start.specs.Places.{AreAll, IsGiver, IsTaker, IsSteepest};
ghost use Rattle.gap_start.specs.Steps.{CanStep, stepped, HasRoom, NoneBelow, NoneBelowFrom, NoneBelowKind, IsFound};

use crate::places::{Places, givers, steepest, takers};
use gap_objective::Holding;

/// How a neighbour of a list comes from it.
#[derive(Clone, Copy, PartialEq, Eq, Debug)]
pub enum Kind {
    /// One lot goes from a held asset to another.
    Move,
    /// A held asset is replaced by one that isn't held, with the same lots.
    Replace,
}

/// A step to a neighbour: the giver and the taker.
#[derive(Clone, Copy, PartialEq, Eq, Debug)]
pub struct Step {
    pub kind: Kind,
    pub from: u16,
    pub to: u16,
}

/// The best step so far, and the objective after it; the objective of the list where there is none.
#[derive(Clone, Copy)]
pub struct Found {
    pub value: i128,
    pub step: Option<Step>,
}

/// The step to the neighbour with the least objective among those that meet the limits and are better than the list:
/// of equal ones moves come before replacements, then the lower giver, then the lower taker. Costs O(N), O(1) for each
/// pair of a held asset and an asset whose slope is below the greatest of the held ones.
pub fn best_step(h: &Holding<'_>) -> Found
    requires { MeetsLimits h.now.instance h.now.lots }
    ensures found { IsFound h.now.instance h.now.weight.p h.now.weight.q h.now.lots result }
    ensures moves { NoneBelowKind h.now.instance h.now.weight.p h.now.weight.q h.now.lots result.value Kind.Move }
    ensures replacements { NoneBelowKind h.now.instance h.now.weight.p h.now.weight.q h.now.lots result.value Kind.Replace }
    ensures instance { IsInstance h.now.instance }
{
    let none = Found {
        value: h.value(),
        step: None,
    };
    let givers = givers(h);
    let top = steepest(h, &givers);
    let moved = best_of(h, Kind::Move, &givers, top, none);
    best_of(h, Kind::Replace, &givers, top, moved)
}

/// The best step of one kind, where none was found that is as good: from the assets that are held, of which asset `top`
/// has the greatest slope.
fn best_of(h: &Holding<'_>, kind: Kind, givers: &Places, top: u16, before: Found) -> Found
    requires meets { MeetsLimits h.now.instance h.now.lots }
    requires givers { AreAll (IsGiver h.now.lots) h.now.instance.market.assets h.now.instance.market.assets
        givers.now.numbers givers.now.count }
    requires inside { top < h.now.instance.market.assets }
    requires steepest { IsSteepest h.now.instance h.now.weight.p h.now.weight.q h.now.lots top }
    requires before { IsFound h.now.instance h.now.weight.p h.now.weight.q h.now.lots before }
    ensures found { IsFound h.now.instance h.now.weight.p h.now.weight.q h.now.lots result }
    ensures better { result.value ≤ℤ before.value }
    ensures none { NoneBelowKind h.now.instance h.now.weight.p h.now.weight.q h.now.lots result.value kind }
    ensures instance { IsInstance h.now.instance }
{
    let takers = takers(h, kind, top);
    let mut found = before;
    for k in 0..givers.count {
        found = best_from(h, kind, givers.numbers.get(k), top, &takers, found);
    }
    found
}

/// The best step of one kind from asset `i`, where none was found that is as good: to the assets at which the slope is
/// below the one at asset `top`.
fn best_from(h: &Holding<'_>, kind: Kind, i: u16, top: u16, takers: &Places, before: Found) -> Found
    requires meets { MeetsLimits h.now.instance h.now.lots }
    requires giver { i < h.now.instance.market.assets }
    requires steepest { IsSteepest h.now.instance h.now.weight.p h.now.weight.q h.now.lots top }
    requires takers { AreAll (IsTaker h.now.instance h.now.weight.p h.now.weight.q h.now.lots kind top)
        h.now.instance.market.assets h.now.instance.market.assets takers.now.numbers takers.now.count }
    requires before { IsFound h.now.instance h.now.weight.p h.now.weight.q h.now.lots before }
    ensures found { IsFound h.now.instance h.now.weight.p h.now.weight.q h.now.lots result }
    ensures better { result.value ≤ℤ before.value }
    ensures none { NoneBelowFrom h.now.instance h.now.weight.p h.now.weight.q h.now.lots result.value kind i
        h.now.instance.market.assets }
{
    let _lots = h.lots();
    let mut found = before;
    for k in 0..takers.count {
        found = better_of(h, kind, i, takers.numbers.get(k), found);
    }
    found
}

/// The better one of a step and of what was found before. Costs O(1) where the objective can't fall by it.
fn better_of(h: &Holding<'_>, kind: Kind, i: u16, j: u16, before: Found) -> Found
    requires meets { MeetsLimits h.now.instance h.now.lots }
    requires giver { i < h.now.instance.market.assets }
    requires taker { j < h.now.instance.market.assets }
    requires before { IsFound h.now.instance h.now.weight.p h.now.weight.q h.now.lots before }
    ensures found { IsFound h.now.instance h.now.weight.p h.now.weight.q h.now.lots result }
    ensures better { result.value ≤ℤ before.value }
    ensures none { NoneBelow h.now.instance h.now.weight.p h.now.weight.q h.now.lots result.value kind i j }
{
    if h.may_fall(i, j) {
        better_by_value(h, kind, i, j, before)
    } else {
        before
    }
}

/// The better one of a step and of what was found before, by the objective after it.
fn better_by_value(h: &Holding<'_>, kind: Kind, i: u16, j: u16, before: Found) -> Found
    requires meets { MeetsLimits h.now.instance h.now.lots }
    requires giver { i < h.now.instance.market.assets }
    requires taker { j < h.now.instance.market.assets }
    requires before { IsFound h.now.instance h.now.weight.p h.now.weight.q h.now.lots before }
    ensures found { IsFound h.now.instance h.now.weight.p h.now.weight.q h.now.lots result }
    ensures better { result.value ≤ℤ before.value }
    ensures none { NoneBelow h.now.instance h.now.weight.p h.now.weight.q h.now.lots result.value kind i j }
{
    let _lots = h.lots();
    if !has_room(h, kind, i, j) {
        return before;
    }
    let value = value_after(h, kind, i, j);
    if value < before.value && keeps_turnover(h, kind, i, j) {
        let step = Some(Step {
            kind,
            from: i,
            to: j,
        });
        return Found { value, step };
    }
    before
}

/// Is this a step, does the taker have room for what it gets, and may the giver keep what it has left? Costs O(1).
fn has_room(h: &Holding<'_>, kind: Kind, i: u16, j: u16) -> bool
    requires giver { i < h.now.instance.market.assets }
    requires taker { j < h.now.instance.market.assets }
    ensures { IsTrue result ↔ HasRoom h.now.instance h.now.lots kind i j }
{
    let inst = h.instance();
    let given = h.lots().get(i);
    let taken = h.lots().get(j);
    match kind {
        Kind::Move => {
            let fits = i != j && 0 < given && 0 < taken && taken < inst.hi(j);
            fits && (inst.lo(i) < given || (given == 1 && inst.held() < h.held()))
        }
        Kind::Replace => 0 < given && taken == 0 && inst.lo(j) <= given && given <= inst.hi(j),
    }
}

/// The objective after a step. Costs O(1).
fn value_after(h: &Holding<'_>, kind: Kind, i: u16, j: u16) -> i128
    requires giver { i < h.now.instance.market.assets }
    requires taker { j < h.now.instance.market.assets }
    requires room { HasRoom h.now.instance h.now.lots kind i j }
    requires instance { IsInstance h.now.instance }
    ensures { result ≡ objective h.now.instance h.now.weight.p h.now.weight.q (stepped h.now.lots kind i j) }
{
    match kind {
        Kind::Move => h.moved_value(i, j, 1),
        Kind::Replace => h.exchanged_value(i, j),
    }
}

/// Does the list after a step that has room meet the limits? Of these only the turnover is left to be looked at. Costs
/// O(1).
fn keeps_turnover(h: &Holding<'_>, kind: Kind, i: u16, j: u16) -> bool
    requires meets { MeetsLimits h.now.instance h.now.lots }
    requires giver { i < h.now.instance.market.assets }
    requires taker { j < h.now.instance.market.assets }
    requires room { HasRoom h.now.instance h.now.lots kind i j }
    ensures { IsTrue result ↔ MeetsLimits h.now.instance (stepped h.now.lots kind i j) }
{
    let _lots = h.lots();
    match h.instance().turnover() {
        Some(most) => turnover_after(h, kind, i, j) <= most,
        None => true,
    }
}

/// The turnover to the list after a step. Costs O(1).
fn turnover_after(h: &Holding<'_>, kind: Kind, i: u16, j: u16) -> u32
    requires giver { i < h.now.instance.market.assets }
    requires taker { j < h.now.instance.market.assets }
    requires room { HasRoom h.now.instance h.now.lots kind i j }
    ensures { pos result
        ≡ turnover_of h.now.instance.market.assets h.now.instance.present (stepped h.now.lots kind i j) }
{
    let given = h.lots().get(i);
    let taken = h.lots().get(j);
    match kind {
        Kind::Move => h.turnover_with(i, given.saturating_sub(1), j, taken.saturating_add(1)),
        Kind::Replace => h.turnover_with(i, taken, j, given),
    }
}
