//! Lots that are added or taken until a list has its sum.

ghost use Rattle.std.specs.Prelude.{◌≡◌, ℕ, ◌+◌, ◌-◌, ◌<◌, ◌≤◌, ◌↔◌, length, slice_index_or, slice_set, IsTrue, IsFalse, ◌⊎◌};
ghost use Rattle.gap_instance.specs.Instances.{IsInstance, AreBetween};
ghost use Rattle.gap_start.specs.Fills.{CanGo, IsNearer, SomeComesNearer, IsLookedAt, gone, changed_at, IsSoFar, IsBrought, IsBroughtToSum};

use gap_base::{Lots, Weight};
use gap_instance::{Instance, total_of};
use gap_objective::Holding;

/// An asset whose lots can change by one, and the objective after it.
#[derive(Clone, Copy)]
pub struct Change {
    pub asset: u16,
    pub value: i128,
}

/// The list `first`, which holds the marked assets, brought to the sum of all lots, as far as these can go. Costs O(N)
/// for each asset that is held and for each lot that is added or taken.
pub fn brought<'m>(inst: &'m Instance, w: Weight, marks: &Lots, first: &Lots) -> Holding<'m>
    requires marks { length marks.now ≡ inst.now.market.assets }
    requires first { AreBetween inst.now.market.assets 0 10000 first.now }
    ensures instance { result.instance ≡ inst.now }
    ensures weight { result.weight ≡ w }
    ensures brought { IsBroughtToSum inst.now w.p w.q marks.now first.now result.lots }
{
    let total = total_of(first);
    let lots = u32::from(inst.lots());
    let mut holding = Holding::new(inst, w, first);
    bring(&mut holding, marks, total < lots, total.abs_diff(lots));
    holding
}

/// Adds `missing` lots to marked assets below their greatest (up), or takes as many from those above their least: one at
/// a time, where it leads to the least objective, and where a turnover limit is set of those alone that come nearer to
/// their present lots, if there are any. It ends early where no asset can go. Costs O(N) a lot.
fn bring(h: &mut Holding<'_>, marks: &Lots, up: bool, missing: u32)
    requires { length marks.now ≡ h.old.instance.market.assets }
    ensures instance { h.new.instance ≡ h.old.instance }
    ensures weight { h.new.weight ≡ h.old.weight }
    ensures brought { IsBrought h.old.instance h.old.weight.p h.old.weight.q marks.now up missing h.old.lots h.new.lots }
{
    for lot in 0..missing {
        match best_change(h, marks, up) {
            Some(change) => {
                let lots = changed(h, marks, up, change.asset);
                h.put(change.asset, lots);
            }
            None => return,
        }
    }
}

/// The marked asset where one lot more, or one less, leads to the least objective; the lower one of equal ones.
fn best_change(h: &Holding<'_>, marks: &Lots, up: bool) -> Option<Change>
    requires { length marks.now ≡ h.now.instance.market.assets }
    ensures instance { IsInstance h.now.instance }
    ensures change { IsSoFar h.now.instance h.now.weight.p h.now.weight.q marks.now h.now.lots up
        h.now.instance.market.assets result }
{
    let nearer = some_comes_nearer(h, marks, up);
    let mut best: Option<Change> = None;
    for i in 0..h.instance().n() {
        best = better_change(h, marks, up, nearer, i, best);
    }
    best
}

/// Is a turnover limit set, and does a change bring some marked asset nearer to its present lots?
fn some_comes_nearer(h: &Holding<'_>, marks: &Lots, up: bool) -> bool
    requires { length marks.now ≡ h.now.instance.market.assets }
    ensures { IsTrue result ↔ SomeComesNearer h.now.instance marks.now h.now.lots up }
{
    if h.instance().turnover().is_none() {
        return false;
    }
    for i in 0..h.instance().n() {
        if can_go(h, marks, up, i) && is_nearer(h, up, i) {
            return true;
        }
    }
    false
}

/// The better one of a change of asset `i` and of what was found below it.
fn better_change(
    h: &Holding<'_>,
    marks: &Lots,
    up: bool,
    nearer: bool,
    i: u16,
    best: Option<Change>,
) -> Option<Change>
    requires asset { i < h.now.instance.market.assets }
    requires marks { length marks.now ≡ h.now.instance.market.assets }
    requires nearer { IsTrue nearer ↔ SomeComesNearer h.now.instance marks.now h.now.lots up }
    requires below { IsSoFar h.now.instance h.now.weight.p h.now.weight.q marks.now h.now.lots up i best }
    ensures { IsSoFar h.now.instance h.now.weight.p h.now.weight.q marks.now h.now.lots up (i + 1) result }
{
    if !is_looked_at(h, marks, up, nearer, i) {
        return best;
    }
    let value = h.put_value(i, changed(h, marks, up, i));
    let here = Change { asset: i, value };
    match best {
        Some(other) => {
            if value < other.value {
                Some(here)
            } else {
                Some(other)
            }
        }
        None => Some(here),
    }
}

/// Is asset `i` looked at, where `nearer` says whether some asset comes nearer to its present lots?
fn is_looked_at(h: &Holding<'_>, marks: &Lots, up: bool, nearer: bool, i: u16) -> bool
    requires asset { i < h.now.instance.market.assets }
    requires marks { length marks.now ≡ h.now.instance.market.assets }
    requires nearer { IsTrue nearer ↔ SomeComesNearer h.now.instance marks.now h.now.lots up }
    ensures looked { IsTrue result ↔ IsLookedAt h.now.instance marks.now h.now.lots up i }
    ensures instance { IsInstance h.now.instance }
{
    can_go(h, marks, up, i) && (!nearer || is_nearer(h, up, i))
}

/// Does one lot more, or one less, bring asset `i` nearer to its present lots?
fn is_nearer(h: &Holding<'_>, up: bool, i: u16) -> bool
    requires { i < h.now.instance.market.assets }
    ensures { IsTrue result ↔ IsNearer h.now.instance h.now.lots up i }
{
    let lots = h.lots().get(i);
    let present = h.instance().present(i);
    (if up { lots } else { present }) < (if up { present } else { lots })
}

/// Can asset `i` get one lot more, or give one?
fn can_go(h: &Holding<'_>, marks: &Lots, up: bool, i: u16) -> bool
    requires asset { i < h.now.instance.market.assets }
    requires marks { length marks.now ≡ h.now.instance.market.assets }
    ensures go { IsTrue result ↔ CanGo h.now.instance marks.now h.now.lots up i }
    ensures instance { IsInstance h.now.instance }
{
    let lots = h.lots().get(i);
    let least = h.instance().lo(i);
    let greatest = h.instance().hi(i);
    0 < marks.get(i) && (if up { lots } else { least }) < (if up { greatest } else { lots })
}

/// The lots of asset `i` with one more, or one less.
fn changed(h: &Holding<'_>, marks: &Lots, up: bool, i: u16) -> u16
    requires asset { i < h.now.instance.market.assets }
    requires instance { IsInstance h.now.instance }
    requires go { CanGo h.now.instance marks.now h.now.lots up i }
    ensures value { result ≡ gone up (slice_index_or h.now.lots i 0) }
    ensures most { result ≤ 10000 }
{
    let lots = h.lots().get(i);
    if up { lots + 1 } else { lots.saturating_sub(1) }
}
