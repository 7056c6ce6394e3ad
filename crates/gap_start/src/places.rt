//! Assets that can give lots or take them, as lists of their places.

ghost use Rattle.std.specs.Prelude.{◌≡◌, ℕ, ◌+◌, ◌<◌, ◌≤◌, ◌↔◌, cond, List, length, slice_index_or, slice_set, replicate, IsTrue, ◌≤ℤ◌, ◌<ℤ◌};
ghost use Rattle.gap_instance.specs.Instances.{IsInstance, AreBetween};
ghost use Rattle.gap_objective.specs.Slopes.{slope_of};
ghost use Rattle.gap_start.specs.Places.{AreAll, IsGiver, IsTaker, IsSteepest};

use crate::step::Kind;
use gap_base::Lots;
use gap_objective::Holding;

/// Some places of assets, by rising numbers: the first `count` numbers of a list.
#[derive(Drop)]
pub struct Places {
    pub numbers: Lots,
    pub count: u16,
}

/// The assets that are held. Costs O(N).
pub fn givers(h: &Holding<'_>) -> Places
    ensures givers { AreAll (IsGiver h.now.lots) h.now.instance.market.assets h.now.instance.market.assets
        result.numbers result.count }
    ensures instance { IsInstance h.now.instance }
{
    let mut places = none(h);
    for i in 0..h.instance().n() {
        add(&mut places, i, 0 < h.lots().get(i));
    }
    places
}

/// The assets that can take lots by a step of one kind, and at which the slope is below the one at asset `top`: held ones
/// by a move, and those that aren't held by a replacement. Costs O(N).
pub fn takers(h: &Holding<'_>, kind: Kind, top: u16) -> Places
    requires { top < h.now.instance.market.assets }
    ensures takers { AreAll (IsTaker h.now.instance h.now.weight.p h.now.weight.q h.now.lots kind top)
        h.now.instance.market.assets h.now.instance.market.assets result.numbers result.count }
    ensures instance { IsInstance h.now.instance }
{
    let mut places = none(h);
    for j in 0..h.instance().n() {
        add(&mut places, j, takes(h, kind, top, j));
    }
    places
}

/// An asset at which the slope is as great as at each that is held. Costs O(K), where K are held.
pub fn steepest(h: &Holding<'_>, givers: &Places) -> u16
    requires { AreAll (IsGiver h.now.lots) h.now.instance.market.assets h.now.instance.market.assets
        givers.now.numbers givers.now.count }
    ensures inside { result < h.now.instance.market.assets }
    ensures steepest { IsSteepest h.now.instance h.now.weight.p h.now.weight.q h.now.lots result }
{
    let _room = givers.numbers.len();
    let mut top = givers.numbers.get(0);
    for k in 0..givers.count {
        top = steeper(h, givers.numbers.get(k), top);
    }
    top
}

/// The one of two assets with the greater slope.
fn steeper(h: &Holding<'_>, i: u16, top: u16) -> u16
    requires first { i < h.now.instance.market.assets }
    requires second { top < h.now.instance.market.assets }
    ensures inside { result < h.now.instance.market.assets }
    ensures first { slope_of h.now.instance h.now.weight.p h.now.weight.q h.now.lots i
        ≤ℤ slope_of h.now.instance h.now.weight.p h.now.weight.q h.now.lots result }
    ensures second { slope_of h.now.instance h.now.weight.p h.now.weight.q h.now.lots top
        ≤ℤ slope_of h.now.instance h.now.weight.p h.now.weight.q h.now.lots result }
{
    if h.may_fall(i, top) { i } else { top }
}

/// Can asset `j` take lots by a step of this kind, and is the slope at it below the one at asset `top`?
fn takes(h: &Holding<'_>, kind: Kind, top: u16, j: u16) -> bool
    requires taker { j < h.now.instance.market.assets }
    requires top { top < h.now.instance.market.assets }
    ensures { IsTrue result ↔ IsTaker h.now.instance h.now.weight.p h.now.weight.q h.now.lots kind top j }
{
    let lots = h.lots().get(j);
    match kind {
        Kind::Move => 0 < lots && h.may_fall(top, j),
        Kind::Replace => lots == 0 && h.may_fall(top, j),
    }
}

/// No places, with room for all assets.
fn none(h: &Holding<'_>) -> Places
    ensures none { result ≡ record { numbers = replicate h.now.instance.market.assets 0; count = 0 } }
    ensures instance { IsInstance h.now.instance }
{
    Places {
        numbers: Lots::zeros(h.instance().n()),
        count: 0,
    }
}

/// Adds the place `i` where it is wanted.
fn add(places: &mut Places, i: u16, wanted: bool)
    requires { places.old.count < length places.old.numbers }
    ensures numbers { places.new.numbers ≡ slice_set places.old.numbers places.old.count i }
    ensures count { places.new.count ≡ places.old.count + cond wanted 1 0 }
{
    let _room = places.numbers.len();
    places.numbers.set(places.count, i);
    if wanted {
        places.count += 1;
    }
}
