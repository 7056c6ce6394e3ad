//! The objective of a list of lots that changes a few places at a time.

ghost use Rattle.std.specs.Prelude.{◌≡◌, ◌≢◌, ℕ, ◌+◌, ◌-◌, ◌*◌, ◌<◌, ◌≤◌, cond, nat_lt, List, length, ℤ, pos, ◌+ℤ◌, ◌-ℤ◌, ◌*ℤ◌, replicate, slice_index_or, slice_set, unsigned_abs, IsTrue, IsFalse, ◌↔◌, ◌<ℤ◌};
ghost use Rattle.gap_base.specs.Lots.{lots_at};
ghost use Rattle.gap_base.specs.Sums.{at};
ghost use Rattle.gap_instance.specs.Instances.{AreBetween, IsInstance};
ghost use Rattle.gap_instance.specs.Limits.{held_of, turnover_of};
ghost use Rattle.gap_instance.specs.Objective.{cov_of, objective};
ghost use Rattle.gap_instance.specs.Neighbours.{lot_moved, lots_shifted, exchanged};
ghost use Rattle.gap_objective.specs.Slopes.{slope_of, spread_of, AreShiftedBelow, StaysFrom};
ghost use Rattle.gap_objective.specs.Holdings.{AreSlopes, distance};

use crate::terms::{bend, change, first_slope, reached, scale, shifted, spread, steepness};
use gap_base::{Lots, Weight};
use gap_instance::Instance;
use std::marker::Model;

/// A list of N numbers of lots of at most 10000 with its objective under a weight. Places of assets count from 0.
///
/// Contracts see a holding as the record of its instance, its weight and its list. It keeps the objective and its slope
/// at each asset, the number of held assets and the turnover: so each of these after a change of two places costs O(1),
/// and the change O(N). It takes no memory.
#[derive(Drop)]
pub struct Holding<'m> {
    inst: &'m Instance,
    weight: Weight,
    lots: Lots,
    slopes: [i128; 256],
    value: i128,
    held: u16,
    turnover: u32,
}

impl<'m> Model for Holding<'m> {
    ghost use Rattle.gap_objective.specs.Holdings.{HoldingValue, IsKept};

    ghost Value = { HoldingValue };

    ghost view = { λ a. record { instance = a.inst.now; weight = a.weight; lots = a.lots } };

    ghost invariant = { λ a. IsKept a.inst.now a.weight.p a.weight.q a.lots a.slopes a.value a.held a.turnover };
}

impl<'m> Holding<'m> {
    /// The list `x` of N numbers of at most 10000 under the weight `w`. Costs O(N) for each asset that it holds.
    pub fn new(inst: &'m Instance, w: Weight, x: &Lots) -> Holding<'m>
        requires { AreBetween inst.now.market.assets 0 10000 x.now }
        ensures { result ≡ record { instance = inst.now; weight = w; lots = x.now } }
    {
        let mut holding = Holding::nothing(inst, w);
        for i in 0..x.len() {
            if 0 < x.get(i) {
                holding.put(i, x.get(i));
            }
        }
        holding
    }

    /// The list that holds nothing.
    fn nothing(inst: &'m Instance, w: Weight) -> Holding<'m>
        ensures { result ≡ record { instance = inst.now; weight = w; lots = replicate inst.now.market.assets 0 } }
    {
        let lots = Lots::zeros(inst.n());
        let turnover = inst.turnover_to(&lots);
        Holding {
            inst,
            weight: w,
            lots,
            slopes: first_slopes(inst, w.p, w.q),
            value: 0,
            held: 0,
            turnover,
        }
    }

    /// The instance by which the objective is taken.
    pub fn instance(&self) -> &'m Instance
        ensures { result.now ≡ self.now.instance }
    {
        self.inst
    }

    /// The weight by which the objective is taken.
    pub fn weight(&self) -> Weight
        ensures { result ≡ self.now.weight }
    {
        self.weight
    }

    /// The present list.
    pub fn lots(&self) -> &Lots
        ensures value { result.now ≡ self.now.lots }
        ensures lots { AreBetween self.now.instance.market.assets 0 10000 self.now.lots }
        ensures instance { IsInstance self.now.instance }
    {
        &self.lots
    }

    /// The objective of the present list. Costs O(1).
    pub fn value(&self) -> i128
        ensures value { result ≡ objective self.now.instance self.now.weight.p self.now.weight.q self.now.lots }
        ensures small { unsigned_abs result ≤ 2000000000000000000000000000000000 }
    {
        self.value
    }

    /// How many assets the present list holds. Costs O(1).
    pub fn held(&self) -> u16
        ensures { result ≡ held_of self.now.instance.market.assets self.now.lots }
    {
        self.held
    }

    /// The turnover from the present lots of the instance to the list. Costs O(1).
    pub fn turnover(&self) -> u32
        ensures value { pos result
            ≡ turnover_of self.now.instance.market.assets self.now.instance.present self.now.lots }
        ensures small { result ≤ 2560000 }
    {
        self.turnover
    }

    /// The turnover to the list that has `given` lots in asset `i` and `taken` lots in asset `j`. Costs O(1).
    pub fn turnover_with(&self, i: u16, given: u16, j: u16, taken: u16) -> u32
        requires other { i ≢ j }
        requires first { i < self.now.instance.market.assets }
        requires second { j < self.now.instance.market.assets }
        ensures { pos result ≡ turnover_of self.now.instance.market.assets self.now.instance.present
            (slice_set (slice_set self.now.lots i given) j taken) }
    {
        let inst = self.instance();
        let lots = self.lots();
        let once = turnover_after(self.turnover(), inst.present(i), lots.get(i), given);
        turnover_after(once, inst.present(j), lots.get(j), taken)
    }

    /// The slope of the objective at asset `i`.
    fn slope(&self, i: u16) -> i128
        requires { i < self.now.instance.market.assets }
        ensures value { result ≡ slope_of self.now.instance self.now.weight.p self.now.weight.q self.now.lots i }
        ensures small { unsigned_abs result ≤ 2000000000000000000000000000 }
    {
        self.slopes[usize::from(i)]
    }

    /// The objective that the list would have with `lots` lots in asset `i`. Costs O(1).
    pub fn put_value(&self, i: u16, lots: u16) -> i128
        requires asset { i < self.now.instance.market.assets }
        requires lots { lots ≤ 10000 }
        ensures { result ≡ objective self.now.instance self.now.weight.p self.now.weight.q (slice_set self.now.lots i lots) }
    {
        let moved = change(lots, self.lots.get(i));
        let bend = bend(self.weight.p, i128::from(self.inst.cov(i, i)));
        reached(
            self.value(),
            steepness(self.slope(i), 0, bend, moved),
            moved,
        )
    }

    /// The objective that the list would have with `lots` lots moved from asset `i` to asset `j`. Asset `i` must hold as
    /// many, and asset `j` have room for them below 10000. Costs O(1).
    pub fn moved_value(&self, i: u16, j: u16, lots: u16) -> i128
        requires other { i ≢ j }
        requires first { i < self.now.instance.market.assets }
        requires second { j < self.now.instance.market.assets }
        requires from { lots ≤ slice_index_or self.now.lots i 0 }
        requires to { slice_index_or self.now.lots j 0 + lots ≤ 10000 }
        ensures { result ≡ objective self.now.instance self.now.weight.p self.now.weight.q
            (lots_shifted self.now.lots i j lots) }
    {
        self.shifted_value(i, j, i32::from(lots))
    }

    /// The objective that the list would have with the lots of the assets `i` and `j` exchanged. Costs O(1).
    pub fn exchanged_value(&self, i: u16, j: u16) -> i128
        requires other { i ≢ j }
        requires first { i < self.now.instance.market.assets }
        requires second { j < self.now.instance.market.assets }
        ensures { result ≡ objective self.now.instance self.now.weight.p self.now.weight.q (exchanged self.now.lots i j) }
    {
        let moved = change(self.lots.get(i), self.lots.get(j));
        self.shifted_value(i, j, moved)
    }

    /// Can the objective fall where lots go from asset `i` to asset `j`, that is: is its slope at asset `j` below the one
    /// at asset `i`? Costs O(1), without a product.
    pub fn may_fall(&self, i: u16, j: u16) -> bool
        requires first { i < self.now.instance.market.assets }
        requires second { j < self.now.instance.market.assets }
        ensures slopes { IsTrue result ↔ (slope_of self.now.instance self.now.weight.p self.now.weight.q self.now.lots j
            <ℤ slope_of self.now.instance self.now.weight.p self.now.weight.q self.now.lots i) }
        ensures stays { IsFalse result → StaysFrom self.now.instance self.now.weight.p self.now.weight.q self.now.lots i j }
        ensures instance { IsInstance self.now.instance }
    {
        let _inst = &self.inst;
        self.slope(j) < self.slope(i)
    }

    /// The objective with `moved` lots moved from asset `i` to asset `j`, where `moved` may be negative.
    fn shifted_value(&self, i: u16, j: u16, moved: i32) -> i128
        requires first { i < self.now.instance.market.assets }
        requires second { j < self.now.instance.market.assets }
        requires moved { unsigned_abs moved ≤ 10000 }
        ensures instance { IsInstance self.now.instance }
        ensures lots { AreBetween self.now.instance.market.assets 0 10000 self.now.lots }
        ensures value { result ≡ objective self.now.instance self.now.weight.p self.now.weight.q self.now.lots
            +ℤ ((slope_of self.now.instance self.now.weight.p self.now.weight.q self.now.lots j
            -ℤ slope_of self.now.instance self.now.weight.p self.now.weight.q self.now.lots i)
            +ℤ (pos self.now.weight.p *ℤ spread_of self.now.instance.market i j) *ℤ moved) *ℤ moved }
    {
        let spread = spread(
            self.inst.cov(i, i),
            self.inst.cov(j, j),
            self.inst.cov(i, j),
        );
        let bend = bend(self.weight.p, spread);
        reached(
            self.value(),
            steepness(self.slope(j), self.slope(i), bend, moved),
            moved,
        )
    }

    /// Gives asset `i` the lots `lots`; the others stay. Costs O(N).
    pub fn put(&mut self, i: u16, lots: u16)
        requires asset { i < self.old.instance.market.assets }
        requires lots { lots ≤ 10000 }
        ensures { self.new ≡ record self.old { lots = slice_set self.old.lots i lots } }
    {
        let value = self.put_value(i, lots);
        let before = self.lots.get(i);
        let moved = change(lots, before);
        shift(&mut self.slopes, self.inst, i, scale(self.weight.p, moved));
        self.held = counted(self.held, before, lots);
        self.turnover = turnover_after(self.turnover, self.inst.present(i), before, lots);
        self.lots.set(i, lots);
        self.value = value;
    }

    /// Moves one lot from asset `i` to asset `j`. Asset `i` must hold one, and asset `j` fewer than 10000. Costs O(N).
    pub fn move_lot(&mut self, i: u16, j: u16)
        requires other { i ≢ j }
        requires from { 0 < slice_index_or self.old.lots i 0 }
        requires inside { j < self.old.instance.market.assets }
        requires to { slice_index_or self.old.lots j 0 < 10000 }
        ensures { self.new ≡ record self.old { lots = lot_moved self.old.lots i j } }
    {
        let from = self.lots.get(i);
        let to = self.lots.get(j);
        self.put(i, from - 1);
        self.put(j, to + 1);
    }

    /// Exchanges the lots of the assets `i` and `j`. Costs O(N).
    pub fn exchange(&mut self, i: u16, j: u16)
        requires other { i ≢ j }
        requires first { i < self.old.instance.market.assets }
        requires second { j < self.old.instance.market.assets }
        ensures { self.new ≡ record self.old { lots = exchanged self.old.lots i j } }
    {
        let from = self.lots.get(i);
        let to = self.lots.get(j);
        self.put(i, to);
        self.put(j, from);
    }
}

/// How many assets are held, where `held` are and one of them goes from `before` to `lots` lots.
fn counted(held: u16, before: u16, lots: u16) -> u16
    requires { held ≤ 256 }
    ensures { result ≡ (held + cond (nat_lt 0 lots) 1 0) - cond (nat_lt 0 before) 1 0 }
{
    (held + one_if(0 < lots)).saturating_sub(one_if(0 < before))
}

/// One where an asset is held, else zero.
fn one_if(held: bool) -> u16
    ensures value { result ≡ cond held 1 0 }
    ensures small { result ≤ 1 }
{
    if held { 1 } else { 0 }
}

/// The turnover where one asset goes from `before` to `lots` lots.
fn turnover_after(turnover: u32, present: u16, before: u16, lots: u16) -> u32
    requires { turnover ≤ 4000000 }
    ensures value { result ≡ (turnover + distance lots present) - distance before present }
    ensures small { result ≤ turnover + 65535 }
{
    let more = u32::from(lots.abs_diff(present));
    (turnover + more).saturating_sub(u32::from(before.abs_diff(present)))
}

/// The slopes of the objective of the list that holds nothing.
fn first_slopes(inst: &Instance, p: u8, q: u8) -> [i128; 256]
    ensures slopes { AreSlopes inst.now p q (replicate inst.now.market.assets 0) result }
    ensures room { length result ≡ 256 }
    ensures instance { IsInstance inst.now }
    ensures risk { p ≤ 255 }
    ensures whole { q ≤ 255 }
{
    let mut slopes = [0; 256];
    for i in 0..inst.n() {
        slopes[usize::from(i)] = first_slope(p, q, inst.lots(), inst.mean(i));
    }
    slopes
}

/// Shifts each slope by the covariance of its asset with asset `i` times `scale`.
fn shift(slopes: &mut [i128; 256], inst: &Instance, i: u16, scale: i64)
    requires asset { i < inst.now.market.assets }
    requires slopes { (k : ℕ) → k < inst.now.market.assets → unsigned_abs (at slopes.old k) ≤ 2000000000000000000000000000 }
    requires scale { unsigned_abs scale ≤ 5100000 }
    ensures shifted { AreShiftedBelow inst.now.market i inst.now.market.assets scale slopes.old slopes.new }
    ensures room { length slopes.new ≡ 256 }
{
    for j in 0..inst.n() {
        let place = usize::from(j);
        slopes[place] = shifted(slopes[place], inst.cov(j, i), scale);
    }
}
