//! The least cost of a part's lists, for any multiplier.

ghost use Rattle.std.specs.Prelude.{◌≡◌, ℕ, ◌+◌, ◌-◌, ◌*◌, ◌<◌, ◌≤◌, ◌↔◌, length, slice_index_or, ℤ, pos, ◌+ℤ◌, ◌*ℤ◌, unsigned_abs, IfSome, IsNone, IsFalse, IsTrue};
ghost use Rattle.gap_box.specs.Parts.{can_meet};
ghost use Rattle.gap_relax.specs.SoFar.{HasSeen};
ghost use Rattle.gap_price.specs.Costs.{most_price};
ghost use Rattle.gap_price.specs.Curves.{curve_with, varied_price, IsLeastAt};
ghost use Rattle.gap_price.specs.Offers.{cost_by, priced_of, least_offer, ways_of, AreTabled, IsBare, IsPlain};
ghost use Rattle.gap_box.specs.declared.cell.Cell.TheVariants.{Held};
ghost use Rattle.gap_price.specs.CurveOf.{curve_of};

use crate::asset::{AssetCost, asset_at};
use crate::costs::{Costs, Varied};
use crate::curve::CostCurve;
use crate::ends::{cheaper_end, plain_at, plain_offer};
use crate::offer::{Offer, held_offer, out_offer};
use gap_box::{Cell, Part};
use gap_relax::{Chosen, LeastRow, least_with_slope};

impl<'a> CostCurve<'a> {
    /// The curve of these costs over the part. None exactly where the count can't be met. It takes no memory, and costs
    /// O(N).
    pub fn new(
        costs: Costs<'a>,
        varied: Varied,
        part: &'a Part,
        fewest: u16,
        most: u16,
    ) -> Option<CostCurve<'a>>
        requires linear { length costs.linear.now ≡ length part.now }
        requires bends { length costs.bends.now ≡ length part.now }
        requires present { length costs.present.now ≡ length part.now }
        requires order { fewest ≤ most }
        ensures some { IfSome result (λ c. curve_of c ≡ curve_with costs.entry varied part.now fewest most) }
        ensures none { IsNone result ↔ IsFalse (can_meet part.now fewest most) }
    {
        if !part.count_within(fewest, most) {
            return None;
        }
        Some(CostCurve {
            costs,
            varied,
            part,
            fewest,
            most,
            held: part.held_cells(),
        })
    }

    /// The least cost at the multiplier over the lists, with the weight of one of them that has it: the slope of a line
    /// that is nowhere below the curve. It takes no memory. Where at most 32 of the free cells may be held it costs one
    /// pass over the cells, in each of which mostly two comparisons and three products (some ten where the asset has
    /// present lots and distance a price); else O(N log N) at most, O(N) on average.
    pub fn at(&self, multiplier: i128) -> Chosen
        requires multiplier { unsigned_abs multiplier ≤ most_price }
        requires price { unsigned_abs (varied_price (curve_of self.now) +ℤ multiplier) ≤ most_price }
        ensures least { IsLeastAt (curve_of self.now) multiplier result.value result.slope }
        ensures value_small { unsigned_abs result.value ≤ 256 * 23000000000000000000000000000000000 }
        ensures slope_small { unsigned_abs result.slope ≤ 256 * 10000 }
    {
        if 32 < self.most.saturating_sub(self.held) {
            return self.by_tables(multiplier);
        }
        self.in_one_pass(multiplier)
    }

    /// The same, where at most 32 of the free cells may be held.
    fn in_one_pass(&self, multiplier: i128) -> Chosen
        requires price { unsigned_abs (varied_price (curve_of self.now) +ℤ multiplier) ≤ most_price }
        requires few { self.now.most - self.now.held ≤ 32 }
        ensures least { IsLeastAt (curve_of self.now) multiplier result.value result.slope }
        ensures value_small { unsigned_abs result.value ≤ 256 * 23000000000000000000000000000000000 }
        ensures slope_small { unsigned_abs result.slope ≤ 256 * 10000 }
    {
        let mut row = LeastRow::new(
            self.fewest.saturating_sub(self.held),
            self.most.saturating_sub(self.held),
        );
        let bare = self.is_bare();
        for i in 0..self.part.len() {
            self.hand(multiplier, bare, i, &mut row);
        }
        row.chosen()
    }

    /// Hands the row the cell at place `i`, with what it costs and weighs at the multiplier.
    fn hand(&self, multiplier: i128, bare: bool, i: u16, row: &mut LeastRow)
        requires price { unsigned_abs (varied_price (curve_of self.now) +ℤ multiplier) ≤ most_price }
        requires bare { IsTrue bare → IsBare (curve_of self.now) }
        requires there { i < length self.now.part.now }
        requires room { i < 256 }
        requires next { row.old.seen ≡ i }
        ensures next { row.new.seen ≡ i + 1 }
        ensures least { HasSeen (ways_of (curve_of self.now) multiplier) row.old
            → HasSeen (ways_of (curve_of self.now) multiplier) row.new }
    {
        if self.is_plain(bare, i) {
            self.hand_plain(multiplier, i, row);
        } else {
            self.hand_near(multiplier, i, row);
        }
    }

    /// Is a lot of distance of asset `i` the same as one more lot, or has distance no price?
    fn is_plain(&self, bare: bool, i: u16) -> bool
        requires there { i < length self.now.part.now }
        requires bare { IsTrue bare → IsBare (curve_of self.now) }
        ensures { IsTrue result → IsPlain (curve_of self.now) i }
    {
        bare || self.costs.present.get(i) == 0
    }

    /// Has distance no price, whatever the multiplier?
    fn is_bare(&self) -> bool
        ensures { IsTrue result → IsBare (curve_of self.now) }
    {
        match self.varied {
            Varied::Lots => self.costs.distance_price == 0,
            Varied::Distance => false,
        }
    }

    /// Hands the row a cell whose asset costs and weighs nothing where it isn't held: its better end is the cheapest.
    fn hand_plain(&self, multiplier: i128, i: u16, row: &mut LeastRow)
        requires price { unsigned_abs (varied_price (curve_of self.now) +ℤ multiplier) ≤ most_price }
        requires plain { IsPlain (curve_of self.now) i }
        requires there { i < length self.now.part.now }
        requires room { i < 256 }
        requires next { row.old.seen ≡ i }
        ensures next { row.new.seen ≡ i + 1 }
        ensures least { HasSeen (ways_of (curve_of self.now) multiplier) row.old
            → HasSeen (ways_of (curve_of self.now) multiplier) row.new }
    {
        match self.part.cell(i) {
            Cell::Out => row.leave(0, 0),
            Cell::Held { l, u } => {
                let holding = self.end_offer(multiplier, i, l, u);
                row.hold(holding.value, holding.weight);
            }
            Cell::Free { l, u } => {
                let holding = self.end_offer(multiplier, i, l, u);
                row.offer(holding.value, holding.weight, 0, 0);
            }
        }
    }

    /// What `l` or `u` lots of asset `i` cost, whichever is less.
    fn end_offer(&self, multiplier: i128, i: u16, l: u16, u: u16) -> Offer
        requires price { unsigned_abs (varied_price (curve_of self.now) +ℤ multiplier) ≤ most_price }
        requires plain { IsPlain (curve_of self.now) i }
        requires there { i < length self.now.part.now }
        requires least { 1 ≤ l }
        requires order { l ≤ u }
        requires most { u ≤ 10000 }
        ensures offer { result ≡ least_offer (curve_of self.now) multiplier i (Held l u) }
        ensures value_small { unsigned_abs result.value ≤ 30000000000000000000000000000000000 }
        ensures weight_small { unsigned_abs result.weight ≤ 20000 }
    {
        let plain = plain_at(&self.costs, self.varied, multiplier, i);
        plain_offer(cheaper_end(&plain, l, u))
    }

    /// The same where the present lots matter.
    fn hand_near(&self, multiplier: i128, i: u16, row: &mut LeastRow)
        requires price { unsigned_abs (varied_price (curve_of self.now) +ℤ multiplier) ≤ most_price }
        requires there { i < length self.now.part.now }
        requires room { i < 256 }
        requires next { row.old.seen ≡ i }
        ensures next { row.new.seen ≡ i + 1 }
        ensures least { HasSeen (ways_of (curve_of self.now) multiplier) row.old
            → HasSeen (ways_of (curve_of self.now) multiplier) row.new }
    {
        let asset = self.asset_at(multiplier, i);
        let cell = self.part.cell(i);
        match cell {
            Cell::Out => {
                let leaving = out_offer(&asset, self.varied);
                row.leave(leaving.value, leaving.weight);
            }
            Cell::Held { .. } => {
                let holding = held_offer(&asset, self.varied, cell);
                row.hold(holding.value, holding.weight);
            }
            Cell::Free { .. } => {
                let holding = held_offer(&asset, self.varied, cell);
                let leaving = out_offer(&asset, self.varied);
                row.offer(holding.value, holding.weight, leaving.value, leaving.weight);
            }
        }
    }

    /// The same least for any number of cells. Its tables take 14 kilobytes, so it stands apart.
    #[inline(never)]
    fn by_tables(&self, multiplier: i128) -> Chosen
        requires price { unsigned_abs (varied_price (curve_of self.now) +ℤ multiplier) ≤ most_price }
        ensures least { IsLeastAt (curve_of self.now) multiplier result.value result.slope }
        ensures value_small { unsigned_abs result.value ≤ 256 * 23000000000000000000000000000000000 }
        ensures slope_small { unsigned_abs result.slope ≤ 256 * 10000 }
    {
        let mut held = [0; 256];
        let mut out = [0; 256];
        let mut held_weights = [0; 256];
        let mut out_weights = [0; 256];
        let n = usize::from(self.part.len());
        self.least_in(
            multiplier,
            &mut held[..n],
            &mut out[..n],
            &mut held_weights[..n],
            &mut out_weights[..n],
        )
    }

    /// The same, with room for the costs and the weights of each cell.
    fn least_in(
        &self,
        multiplier: i128,
        held: &mut [i128],
        out: &mut [i128],
        held_weights: &mut [i32],
        out_weights: &mut [i32],
    ) -> Chosen
        requires price { unsigned_abs (varied_price (curve_of self.now) +ℤ multiplier) ≤ most_price }
        requires held_length { length held.old ≡ length self.now.part.now }
        requires out_length { length out.old ≡ length self.now.part.now }
        requires held_weights_length { length held_weights.old ≡ length self.now.part.now }
        requires out_weights_length { length out_weights.old ≡ length self.now.part.now }
        ensures least { IsLeastAt (curve_of self.now) multiplier result.value result.slope }
        ensures value_small { unsigned_abs result.value ≤ 256 * 23000000000000000000000000000000000 }
        ensures slope_small { unsigned_abs result.slope ≤ 256 * 10000 }
    {
        let _length = self.part.len();
        self.fill(multiplier, held, out, held_weights, out_weights);
        match least_with_slope(
            self.part,
            held,
            out,
            held_weights,
            out_weights,
            self.fewest,
            self.most,
        ) {
            Some(chosen) => chosen,
            None => unreachable!(),
        }
    }

    /// Writes for each place what holding its asset and not holding it cost at the multiplier, and their weights.
    fn fill(
        &self,
        multiplier: i128,
        held: &mut [i128],
        out: &mut [i128],
        held_weights: &mut [i32],
        out_weights: &mut [i32],
    )
        requires price { unsigned_abs (varied_price (curve_of self.now) +ℤ multiplier) ≤ most_price }
        requires held_length { length held.old ≡ length self.now.part.now }
        requires out_length { length out.old ≡ length self.now.part.now }
        requires held_weights_length { length held_weights.old ≡ length self.now.part.now }
        requires out_weights_length { length out_weights.old ≡ length self.now.part.now }
        ensures { AreTabled (curve_of self.now) multiplier (length self.now.part.now) held.new out.new
            held_weights.new out_weights.new }
    {
        for i in 0..self.part.len() {
            let asset = self.asset_at(multiplier, i);
            let holding = held_offer(&asset, self.varied, self.part.cell(i));
            let leaving = out_offer(&asset, self.varied);
            let place = usize::from(i);
            held[place] = holding.value;
            out[place] = leaving.value;
            held_weights[place] = holding.weight;
            out_weights[place] = leaving.weight;
        }
    }

    /// What the lots of asset `i` cost under the multiplier.
    fn asset_at(&self, multiplier: i128, i: u16) -> AssetCost
        requires price { unsigned_abs (varied_price (curve_of self.now) +ℤ multiplier) ≤ most_price }
        requires there { i < length self.now.part.now }
        ensures cost { (v : ℕ) → cost_by result v ≡ priced_of (curve_of self.now) multiplier i v }
        ensures present { result.present ≡ slice_index_or self.now.costs.present.now i 0 }
    {
        asset_at(&self.costs, self.varied, multiplier, i)
    }
}
