//! What the lots of single assets cost.

ghost use Rattle.std.specs.Prelude.{◌≡◌, ℕ, ◌*◌, ◌<◌, ◌≤◌, length, slice_index_or, ℤ, pos, ◌≤ℤ◌, unsigned_abs};
ghost use Rattle.gap_base.specs.Sums.{at, AreWithin};
ghost use Rattle.gap_price.specs.Costs.{most_linear, most_bend, most_price};

use gap_base::Lots;

/// Which price a multiplier adds to: that of each lot, or that of each lot of distance from the present lots.
#[derive(Clone, Copy, PartialEq, Eq, Debug)]
pub enum Varied {
    Lots,
    Distance,
}

/// What the lots of single assets cost: for each asset a price of each lot (`linear`, at most 2 * 10^29 in size), what the
/// square of its lots takes off (`bends`, 0 to 6.4 * 10^24) and its present lots, and for all assets a further price of
/// each lot and a price of each lot of distance from the present ones, each at most 10^30 in size. That leaves room for
/// the slopes of a tangent, two multipliers, a trading rate and a multiplier of a return.
#[derive(Drop)]
pub struct Costs<'a> {
    pub linear: &'a [i128],
    pub bends: &'a [i128],
    pub present: &'a Lots,
    pub lot_price: i128,
    pub distance_price: i128,
    pub ghost linear_small: { AreWithin most_linear linear.now },
    pub ghost bends_small: { AreWithin most_bend bends.now },
    pub ghost bends_signs: { (i : ℕ) → i < length bends.now → pos 0 ≤ℤ at bends.now i },
    pub ghost present_most: { (i : ℕ) → slice_index_or present.now i 0 ≤ 10000 },
    pub ghost lot_small: { unsigned_abs lot_price ≤ most_price },
    pub ghost distance_small: { unsigned_abs distance_price ≤ most_price },
}
