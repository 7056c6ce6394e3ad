//! The better end of a range of lots, where a lot of distance costs the same as one more lot.
//!
//! That is so where distance has no price, and where none of the asset's lots are present.

ghost use Rattle.std.specs.Prelude.{◌≡◌, ℕ, ◌+◌, ◌*◌, ◌<◌, ◌≤◌, length, ℤ, pos, ◌+ℤ◌, ◌*ℤ◌, unsigned_abs};
ghost use Rattle.gap_base.specs.Sums.{at};
ghost use Rattle.gap_price.specs.declared.costs.Varied.TheVariants.{Lots as ByLots};
ghost use Rattle.gap_price.specs.Costs.{most_price};
ghost use Rattle.gap_price.specs.Curves.{costs_with, price_by, lot_under, distance_under};
ghost use Rattle.gap_price.specs.Offers.{at_lots, plain_cost, end_lots, offer_with};

use crate::asset::{bend_at, distance_price, linear_at, lot_price};
use crate::candidates::Candidate;
use crate::costs::{Costs, Varied};
use crate::offer::Offer;

/// What the lots of an asset cost where each lot is a lot of distance too, or distance is free: `line` for each, less
/// `bend` times the square.
#[derive(Drop)]
pub(crate) struct Plain {
    pub(crate) line: i128,
    pub(crate) bend: i128,
    ghost line_small: { unsigned_abs line ≤ 2202000000000000000000000000000 },
    ghost bend_small: { unsigned_abs bend ≤ 6400000000000000000000000 },
}

/// What the lots of asset `i` cost under the multiplier, where each is a lot of distance too.
pub(crate) fn plain_at(costs: &Costs<'_>, varied: Varied, multiplier: i128, i: u16) -> Plain
    requires linear { i < length costs.now.linear.now }
    requires bends { i < length costs.now.bends.now }
    requires price { unsigned_abs (price_by varied (costs_with costs.now) +ℤ multiplier) ≤ most_price }
    ensures line { result.line ≡ (at costs.now.linear.now i +ℤ lot_under varied (costs_with costs.now) multiplier)
        +ℤ distance_under varied (costs_with costs.now) multiplier }
    ensures bend { result.bend ≡ at costs.now.bends.now i }
{
    Plain {
        line: linear_at(costs, i)
            + lot_price(costs, varied, multiplier)
            + distance_price(costs, varied, multiplier),
        bend: bend_at(costs, i),
    }
}

/// What squares take off for each of `lots` lots.
fn bent(plain: &Plain, lots: u16) -> i128
    requires { lots ≤ 20000 }
    ensures value { result ≡ plain.now.bend *ℤ pos lots }
    ensures small { unsigned_abs result ≤ 128000000000000000000000000000 }
{
    plain.bend * i128::from(lots)
}

/// So many lots at a price.
fn priced(price: i128, v: u16) -> i128
    requires price { unsigned_abs price ≤ 2400000000000000000000000000000 }
    requires lots { v ≤ 10000 }
    ensures { result ≡ price *ℤ pos v }
{
    price * i128::from(v)
}

/// The end of the range at which the cost is least: the upper one where the square takes off more than the lots cost.
fn end_at(plain: &Plain, l: u16, u: u16) -> u16
    requires order { l ≤ u }
    requires most { u ≤ 10000 }
    ensures value { result ≡ end_lots plain.now.line plain.now.bend l u }
    ensures most { result ≤ 10000 }
{
    if plain.line < bent(plain, l + u) {
        u
    } else {
        l
    }
}

/// The cost of `v` lots.
fn cost_of(plain: &Plain, v: u16) -> i128
    requires { v ≤ 10000 }
    ensures { result ≡ plain_cost plain.now.line plain.now.bend v }
{
    priced(plain.line - bent(plain, v), v)
}

/// The end of the range at which the cost is least.
pub(crate) fn cheaper_end(plain: &Plain, l: u16, u: u16) -> Candidate
    requires order { l ≤ u }
    requires most { u ≤ 10000 }
    ensures { result
        ≡ at_lots (plain_cost plain.now.line plain.now.bend) (end_lots plain.now.line plain.now.bend l u) }
{
    let lots = end_at(plain, l, u);
    Candidate {
        lots,
        cost: cost_of(plain, lots),
    }
}

/// The offer of a candidate, whose weight is its lots.
pub(crate) fn plain_offer(candidate: Candidate) -> Offer
    ensures { result ≡ offer_with ByLots 0 candidate }
{
    Offer {
        value: candidate.cost,
        weight: i32::from(candidate.lots),
    }
}
