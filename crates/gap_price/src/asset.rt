//! The cost of the lots of one asset.

ghost use Rattle.std.specs.Prelude.{◌≡◌, ℕ, ◌*◌, ◌<◌, ◌≤◌, length, slice_index_or, ℤ, pos, ◌+ℤ◌, ◌-ℤ◌, ◌*ℤ◌, ◌≤ℤ◌, unsigned_abs};
ghost use Rattle.gap_base.specs.Sums.{at, abs_z};
ghost use Rattle.gap_price.specs.Costs.{asset_cost, most_linear, most_bend, most_price};
ghost use Rattle.gap_price.specs.Curves.{costs_with, price_by, lot_under, distance_under};

use crate::costs::{Costs, Varied};

/// What the lots of one asset cost under a multiplier: `linear` for each, less `bend` times the square, and `price` for
/// each lot of distance from the `present` lots.
#[derive(Drop)]
pub(crate) struct AssetCost {
    linear: i128,
    bend: i128,
    price: i128,
    pub(crate) present: u16,
    ghost linear_small: { unsigned_abs linear ≤ 1201000000000000000000000000000 },
    ghost bend_small: { unsigned_abs bend ≤ most_bend },
    ghost bend_sign: { pos 0 ≤ℤ bend },
    ghost price_small: { unsigned_abs price ≤ most_price },
    ghost present_most: { present ≤ 10000 },
}

/// The number at place `i`.
pub(crate) fn linear_at(costs: &Costs<'_>, i: u16) -> i128
    requires { i < length costs.now.linear.now }
    ensures value { result ≡ at costs.now.linear.now i }
    ensures small { unsigned_abs result ≤ 200000000000000000000000000000 }
{
    costs.linear[usize::from(i)]
}

/// What a square takes off of asset `i`.
pub(crate) fn bend_at(costs: &Costs<'_>, i: u16) -> i128
    requires { i < length costs.now.bends.now }
    ensures value { result ≡ at costs.now.bends.now i }
    ensures small { unsigned_abs result ≤ most_bend }
    ensures sign { pos 0 ≤ℤ result }
{
    costs.bends[usize::from(i)]
}

/// The present lots of asset `i`.
fn present_at(costs: &Costs<'_>, i: u16) -> u16
    requires { i < length costs.now.present.now }
    ensures value { result ≡ slice_index_or costs.now.present.now i 0 }
    ensures most { result ≤ 10000 }
{
    costs.present.get(i)
}

/// The price of each lot that all assets share, under the multiplier.
pub(crate) fn lot_price(costs: &Costs<'_>, varied: Varied, multiplier: i128) -> i128
    requires { unsigned_abs (price_by varied (costs_with costs.now) +ℤ multiplier) ≤ most_price }
    ensures value { result ≡ lot_under varied (costs_with costs.now) multiplier }
    ensures small { unsigned_abs result ≤ most_price }
{
    match varied {
        Varied::Lots => costs.lot_price + multiplier,
        Varied::Distance => costs.lot_price,
    }
}

/// The price of each lot of distance, under the multiplier.
pub(crate) fn distance_price(costs: &Costs<'_>, varied: Varied, multiplier: i128) -> i128
    requires { unsigned_abs (price_by varied (costs_with costs.now) +ℤ multiplier) ≤ most_price }
    ensures value { result ≡ distance_under varied (costs_with costs.now) multiplier }
    ensures small { unsigned_abs result ≤ most_price }
{
    match varied {
        Varied::Lots => costs.distance_price,
        Varied::Distance => costs.distance_price + multiplier,
    }
}

/// What the lots of asset `i` cost under the multiplier.
pub(crate) fn asset_at(costs: &Costs<'_>, varied: Varied, multiplier: i128, i: u16) -> AssetCost
    requires linear { i < length costs.now.linear.now }
    requires bends { i < length costs.now.bends.now }
    requires present { i < length costs.now.present.now }
    requires price { unsigned_abs (price_by varied (costs_with costs.now) +ℤ multiplier) ≤ most_price }
    ensures linear { result.linear ≡ at costs.now.linear.now i +ℤ lot_under varied (costs_with costs.now) multiplier }
    ensures bend { result.bend ≡ at costs.now.bends.now i }
    ensures price { result.price ≡ distance_under varied (costs_with costs.now) multiplier }
    ensures present { result.present ≡ slice_index_or costs.now.present.now i 0 }
{
    AssetCost {
        linear: linear_at(costs, i) + lot_price(costs, varied, multiplier),
        bend: bend_at(costs, i),
        price: distance_price(costs, varied, multiplier),
        present: present_at(costs, i),
    }
}

/// The price of `v` lots by the lot.
fn line(asset: &AssetCost, v: u16) -> i128
    requires { v ≤ 10000 }
    ensures value { result ≡ asset.now.linear *ℤ pos v }
    ensures small { unsigned_abs result ≤ 12010000000000000000000000000000000 }
{
    asset.linear * i128::from(v)
}

/// `v * v`
fn squared(v: u16) -> u32
    requires { v ≤ 10000 }
    ensures value { result ≡ v * v }
    ensures small { result ≤ 100000000 }
{
    u32::from(v) * u32::from(v)
}

/// What the square of `v` lots takes off.
fn square(asset: &AssetCost, v: u16) -> i128
    requires { v ≤ 10000 }
    ensures value { result ≡ asset.now.bend *ℤ (pos v *ℤ pos v) }
    ensures small { unsigned_abs result ≤ 640000000000000000000000000000000 }
{
    asset.bend * i128::from(squared(v))
}

/// The distance of `v` lots from the present ones.
pub(crate) fn distance(v: u16, present: u16) -> u16
    requires first { v ≤ 10000 }
    requires second { present ≤ 10000 }
    ensures value { pos result ≡ abs_z (pos v -ℤ pos present) }
    ensures small { result ≤ 10000 }
{
    v.abs_diff(present)
}

/// The price of the distance of `v` lots from the present ones.
fn turnover(asset: &AssetCost, v: u16) -> i128
    requires { v ≤ 10000 }
    ensures value { result ≡ asset.now.price *ℤ abs_z (pos v -ℤ pos asset.now.present) }
    ensures small { unsigned_abs result ≤ 10010000000000000000000000000000000 }
{
    asset.price * i128::from(distance(v, asset.present))
}

/// The cost of `v` lots, at most 2.3 * 10^34 in size.
pub(crate) fn cost_at(asset: &AssetCost, v: u16) -> i128
    requires { v ≤ 10000 }
    ensures value { result ≡ asset_cost asset.now.linear asset.now.bend asset.now.price (pos asset.now.present) (pos v) }
    ensures small { unsigned_abs result ≤ 23000000000000000000000000000000000 }
{
    line(asset, v) - square(asset, v) + turnover(asset, v)
}
