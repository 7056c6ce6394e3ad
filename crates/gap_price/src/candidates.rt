//! The numbers of lots of an asset at which its cost can be least.

ghost use Rattle.std.specs.Prelude.{◌≡◌, ℕ, ◌≤◌};
ghost use Rattle.gap_price.specs.Offers.{at_lots, cheaper, cheapest, cost_by};

use crate::asset::{AssetCost, cost_at};

/// Some lots of an asset, and what they cost.
#[derive(Clone, Copy)]
pub(crate) struct Candidate {
    pub(crate) lots: u16,
    pub(crate) cost: i128,
}

/// `v` lots of the asset.
pub(crate) fn candidate_at(asset: &AssetCost, v: u16) -> Candidate
    requires { v ≤ 10000 }
    ensures { result ≡ at_lots (cost_by asset.now) v }
{
    Candidate {
        lots: v,
        cost: cost_at(asset, v),
    }
}

/// The cheaper of two candidates.
fn cheaper_of(a: Candidate, b: Candidate) -> Candidate
    ensures { result ≡ cheaper a b }
{
    if b.cost < a.cost { b } else { a }
}

/// The cheapest of `l` lots, of `u` lots and of the present lots where these lie between: the cost of `l` to `u` lots is
/// least at one of them.
pub(crate) fn cheapest_between(asset: &AssetCost, l: u16, u: u16) -> Candidate
    requires order { l ≤ u }
    requires most { u ≤ 10000 }
    ensures cheapest { result ≡ cheapest (cost_by asset.now) l u asset.now.present }
{
    let ends = cheaper_of(candidate_at(asset, l), candidate_at(asset, u));
    let present = asset.present;
    if l < present && present < u {
        return cheaper_of(ends, candidate_at(asset, present));
    }
    ends
}
