//! What holding an asset and not holding it cost under a multiplier.

ghost use Rattle.std.specs.Prelude.{◌≡◌, ℕ, ◌≤◌, ℤ, pos, unsigned_abs};
ghost use Rattle.gap_box.specs.Cells.{IsCell};
ghost use Rattle.gap_price.specs.Curves.{weight_of};
ghost use Rattle.gap_price.specs.Offers.{at_lots, cost_by, offer_held, offer_with};

use crate::asset::{AssetCost, distance};
use crate::candidates::{Candidate, candidate_at, cheapest_between};
use crate::costs::Varied;
use gap_box::Cell;

/// What some lots of an asset cost under a multiplier, and what a unit of the multiplier adds to that.
#[derive(Clone, Copy)]
pub(crate) struct Offer {
    pub(crate) value: i128,
    pub(crate) weight: i32,
}

/// What a unit of the multiplier adds to the cost of `v` lots.
fn weight_at(varied: Varied, v: u16, present: u16) -> i32
    requires lots { v ≤ 10000 }
    requires present { present ≤ 10000 }
    ensures { result ≡ weight_of varied (pos present) (pos v) }
{
    match varied {
        Varied::Lots => i32::from(v),
        Varied::Distance => i32::from(distance(v, present)),
    }
}

/// The offer of a candidate.
fn offer_of(candidate: Candidate, varied: Varied, present: u16) -> Offer
    requires lots { candidate.lots ≤ 10000 }
    requires present { present ≤ 10000 }
    ensures { result ≡ offer_with varied present candidate }
{
    Offer {
        value: candidate.cost,
        weight: weight_at(varied, candidate.lots, present),
    }
}

/// What holding the asset of a cell costs at least; nothing where it is out.
pub(crate) fn held_offer(asset: &AssetCost, varied: Varied, cell: Cell) -> Offer
    requires { IsCell cell }
    ensures { result ≡ offer_held varied asset.now.present (cost_by asset.now) cell }
{
    match cell {
        Cell::Out => Offer {
            value: 0,
            weight: 0,
        },
        Cell::Held { l, u } => offer_of(cheapest_between(asset, l, u), varied, asset.present),
        Cell::Free { l, u } => offer_of(cheapest_between(asset, l, u), varied, asset.present),
    }
}

/// What not holding the asset costs.
pub(crate) fn out_offer(asset: &AssetCost, varied: Varied) -> Offer
    ensures { result ≡ offer_with varied asset.now.present (at_lots (cost_by asset.now) 0) }
{
    offer_of(candidate_at(asset, 0), varied, asset.present)
}
