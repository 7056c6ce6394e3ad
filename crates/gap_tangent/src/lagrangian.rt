//! The Lagrangian of a part's lists as a curve of costs over one multiplier.

ghost use Rattle.std.specs.Prelude.{◌≡◌, ℕ, ◌+◌, ◌*◌, ◌<◌, ◌≤◌, ◌↔◌, List, Option, length, ℤ, pos, ◌+ℤ◌, ◌-ℤ◌, ◌*ℤ◌, unsigned_abs, IsNone, IsFalse, IfSome};
ghost use Rattle.gap_base.specs.Sizes.{most_multiplier, most_constant};
ghost use Rattle.gap_box.specs.Parts.{can_meet};
ghost use Rattle.gap_model.specs.Leaves.{AreMultipliers};
ghost use Rattle.gap_price.specs.declared.costs.Varied.TheVariants.{Lots as ByLots, Distance as ByDistance};
ghost use Rattle.gap_price.specs.CurveOf.{curve_of};
ghost use Rattle.gap_tangent.specs.Lines.{curve_at};
ghost use Rattle.gap_tangent.specs.Terms.{AreSmall, turnover_price};

use crate::priced::{PricedCurve, limited};
use gap_base::Lots;
use gap_box::Part;
use gap_instance::Instance;
use gap_price::{CostCurve, Costs, Varied};

/// What the lots of each asset cost: the slopes and the bends of a point, and the present lots.
#[derive(Clone, Copy)]
pub(crate) struct Terms<'a> {
    pub(crate) slopes: &'a [i128; 256],
    pub(crate) bends: &'a [i128; 256],
    pub(crate) present: &'a Lots,
}

/// The costs of a part's lists under the prices, as a curve over a multiplier of one of them.
fn cost_curve<'a>(
    inst: &Instance,
    terms: Terms<'a>,
    part: &'a Part,
    lot_price: i128,
    distance_price: i128,
    varied: Varied,
) -> Option<CostCurve<'a>>
    requires part_length { length part.now ≡ inst.now.market.assets }
    requires small { AreSmall inst.now.market.assets terms.slopes.now terms.bends.now }
    requires present { terms.present.now ≡ inst.now.present }
    requires lot { unsigned_abs lot_price ≤ most_multiplier }
    requires distance { unsigned_abs distance_price ≤ most_multiplier }
    ensures some { IfSome result
        (λ c. curve_of c ≡ curve_at inst.now terms.entry.slopes.now terms.entry.bends.now lot_price distance_price
        varied part.now) }
    ensures none { IsNone result ↔ IsFalse (can_meet part.now inst.now.held inst.now.held_most) }
{
    let n = usize::from(inst.n());
    let slopes = terms.slopes;
    let bends = terms.bends;
    let costs = Costs {
        linear: &slopes[..n],
        bends: &bends[..n],
        present: terms.present,
        lot_price,
        distance_price,
    };
    CostCurve::new(costs, varied, part, inst.held(), inst.held_most())
}

/// A multiplier times its limit, taken off a constant.
fn less_limited(constant: i128, multiplier: i128, limit: u32) -> i128
    requires constant { unsigned_abs constant ≤ most_constant }
    requires multiplier { unsigned_abs multiplier ≤ most_multiplier }
    requires limit { limit ≤ 3000000 }
    ensures value { result ≡ constant -ℤ (multiplier *ℤ pos limit) }
    ensures small { unsigned_abs result ≤ most_constant + most_multiplier * limit }
{
    constant - limited(multiplier, limit)
}

/// The constant less the price of the turnover limit, where one is set.
fn less_turnover(constant: i128, tau: i128, turnover: Option<u32>) -> i128
    requires constant { unsigned_abs constant ≤ most_constant }
    requires tau { unsigned_abs tau ≤ most_multiplier }
    requires turnover { IfSome turnover (λ t. t ≤ 3000000) }
    ensures value { result ≡ constant -ℤ turnover_price turnover tau }
    ensures small { unsigned_abs result ≤ most_constant + most_multiplier * 3000000 }
{
    match turnover {
        Some(most) => less_limited(constant, tau, most),
        None => constant,
    }
}

/// The constant, the price of the limits and the costs, over the multiplier of the sum of lots. None exactly where the
/// count can't be met.
pub(crate) fn lots_curve<'a>(
    inst: &Instance,
    terms: Terms<'a>,
    constant: i128,
    part: &'a Part,
    tau: i128,
) -> Option<PricedCurve<'a>>
    requires part_length { length part.now ≡ inst.now.market.assets }
    requires small { AreSmall inst.now.market.assets terms.slopes.now terms.bends.now }
    requires present { terms.present.now ≡ inst.now.present }
    requires constant { unsigned_abs constant ≤ most_constant }
    requires tau { AreMultipliers inst.now.turnover (pos 0) tau }
    ensures curve { IfSome result
        (λ c. curve_of c.costs
        ≡ curve_at inst.now terms.entry.slopes.now terms.entry.bends.now (pos 0) tau ByLots part.now) }
    ensures fixed { IfSome result (λ c. c.fixed ≡ constant -ℤ turnover_price inst.now.turnover tau) }
    ensures limit { IfSome result (λ c. c.limit ≡ inst.now.lots) }
    ensures none { IsNone result ↔ IsFalse (can_meet part.now inst.now.held inst.now.held_most) }
{
    match cost_curve(inst, terms, part, 0, tau, Varied::Lots) {
        Some(costs) => Some(PricedCurve {
            costs,
            fixed: less_turnover(constant, tau, inst.turnover()),
            limit: u32::from(inst.lots()),
        }),
        None => None,
    }
}

/// The same over the multiplier of the turnover, where a limit is set.
pub(crate) fn turnover_curve<'a>(
    inst: &Instance,
    terms: Terms<'a>,
    constant: i128,
    part: &'a Part,
    alpha: i128,
    most: u32,
) -> Option<PricedCurve<'a>>
    requires part_length { length part.now ≡ inst.now.market.assets }
    requires small { AreSmall inst.now.market.assets terms.slopes.now terms.bends.now }
    requires present { terms.present.now ≡ inst.now.present }
    requires constant { unsigned_abs constant ≤ most_constant }
    requires alpha { unsigned_abs alpha ≤ most_multiplier }
    requires most { most ≤ 3000000 }
    ensures curve { IfSome result
        (λ c. curve_of c.costs
        ≡ curve_at inst.now terms.entry.slopes.now terms.entry.bends.now alpha (pos 0) ByDistance part.now) }
    ensures fixed { IfSome result (λ c. c.fixed ≡ constant -ℤ (alpha *ℤ pos inst.now.lots)) }
    ensures limit { IfSome result (λ c. c.limit ≡ most) }
    ensures none { IsNone result ↔ IsFalse (can_meet part.now inst.now.held inst.now.held_most) }
{
    match cost_curve(inst, terms, part, alpha, 0, Varied::Distance) {
        Some(costs) => Some(PricedCurve {
            costs,
            fixed: less_limited(constant, alpha, u32::from(inst.lots())),
            limit: most,
        }),
        None => None,
    }
}
