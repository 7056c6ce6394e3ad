//! Least costs under a multiplier with the price of its limit.

ghost use Rattle.std.specs.Prelude.{◌≡◌, ◌↔◌, ℕ, ◌+◌, ◌*◌, ◌<◌, ◌≤◌, length, ℤ, pos, ◌+ℤ◌, ◌-ℤ◌, ◌*ℤ◌, unsigned_abs, IfSome, IsNone, IsFalse};
ghost use Rattle.gap_base.specs.Sizes.{most_multiplier, most_fixed, most_theta};
ghost use Rattle.gap_box.specs.Parts.{can_meet};
ghost use Rattle.gap_price.specs.Costs.{most_price};
ghost use Rattle.gap_price.specs.Curves.{varied_price};
ghost use Rattle.gap_price.specs.CurveOf.{curve_of};
ghost use Rattle.gap_tangent.specs.Lines.{IsCostLine};

use gap_lines::Line;
use gap_price::CostCurve;

/// A fixed number, less a multiplier times a limit, and the least cost of a part's lists under the multiplier.
#[derive(Drop)]
pub(crate) struct PricedCurve<'a> {
    pub(crate) costs: CostCurve<'a>,
    pub(crate) fixed: i128,
    pub(crate) limit: u32,
    pub ghost unvaried: { varied_price (curve_of costs) ≡ pos 0 },
    pub ghost fixed_small: { unsigned_abs fixed + most_multiplier * limit ≤ most_fixed },
    pub ghost limit_small: { limit ≤ 3000000 },
}

/// A multiplier times its limit.
pub(crate) fn limited(multiplier: i128, limit: u32) -> i128
    requires multiplier { unsigned_abs multiplier ≤ most_multiplier }
    requires limit { limit ≤ 3000000 }
    ensures value { result ≡ multiplier *ℤ pos limit }
    ensures small { unsigned_abs result ≤ most_multiplier * limit }
{
    multiplier * i128::from(limit)
}

/// The fixed number less the price of the limit, and the cost.
fn joined(fixed: i128, limited: i128, cost: i128) -> i128
    requires fixed { unsigned_abs fixed + unsigned_abs limited ≤ most_fixed }
    requires cost { unsigned_abs cost ≤ 256 * 23000000000000000000000000000000000 }
    ensures value { result ≡ (fixed -ℤ limited) +ℤ cost }
    ensures small { unsigned_abs result ≤ most_theta }
{
    fixed - limited + cost
}

/// A weight above the limit.
fn above(weight: i128, limit: u32) -> i128
    requires weight { unsigned_abs weight ≤ 256 * 10000 }
    requires limit { limit ≤ 3000000 }
    ensures value { result ≡ weight -ℤ pos limit }
    ensures small { unsigned_abs result ≤ 10000000 }
{
    weight - i128::from(limit)
}

impl<'a> PricedCurve<'a> {
    /// The line at a multiplier: the least there, and the weight of a list that has it less the limit.
    pub(crate) fn at(&self, multiplier: i128) -> Line
        requires { unsigned_abs multiplier ≤ most_multiplier }
        ensures place { result.place ≡ multiplier }
        ensures line { IsCostLine (curve_of self.now.costs) self.now.fixed self.now.limit result }
        ensures small { unsigned_abs result.value ≤ most_theta }
    {
        let chosen = self.costs.at(multiplier);
        let price = limited(multiplier, self.limit);
        Line {
            place: multiplier,
            value: joined(self.fixed, price, chosen.value),
            slope: above(chosen.slope, self.limit),
        }
    }
}
