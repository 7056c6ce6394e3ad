//! The tangent bound at one point, for any multipliers.

ghost use Rattle.std.specs.Prelude.{◌≡◌, ◌<◌, ◌≤◌, ◌↔◌, ℤ, pos, IfSome, IsNone, IsSome, IsFalse, unsigned_abs};
ghost use Rattle.gap_base.specs.Lots.{lots_at};
ghost use Rattle.gap_base.specs.Sizes.{most_theta};
ghost use Rattle.gap_box.specs.Parts.{can_meet, IsWithin, root_cells};
ghost use Rattle.gap_model.specs.Settings.{IsSetting};
ghost use Rattle.gap_model.specs.Leaves.{IsPoint};
ghost use Rattle.gap_tangent.specs.Seen.{setting_of};

use crate::constants::constant_of;
use crate::mean_variance::MeanVariance;
use crate::point::Point;
use crate::slopes::slopes_of;
use gap_base::Eighths;
use std::marker::Model;

/// The tangent of a bound at one point: what theta owes to the point alone, kept while multipliers vary. Contracts see it
/// as its point, a `PointValue`. It takes no memory beyond itself, about 5 kilobytes.
#[derive(Drop)]
pub struct Tangent<'m> {
    pub(crate) bound: &'m MeanVariance<'m>,
    pub(crate) eighths: Eighths,
    pub(crate) slopes: [i128; 256],
    pub(crate) constant: i128,
}

impl<'m> Model for Tangent<'m> {
    ghost use Rattle.gap_tangent.specs.Seen.{setting_of};
    ghost use Rattle.gap_tangent.specs.Points.{PointValue, IsKeptTangent};

    ghost Value = { PointValue };

    ghost view = { λ a. record { setting = setting_of a.bound.now; eighths = a.eighths } };

    ghost invariant = { λ a. IsKeptTangent (setting_of a.bound.now) a.eighths a.bound.now.bends a.slopes a.constant };
}

impl<'m> Tangent<'m> {
    /// The tangent at `y`: the products `Ay`, `y'Ay` and what each asset's lots cost before any multiplier. Costs O(N)
    /// for each asset with eighths, and O(N) more.
    pub fn at(bound: &'m MeanVariance<'m>, y: &Eighths) -> Tangent<'m>
        requires { IsPoint (setting_of bound.now).instance y.now }
        ensures { result ≡ record { setting = setting_of bound.now; eighths = y.now } }
    {
        Tangent::of(&Point::at(bound, y))
    }

    /// The tangent at a point whose products are kept. Costs O(N).
    pub fn of(point: &Point<'m>) -> Tangent<'m>
        ensures { result ≡ point.now }
    {
        Tangent {
            bound: point.bound,
            eighths: point.eighths.copy(),
            slopes: slopes_of(point),
            constant: constant_of(point.bound, &point.eighths, &point.gradients),
        }
    }

    /// The eighths of the point. Its contract also says all that holds of every tangent.
    pub fn eighths(&self) -> &Eighths
        ensures value { result.now ≡ self.now.eighths }
        ensures point { IsPoint self.now.setting.instance self.now.eighths }
        ensures setting { IsSetting self.now.setting }
    {
        &self.eighths
    }
}
