//! A point of eighths of lots at which a tangent may be formed.

ghost use Rattle.std.specs.Prelude.{◌≡◌, ◌≢◌, ℕ, ◌<◌, ◌≤◌, length, slice_index_or, ℤ, unsigned_abs};
ghost use Rattle.gap_base.specs.Lots.{lots_at};
ghost use Rattle.gap_model.specs.Settings.{IsSetting};
ghost use Rattle.gap_model.specs.Leaves.{IsPoint};
ghost use Rattle.gap_tangent.specs.Seen.{setting_of};
ghost use Rattle.gap_tangent.specs.Points.{after_move};
ghost use Rattle.gap_tangent.specs.Terms.{gradient_of};

use crate::gradients::gradients_of;
use crate::mean_variance::MeanVariance;
use crate::moves::move_gradients;
use crate::rows::rows_of;
use gap_base::Eighths;
use std::marker::Model;

/// A point of a tangent bound: a number of eighths of a lot for each asset, all together at most 8L. It keeps for each
/// asset i the gradient `2p (Ay)_i - 8 a_i`, so that a tangent is made from it in O(N), and eighths go from one asset to
/// another in O(N). Contracts see it as a `PointValue`. It takes no memory beyond itself, about 5
/// kilobytes.
#[derive(Drop)]
pub struct Point<'m> {
    pub(crate) bound: &'m MeanVariance<'m>,
    pub(crate) eighths: Eighths,
    pub(crate) gradients: [i128; 256],
}

impl<'m> Model for Point<'m> {
    ghost use Rattle.gap_tangent.specs.Seen.{setting_of};
    ghost use Rattle.gap_tangent.specs.Points.{PointValue, IsKeptPoint};

    ghost Value = { PointValue };

    ghost view = { λ a. record { setting = setting_of a.bound.now; eighths = a.eighths } };

    ghost invariant = { λ a. IsKeptPoint (setting_of a.bound.now) a.eighths a.gradients };
}

impl<'m> Point<'m> {
    /// The point with these eighths. Costs O(N) for each asset with eighths, and O(N) more.
    pub fn at(bound: &'m MeanVariance<'m>, eighths: &Eighths) -> Point<'m>
        requires { IsPoint (setting_of bound.now).instance eighths.now }
        ensures { result ≡ record { setting = setting_of bound.now; eighths = eighths.now } }
    {
        let rows = rows_of(bound.instance, eighths);
        Point {
            bound,
            eighths: eighths.copy(),
            gradients: gradients_of(bound, eighths, &rows),
        }
    }

    /// The eighths. Its contract also says all that holds of every point.
    pub fn eighths(&self) -> &Eighths
        ensures value { result.now ≡ self.now.eighths }
        ensures point { IsPoint self.now.setting.instance self.now.eighths }
        ensures setting { IsSetting self.now.setting }
    {
        &self.eighths
    }

    /// The bound that the point is one of.
    pub fn bound(&self) -> &'m MeanVariance<'m>
        ensures { setting_of result.now ≡ self.now.setting }
    {
        self.bound
    }

    /// An equal point. It takes no memory.
    pub fn copy(&self) -> Point<'m>
        ensures { result ≡ self.now }
    {
        Point {
            bound: self.bound,
            eighths: self.eighths.copy(),
            gradients: self.gradients,
        }
    }

    /// The gradient at asset `i`: `2p (Ay)_i - 8 a_i`. Costs O(1).
    pub fn gradient(&self, i: u16) -> i128
        requires { i < self.now.setting.instance.market.assets }
        ensures value { result ≡ gradient_of self.now.setting (lots_at self.now.eighths) i }
        ensures small { unsigned_abs result ≤ 16250000000000000000000000000 }
    {
        self.gradients[usize::from(i)]
    }

    /// Moves `s` eighths from asset `i` to asset `j`, and nothing else. Costs O(N).
    pub fn give(&mut self, i: u16, j: u16, s: u32)
        requires giver { i < self.old.setting.instance.market.assets }
        requires taker { j < self.old.setting.instance.market.assets }
        requires apart { i ≢ j }
        requires enough { s ≤ slice_index_or self.old.eighths i 0 }
        ensures { self.new ≡ record self.old { eighths = after_move self.old.eighths s i j } }
    {
        move_gradients(self.bound, &mut self.gradients, i, j, s);
        let left = self.eighths.get(i) - s;
        let more = self.eighths.get(j) + s;
        self.eighths.set(i, left);
        self.eighths.set(j, more);
    }
}
