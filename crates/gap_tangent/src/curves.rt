//! Theta of a part at a point as a curve over one multiplier.

ghost use Rattle.std.specs.Prelude.{ℕ, List, ℤ};
ghost use Rattle.gap_base.specs.Lots.{lots_at};
ghost use Rattle.gap_model.specs.Lagrangian.{lag};
ghost use Rattle.gap_price.specs.CurveOf.{curve_of};
ghost use Rattle.gap_tangent.specs.Lines.{IsCurveOf};

use crate::priced::PricedCurve;
use crate::tangent::Tangent;
use gap_box::Part;

/// Theta over the multiplier of the sum of lots. What the candidates of each cell cost is kept, so a line of it costs
/// one choice of the cells to hold.
#[derive(Drop)]
pub struct AlphaCurve<'a> {
    pub(crate) tangent: &'a Tangent<'a>,
    pub(crate) part: &'a Part,
    pub(crate) tau: i128,
    pub(crate) priced: PricedCurve<'a>,
    pub ghost kept: { IsCurveOf (λ (m : ℤ) (x : List ℕ). lag tangent.now.setting (lots_at tangent.now.eighths) m tau
        x) part.now tangent.now.setting.instance.held tangent.now.setting.instance.held_most (curve_of priced.costs)
        priced.fixed priced.limit },
}

/// Theta over the multiplier of the turnover, where a limit is set. What the candidates of each cell cost is kept, so a
/// line of it costs one choice of the cells to hold.
#[derive(Drop)]
pub struct TauCurve<'a> {
    pub(crate) tangent: &'a Tangent<'a>,
    pub(crate) part: &'a Part,
    pub(crate) alpha: i128,
    pub(crate) priced: PricedCurve<'a>,
    pub ghost kept: { IsCurveOf (λ (m : ℤ) (x : List ℕ). lag tangent.now.setting (lots_at tangent.now.eighths) alpha m
        x) part.now tangent.now.setting.instance.held tangent.now.setting.instance.held_most (curve_of priced.costs)
        priced.fixed priced.limit },
}
