//! Theta over one multiplier: its value, and the slope of a line that is nowhere below it.

ghost use Rattle.std.specs.Prelude.{◌≡◌, ℕ, ◌<◌, ◌≤◌, ◌↔◌, Some, None, List, ℤ, pos, unsigned_abs, IfSome, IsSome, IsNone, IsFalse};
ghost use Rattle.gap_base.specs.Lots.{lots_at};
ghost use Rattle.gap_base.specs.Sizes.{most_multiplier, most_theta};
ghost use Rattle.gap_box.specs.Parts.{can_meet, IsWithin, root_cells};
ghost use Rattle.gap_lines.specs.Lines.{IsLine};
ghost use Rattle.gap_model.specs.Leaves.{AreMultipliers};
ghost use Rattle.gap_model.specs.Theta.{theta};
ghost use Rattle.gap_tangent.specs.Lines.{alpha_curve, tau_curve};
ghost use Rattle.gap_tangent.specs.Curves.{alpha_value, tau_value};

use crate::curves::{AlphaCurve, TauCurve};
use crate::lagrangian::{Terms, lots_curve, turnover_curve};
use crate::tangent::Tangent;
use gap_box::Part;
use gap_instance::Instance;
use gap_lines::{Curve, Line};

impl<'a> AlphaCurve<'a> {
    /// The line at `alpha` through theta, nowhere below it: theta, and the lots of a list that has it less L. It takes no
    /// memory, and costs O(N log N) at most, O(N) on average.
    pub fn at(&self, alpha: i128) -> Line
        requires { unsigned_abs alpha ≤ most_multiplier }
        ensures place { result.place ≡ alpha }
        ensures line { IsLine (alpha_value self.now) result }
        ensures small { unsigned_abs result.value ≤ most_theta }
    {
        let _cells = self.part.len();
        self.priced.at(alpha)
    }
}

impl<'a> Curve for AlphaCurve<'a> {
    ghost use Rattle.gap_tangent.specs.Curves.{alpha_value};

    ghost value = { λ c. alpha_value c };

    fn probe(&self, t: i128) -> Line {
        self.at(t)
    }
}

impl<'a> TauCurve<'a> {
    /// The line at `tau` through theta, nowhere below it: theta, and the turnover of a list that has it less the limit. It
    /// takes no memory, and costs O(N log N) at most, O(N) on average.
    pub fn at(&self, tau: i128) -> Line
        requires { unsigned_abs tau ≤ most_multiplier }
        ensures place { result.place ≡ tau }
        ensures line { IsLine (tau_value self.now) result }
        ensures small { unsigned_abs result.value ≤ most_theta }
    {
        let _cells = self.part.len();
        self.priced.at(tau)
    }
}

impl<'a> Curve for TauCurve<'a> {
    ghost use Rattle.gap_tangent.specs.Curves.{tau_value};

    ghost value = { λ c. tau_value c };

    fn probe(&self, t: i128) -> Line {
        self.at(t)
    }
}

/// The turnover limit, where one is set.
fn turnover_limit(inst: &Instance) -> u32
    requires { IsSome inst.now.turnover }
    ensures value { inst.now.turnover ≡ Some result }
    ensures small { result ≤ 3000000 }
{
    match inst.turnover() {
        Some(most) => most,
        None => unreachable!(),
    }
}

impl<'m> Tangent<'m> {
    /// Theta of the part as a curve over alpha, for one `tau`. None exactly where the count can't be met. It takes no
    /// memory beyond itself, and costs O(N).
    pub fn alpha_curve<'a>(&'a self, part: &'a Part, tau: i128) -> Option<AlphaCurve<'a>>
        requires within { IsWithin part.now (root_cells self.now.setting.instance.least self.now.setting.instance.greatest) }
        requires tau { AreMultipliers self.now.setting.instance.turnover (pos 0) tau }
        ensures some { IfSome result
            (λ c. alpha_value c ≡ alpha_curve self.now.setting part.now (lots_at self.now.eighths) tau) }
        ensures none { IsNone result
            ↔ IsFalse (can_meet part.now self.now.setting.instance.held self.now.setting.instance.held_most) }
    {
        let _cells = part.len();
        let inst = self.bound.instance;
        let terms = Terms {
            slopes: &self.slopes,
            bends: &self.bound.bends,
            present: &self.bound.present,
        };
        match lots_curve(inst, terms, self.constant, part, tau) {
            Some(priced) => Some(AlphaCurve {
                tangent: self,
                part,
                tau,
                priced,
            }),
            None => None,
        }
    }

    /// Theta of the part as a curve over tau, for one `alpha`, where the turnover is limited. None exactly where the count
    /// can't be met. It takes no memory beyond itself, and costs O(N).
    pub fn tau_curve<'a>(&'a self, part: &'a Part, alpha: i128) -> Option<TauCurve<'a>>
        requires within { IsWithin part.now (root_cells self.now.setting.instance.least self.now.setting.instance.greatest) }
        requires limited { IsSome self.now.setting.instance.turnover }
        requires alpha { unsigned_abs alpha ≤ most_multiplier }
        ensures some { IfSome result
            (λ c. tau_value c ≡ tau_curve self.now.setting part.now (lots_at self.now.eighths) alpha) }
        ensures none { IsNone result
            ↔ IsFalse (can_meet part.now self.now.setting.instance.held self.now.setting.instance.held_most) }
    {
        let _cells = part.len();
        let inst = self.bound.instance;
        let terms = Terms {
            slopes: &self.slopes,
            bends: &self.bound.bends,
            present: &self.bound.present,
        };
        let most = turnover_limit(inst);
        match turnover_curve(inst, terms, self.constant, part, alpha, most) {
            Some(priced) => Some(TauCurve {
                tangent: self,
                part,
                alpha,
                priced,
            }),
            None => None,
        }
    }

    /// The line at `alpha` through theta of the part as a curve over alpha, which is nowhere below it: theta, and the lots
    /// of a list that has it less L. None exactly where the count can't be met. It takes no memory, and costs O(N log N)
    /// at most, O(N) on average; `alpha_curve` keeps what further lines share.
    pub fn line_in_alpha(&self, part: &Part, alpha: i128, tau: i128) -> Option<Line>
        requires within { IsWithin part.now (root_cells self.now.setting.instance.least self.now.setting.instance.greatest) }
        requires multipliers { AreMultipliers self.now.setting.instance.turnover alpha tau }
        ensures place { IfSome result (λ l. l.place ≡ alpha) }
        ensures line { IfSome result (IsLine (alpha_curve self.now.setting part.now (lots_at self.now.eighths) tau)) }
        ensures small { IfSome result (λ l. unsigned_abs l.value ≤ most_theta) }
        ensures none { IsNone result
            ↔ IsFalse (can_meet part.now self.now.setting.instance.held self.now.setting.instance.held_most) }
    {
        match self.alpha_curve(part, tau) {
            Some(curve) => Some(curve.at(alpha)),
            None => None,
        }
    }

    /// Theta of the part under these multipliers: the least of the Lagrangian over the lists of the part that hold
    /// K1 to K2 assets. None exactly where the count can't be met. It takes no memory, and costs O(N log N) at most, O(N)
    /// on average. No sum reaches 10^37.
    pub fn theta(&self, part: &Part, alpha: i128, tau: i128) -> Option<i128>
        requires within { IsWithin part.now (root_cells self.now.setting.instance.least self.now.setting.instance.greatest) }
        requires multipliers { AreMultipliers self.now.setting.instance.turnover alpha tau }
        ensures value { result ≡ theta self.now.setting part.now (lots_at self.now.eighths) alpha tau }
        ensures small { IfSome result (λ t. unsigned_abs t ≤ most_theta) }
    {
        let _cells = part.len();
        let _point = self.eighths();
        match self.line_in_alpha(part, alpha, tau) {
            Some(line) => Some(line.value),
            None => None,
        }
    }
}
