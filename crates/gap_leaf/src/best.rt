//! The multipliers under which theta is greatest.

ghost use Rattle.std.specs.Prelude.{◌≡◌, ◌≤◌, true, ℤ, pos, negsuc, neg_ℤ, ◌≤ℤ◌, IsSome, unsigned_abs};
ghost use Rattle.gap_base.specs.Lots.{lots_at};
ghost use Rattle.gap_base.specs.Sizes.{most_multiplier};
ghost use Rattle.gap_box.specs.Parts.{can_meet, IsWithin, root_cells};
ghost use Rattle.gap_lines.specs.Lines.{IsLine, IsBest};
ghost use Rattle.gap_model.specs.Leaves.{IsPoint, AreMultipliers};
ghost use Rattle.gap_tangent.specs.Lines.{alpha_curve, tau_curve};
ghost use Rattle.gap_tangent.specs.Seen.{setting_of};

use gap_base::Eighths;
use gap_box::Part;
use gap_lines::{Line, best_place};
use gap_tangent::{MeanVariance, Tangent};

/// The greatest size of a multiplier.
const MOST: i128 = 1_000_000_000_000_000_000_000_000_000_000;

/// The first step of a search from a multiplier: a small part of it, and no less than what a lot costs.
fn stride_from(start: i128) -> i128
    requires { unsigned_abs start ≤ most_multiplier }
    ensures { unsigned_abs result ≤ most_multiplier }
{
    (start / 64).max(-start / 64).max(1_000_000_000_000_000)
}

/// The line of theta over alpha at the best alpha, looked for from `start`.
pub(crate) fn best_alpha_from(tangent: &Tangent<'_>, part: &Part, tau: i128, start: i128) -> Line
    requires within { IsWithin part.now
        (root_cells tangent.now.setting.instance.least tangent.now.setting.instance.greatest) }
    requires counted { can_meet part.now tangent.now.setting.instance.held tangent.now.setting.instance.held_most ≡ true }
    requires tau { AreMultipliers tangent.now.setting.instance.turnover (pos 0) tau }
    requires start { unsigned_abs start ≤ most_multiplier }
    ensures line { IsLine (alpha_curve tangent.now.setting part.now (lots_at tangent.now.eighths) tau) result }
    ensures best { IsBest (alpha_curve tangent.now.setting part.now (lots_at tangent.now.eighths) tau)
        (neg_ℤ (pos most_multiplier)) (pos most_multiplier) result.place }
{
    match tangent.alpha_curve(part, tau) {
        Some(curve) => best_place(&curve, -MOST, MOST, start, stride_from(start)),
        None => unreachable!(),
    }
}

/// The line of theta over tau at the best tau, looked for from `start`.
pub(crate) fn best_tau_from(tangent: &Tangent<'_>, part: &Part, alpha: i128, start: i128) -> Line
    requires within { IsWithin part.now
        (root_cells tangent.now.setting.instance.least tangent.now.setting.instance.greatest) }
    requires counted { can_meet part.now tangent.now.setting.instance.held tangent.now.setting.instance.held_most ≡ true }
    requires limited { IsSome tangent.now.setting.instance.turnover }
    requires alpha { unsigned_abs alpha ≤ most_multiplier }
    requires start { unsigned_abs start ≤ most_multiplier }
    requires start_least { pos 0 ≤ℤ start }
    ensures line { IsLine (tau_curve tangent.now.setting part.now (lots_at tangent.now.eighths) alpha) result }
    ensures best { IsBest (tau_curve tangent.now.setting part.now (lots_at tangent.now.eighths) alpha) (pos 0)
        (pos most_multiplier) result.place }
{
    match tangent.tau_curve(part, alpha) {
        Some(curve) => best_place(&curve, 0, MOST, start, stride_from(start)),
        None => unreachable!(),
    }
}

/// The best alpha for a point and a tau: of all of at most 10^30 in size, the one under which theta of the part is greatest,
/// and of equal ones the one nearest to 0. It takes no memory, and costs some ten thetas.
pub fn best_alpha(mv: &MeanVariance<'_>, part: &Part, y: &Eighths, tau: i128) -> i128
    requires within { IsWithin part.now
        (root_cells (setting_of mv.now).instance.least (setting_of mv.now).instance.greatest) }
    requires counted { can_meet part.now (setting_of mv.now).instance.held (setting_of mv.now).instance.held_most ≡ true }
    requires point { IsPoint (setting_of mv.now).instance y.now }
    requires tau { AreMultipliers (setting_of mv.now).instance.turnover (pos 0) tau }
    ensures { IsBest (alpha_curve (setting_of mv.now) part.now (lots_at y.now) tau) (neg_ℤ (pos most_multiplier))
        (pos most_multiplier) result }
{
    best_alpha_from(&Tangent::at(mv, y), part, tau, 0).place
}

/// The best tau for a point and an alpha, where the turnover is limited: of all from 0 to 10^30, the least under which theta
/// of the part is greatest. It takes no memory, and costs some ten thetas.
pub fn best_tau(mv: &MeanVariance<'_>, part: &Part, y: &Eighths, alpha: i128) -> i128
    requires within { IsWithin part.now
        (root_cells (setting_of mv.now).instance.least (setting_of mv.now).instance.greatest) }
    requires counted { can_meet part.now (setting_of mv.now).instance.held (setting_of mv.now).instance.held_most ≡ true }
    requires limited { IsSome (setting_of mv.now).instance.turnover }
    requires point { IsPoint (setting_of mv.now).instance y.now }
    requires alpha { unsigned_abs alpha ≤ most_multiplier }
    ensures { IsBest (tau_curve (setting_of mv.now) part.now (lots_at y.now) alpha) (pos 0) (pos most_multiplier) result }
{
    best_tau_from(&Tangent::at(mv, y), part, alpha, 0).place
}
