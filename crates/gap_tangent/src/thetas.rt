//! Theta at a witness, and by the multipliers alone.

ghost use Rattle.std.specs.Prelude.{◌≡◌, ◌<◌, ◌≤◌, IfSome, unsigned_abs};
ghost use Rattle.gap_base.specs.Lots.{lots_at};
ghost use Rattle.gap_base.specs.Sizes.{most_theta};
ghost use Rattle.gap_box.specs.Parts.{IsWithin, root_cells};
ghost use Rattle.gap_model.specs.Leaves.{IsPoint, AreMultipliers};
ghost use Rattle.gap_model.specs.Theta.{theta, void_theta};
ghost use Rattle.gap_tangent.specs.Seen.{setting_of};

use crate::lagrangian::{Terms, lots_curve};
use crate::mean_variance::MeanVariance;
use crate::tangent::Tangent;
use gap_base::Witness;
use gap_box::Part;

/// Theta of the part at the witness: the least of the Lagrangian over the lists of the part that hold from K1 to K2 assets,
/// which need not have the sum L. None exactly where the count can't be met. It takes no memory. Costs O(N) for each
/// asset with eighths and O(N log N) more; `Tangent` keeps what the point alone gives where multipliers vary.
pub fn theta(mv: &MeanVariance<'_>, part: &Part, w: &Witness) -> Option<i128>
    requires within { IsWithin part.now
        (root_cells (setting_of mv.now).instance.least (setting_of mv.now).instance.greatest) }
    requires point { IsPoint (setting_of mv.now).instance w.now.y }
    requires multipliers { AreMultipliers (setting_of mv.now).instance.turnover w.now.alpha w.now.tau }
    ensures value { result ≡ theta (setting_of mv.now) part.now (lots_at w.now.y) w.now.alpha w.now.tau }
    ensures small { IfSome result (λ t. unsigned_abs t ≤ most_theta) }
{
    Tangent::at(mv, &w.y).theta(part, w.alpha, w.tau)
}

/// The least of the terms with `alpha` and `tau` alone over the lists of the part that hold from K1 to K2 assets. None
/// exactly where the count can't be met. It takes no memory. Costs O(N log N) at most.
pub fn void_theta(mv: &MeanVariance<'_>, part: &Part, alpha: i128, tau: i128) -> Option<i128>
    requires within { IsWithin part.now
        (root_cells (setting_of mv.now).instance.least (setting_of mv.now).instance.greatest) }
    requires multipliers { AreMultipliers (setting_of mv.now).instance.turnover alpha tau }
    ensures value { result ≡ void_theta (setting_of mv.now) part.now alpha tau }
    ensures small { IfSome result (λ t. unsigned_abs t ≤ most_theta) }
{
    let _cells = part.len();
    let _assets = mv.instance.n();
    let zeros = [0; 256];
    let terms = Terms {
        slopes: &zeros,
        bends: &zeros,
        present: &mv.present,
    };
    match lots_curve(mv.instance, terms, 0, part, tau) {
        Some(curve) => Some(curve.at(alpha).value),
        None => None,
    }
}
