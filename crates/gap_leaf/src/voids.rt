//! Void leaves: the multipliers alone say that a part has no list that meets the limits.

ghost use Rattle.std.specs.Prelude.{◌≡◌, Some, pos};
ghost use Rattle.gap_box.specs.Parts.{IsWithin, root_cells};
ghost use Rattle.gap_model.specs.Leaves.{AreMultipliers};
ghost use Rattle.gap_tangent.specs.Seen.{setting_of};
ghost use Rattle.gap_leaf.specs.Voids.{is_empty, is_void_empty, turned_void, first_void};

use crate::multipliers::Multipliers;
use gap_box::Part;
use gap_model::{Leaf, NodeBound, Shown};
use gap_tangent::MeanVariance;

/// Is what is shown that there is no list?
fn says_empty(shown: Shown) -> bool
    ensures { result ≡ is_empty shown }
{
    match shown {
        Shown::Nothing => false,
        Shown::AtLeast(_) => false,
        Shown::Empty => true,
    }
}

/// Does the void leaf show that the part has no list that meets the limits?
fn void_is_empty(mv: &MeanVariance<'_>, part: &Part, alpha: i128, tau: i128) -> bool
    requires within { IsWithin part.now
        (root_cells (setting_of mv.now).instance.least (setting_of mv.now).instance.greatest) }
    requires multipliers { AreMultipliers (setting_of mv.now).instance.turnover alpha tau }
    ensures { result ≡ is_void_empty (setting_of mv.now) part.now alpha tau }
{
    says_empty(mv.shown(
        part,
        &Leaf::Void {
            alpha,
            tau,
            third: 0,
        },
    ))
}

/// The first of the multipliers with 1 for the turnover, which is limited, whose void leaf shows so.
fn turned_void(mv: &MeanVariance<'_>, part: &Part, limit: u32) -> Option<Multipliers>
    requires within { IsWithin part.now
        (root_cells (setting_of mv.now).instance.least (setting_of mv.now).instance.greatest) }
    requires limited { (setting_of mv.now).instance.turnover ≡ Some limit }
    ensures { result ≡ turned_void (setting_of mv.now) part.now (Some limit) }
{
    if void_is_empty(mv, part, 0, 1) {
        return Some(Multipliers { alpha: 0, tau: 1 });
    }
    if void_is_empty(mv, part, 1, 1) {
        return Some(Multipliers { alpha: 1, tau: 1 });
    }
    if void_is_empty(mv, part, -1, 1) {
        return Some(Multipliers { alpha: -1, tau: 1 });
    }
    None
}

/// The first of the multipliers that are tried whose void leaf shows that the part has no list that meets the limits:
/// (1, 0), (-1, 0), and where the turnover is limited (0, 1), (1, 1), (-1, 1). Costs O(N) on average for each.
pub(crate) fn first_void(mv: &MeanVariance<'_>, part: &Part) -> Option<Multipliers>
    requires { IsWithin part.now (root_cells (setting_of mv.now).instance.least (setting_of mv.now).instance.greatest) }
    ensures { result ≡ first_void (setting_of mv.now) part.now }
{
    if void_is_empty(mv, part, 1, 0) {
        return Some(Multipliers { alpha: 1, tau: 0 });
    }
    if void_is_empty(mv, part, -1, 0) {
        return Some(Multipliers { alpha: -1, tau: 0 });
    }
    match mv.instance().turnover() {
        Some(limit) => turned_void(mv, part, limit),
        None => None,
    }
}
