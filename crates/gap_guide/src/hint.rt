//! The witness that a tangent leaf is.

ghost use Rattle.std.specs.Prelude.{◌≡◌, true, false, IfSome, IsNone};
ghost use Rattle.gap_model.specs.Leaves.{in_range};
ghost use Rattle.gap_model.specs.Tight.{is_tangent};
ghost use Rattle.gap_tangent.specs.Seen.{setting_of};
ghost use Rattle.gap_leaf.specs.Finding.{IsWitness};
ghost use Rattle.gap_guide.specs.Hints.{IsTangentOf};

use gap_base::Witness;
use gap_model::Leaf;
use gap_tangent::{MeanVariance, point_from};

/// The witness that a leaf of a bound is; None exactly where the leaf is no tangent. Costs O(N), and takes no memory.
pub fn witness_of(bound: &MeanVariance<'_>, leaf: &Leaf<'_>) -> Option<Witness>
    requires { in_range (setting_of bound.now) leaf.now ≡ true }
    ensures tangent { IfSome result (IsTangentOf (setting_of bound.now).instance.market.assets leaf.now) }
    ensures in_range { IfSome result (IsWitness (setting_of bound.now)) }
    ensures none { IsNone result → is_tangent leaf.now ≡ false }
{
    match *leaf {
        Leaf::Tangent { y, alpha, tau, .. } => Some(Witness {
            y: point_from(bound.instance().n(), y),
            alpha,
            tau,
        }),
        _ => None,
    }
}
