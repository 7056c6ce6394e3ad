//! What the leaves of a certificate show on a part.

ghost use Rattle.std.specs.Prelude.{◌≡◌, ◌↔◌, IsTrue, Some};
ghost use Rattle.std.specs.Option.{ForSome};
ghost use Rattle.gap_base.specs.declared.witness.Witness.{Witness};
ghost use Rattle.gap_box.specs.Parts.{IsWithin, can_meet, root_cells};
ghost use Rattle.gap_model.specs.Leaves.{IsPoint, AreMultipliers};
ghost use Rattle.gap_model.specs.Theta.{void_theta};
ghost use Rattle.gap_cert.specs.Certificates.{tangent};
ghost use Rattle.gap_tangent.specs.Bounds.{setting_with};
ghost use Rattle.gap_tangent.specs.Seen.{setting_of};
ghost use Rattle.gap_tangent.specs.Kept.{kept_eighths, AreTermsOf};
ghost use Rattle.gap_valid.specs.CertTrees.{leaf_shows, lesser_shown, greater_shown, overall_shows};
ghost use Rattle.gap_judge.specs.Kept.{IsKeptOver};
ghost use Rattle.gap_judge.specs.Stops.{IsSound};

use crate::basis::Basis;
use crate::kept::Kept;
use gap_base::{Eighths, Weight, Witness};
use gap_box::Part;
use gap_model::Shown;
use gap_tangent::{MeanVariance, Tangent, void_theta};

/// Can the part meet the count?
pub(crate) fn meets_count(basis: &Basis, part: &Part) -> bool
    ensures { result ≡ can_meet part.now basis.now.instance.held basis.now.instance.held_most }
{
    part.count_within(basis.instance.held(), basis.instance.held_most())
}

/// The theta of a void leaf on the part. Costs O(N log N).
pub(crate) fn void_theta_at(
    basis: &Basis,
    weight: Weight,
    part: &Part,
    alpha: i128,
    tau: i128,
) -> Option<i128>
    requires sound { IsSound basis.now.instance basis.now.shift weight }
    requires within { IsWithin part.now (root_cells basis.now.instance.least basis.now.instance.greatest) }
    requires multipliers { AreMultipliers basis.now.instance.turnover alpha tau }
    ensures { result ≡ void_theta (setting_with basis.now.instance basis.now.shift weight) part.now alpha tau }
{
    let bound = MeanVariance::new(&basis.instance, &basis.shift, weight);
    void_theta(&bound, part, alpha, tau)
}

/// Is what is kept of this weight and of this point? It costs one pass.
fn is_kept(kept: &Kept, weight: Weight, y: &Eighths) -> bool
    ensures { IsTrue result ↔ ((kept.now.weight ≡ weight) × (kept_eighths kept.now.terms ≡ y.now)) }
{
    kept.weight == weight && kept.terms.is_at(y)
}

/// The tangent at `y`: from what is kept where that is of this weight and this point, in O(N); else formed anew, in O(N)
/// for each asset with eighths.
fn tangent_at<'m>(
    bound: &'m MeanVariance<'m>,
    weight: Weight,
    kept: &Option<Kept>,
    y: &Eighths,
) -> Tangent<'m>
    requires kept { ForSome kept.now (λ k. k.weight ≡ weight → AreTermsOf (setting_of bound.now) k.terms) }
    requires point { IsPoint (setting_of bound.now).instance y.now }
    ensures { result ≡ record { setting = setting_of bound.now; eighths = y.now } }
{
    match kept {
        Some(kept) if is_kept(kept, weight, y) => Tangent::from_terms(bound, &kept.terms),
        _ => Tangent::at(bound, y),
    }
}

/// What a tangent leaf shows on the part; its products are kept. Costs O(N log N), and O(N) more for each asset with
/// eighths where what was kept is of another point.
#[tactic(auto, using(crate::proofs::JudgeLaws::kept_for), unfolding(gap_valid::specs::CertTrees::leaf_shows))]
pub(crate) fn tangent_shown(
    basis: &Basis,
    kept: &mut Option<Kept>,
    weight: Weight,
    part: &Part,
    w: &Witness,
) -> Shown
    requires sound { IsSound basis.now.instance basis.now.shift weight }
    requires kept { IsKeptOver basis.now.instance basis.now.shift kept.old }
    requires within { IsWithin part.now (root_cells basis.now.instance.least basis.now.instance.greatest) }
    requires point { IsPoint basis.now.instance w.now.y }
    requires multipliers { AreMultipliers basis.now.instance.turnover w.now.alpha w.now.tau }
    ensures shown { result
        ≡ leaf_shows (setting_with basis.now.instance basis.now.shift weight) part.now (tangent w.now) }
    ensures kept { IsKeptOver basis.now.instance basis.now.shift kept.new }
{
    let bound = MeanVariance::new(&basis.instance, &basis.shift, weight);
    let tangent = tangent_at(&bound, weight, kept, &w.y);
    let theta = tangent.theta(part, w.alpha, w.tau);
    let terms = tangent.terms();
    *kept = Some(Kept { weight, terms });
    Shown::of_tangent(theta)
}

/// The lesser of two things shown.
pub(crate) fn lesser(a: Shown, b: Shown) -> Shown
    ensures { result ≡ lesser_shown a b }
{
    match (a, b) {
        (Shown::Nothing, _) => Shown::Nothing,
        (Shown::AtLeast(_), Shown::Nothing) => Shown::Nothing,
        (Shown::AtLeast(v), Shown::AtLeast(w)) => Shown::AtLeast(v.min(w)),
        (Shown::AtLeast(v), Shown::Empty) => Shown::AtLeast(v),
        (Shown::Empty, _) => b,
    }
}

/// The greater of two things shown.
pub(crate) fn greater(a: Shown, b: Shown) -> Shown
    ensures { result ≡ greater_shown a b }
{
    match (a, b) {
        (Shown::Nothing, _) => b,
        (Shown::AtLeast(v), Shown::Nothing) => Shown::AtLeast(v),
        (Shown::AtLeast(v), Shown::AtLeast(w)) => Shown::AtLeast(v.max(w)),
        (Shown::AtLeast(_), Shown::Empty) => Shown::Empty,
        (Shown::Empty, _) => Shown::Empty,
    }
}
