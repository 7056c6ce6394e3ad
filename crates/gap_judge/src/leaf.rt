//! The leaves of a section's tree.

ghost use Rattle.std.specs.Prelude.{◌≡◌, ◌≢◌, ◌↔◌, ◌<◌, [], drop, length, OnOk, IfErr, IfSome, IfNone, IsTrue, Some, ℤ, pos, ◌≤ℤ◌};
ghost use Rattle.gap_base.specs.declared.witness.Witness.{Witness};
ghost use Rattle.gap_model.specs.declared.shown.Shown.TheVariants.{Nothing, Empty};
ghost use Rattle.gap_cert.specs.Certificates.{count, void, tangent};
ghost use Rattle.gap_judge.specs.Progress.{first_part, with_shown, behind_shown, behind_leaf};
ghost use Rattle.gap_judge.specs.Faults.{EndsWell, IsLeafRight};
ghost use Rattle.gap_judge.specs.Kept.{IsKeptOver};
ghost use Rattle.gap_judge.specs.Ready.{IsLeafDue};
ghost use Rattle.gap_judge.specs.Stops.{IsLastStop, IsLeafStop, IsBasisOf, parts_or_none};
ghost use Rattle.gap_judge.specs.Courses.{progress_at};

use crate::basis::Basis;
use crate::course::Course;
use crate::ends::{judge_end, tell};
use crate::fault::fault;
use crate::head::Head;
use crate::kept::Kept;
use crate::shows::{lesser, meets_count, tangent_shown, void_theta_at};
use crate::stop::CertStop;
use crate::walk::Walk;
use gap_base::Witness;
use gap_box::Part;
use gap_model::{CertKind, Shown};

/// The part of the next node.
pub(crate) fn next_part(walk: &Option<Walk>) -> &Part
    requires { 0 < length (parts_or_none walk.now) }
    ensures { result.now ≡ first_part (parts_or_none walk.now) }
{
    walk.as_ref().unwrap().part().unwrap()
}

/// Goes past a leaf; is the tree whole?
fn leave(walk: &mut Option<Walk>) -> bool
    requires { 0 < length (parts_or_none walk.old) }
    ensures parts { parts_or_none walk.new ≡ drop 1 (parts_or_none walk.old) }
    ensures whole { IsTrue result ↔ (drop 1 (parts_or_none walk.old) ≡ []) }
{
    let walk = walk.as_mut().unwrap();
    walk.leaf();
    walk.part().is_none()
}

/// Goes past a leaf that shows so much, and judges the section where the leaf is its last.
fn pass(head: &Head, course: &mut Course, shown: Shown, behind: u64) -> Result<(), CertStop>
    requires there { 0 < length (parts_or_none course.old.walk) }
    requires some { course.old.least ≢ Nothing }
    requires shows { shown ≢ Nothing }
    ensures ok { OnOk result (progress_at head.now course.new ≡ behind_shown (progress_at head.now course.old) shown) }
    ensures ends { OnOk result
        (drop 1 (parts_or_none course.old.walk) ≡ [] → EndsWell (with_shown (progress_at head.now course.old) shown)) }
    ensures fault { IfErr result (IsLastStop (progress_at head.now course.old) shown behind) }
{
    course.least = lesser(course.least, shown);
    if leave(&mut course.walk) {
        judge_end(head, course, behind)?;
        tell(head, course)?;
    }
    Ok(())
}

/// A leaf that says that the count can't be met.
pub(crate) fn take_count(
    head: &Head,
    basis: &Basis,
    course: &mut Course,
    place: u64,
    behind: u64,
) -> Result<(), CertStop>
    requires basis { IsBasisOf head.now basis.now.instance basis.now.shift basis.now.root }
    requires due { IsLeafDue (progress_at head.now course.old) count }
    ensures ok { OnOk result (progress_at head.now course.new ≡ behind_leaf (progress_at head.now course.old) count) }
    ensures right { OnOk result (IsLeafRight (progress_at head.now course.old) count) }
    ensures fault { IfErr result (IsLeafStop (progress_at head.now course.old) count place behind) }
{
    if meets_count(basis, next_part(&course.walk)) {
        return fault(place, CertKind::Count);
    }
    pass(head, course, Shown::Empty, behind)
}

/// The theta, where it is at most 0.
fn at_most_zero(theta: Option<i128>) -> Option<i128>
    ensures some { IfSome result (λ t. (theta ≡ Some t) × (t ≤ℤ pos 0)) }
    ensures none { IfNone result ((t : ℤ) → theta ≡ Some t → t ≤ℤ pos 0 → ⊥) }
{
    match theta {
        Some(t) if t <= 0 => Some(t),
        _ => None,
    }
}

/// A leaf of the terms with `alpha` and `tau` alone.
pub(crate) fn take_void(
    head: &Head,
    basis: &Basis,
    course: &mut Course,
    alpha: i128,
    tau: i128,
    place: u64,
    behind: u64,
) -> Result<(), CertStop>
    requires basis { IsBasisOf head.now basis.now.instance basis.now.shift basis.now.root }
    requires due { IsLeafDue (progress_at head.now course.old) (void alpha tau) }
    ensures ok { OnOk result
        (progress_at head.now course.new ≡ behind_leaf (progress_at head.now course.old) (void alpha tau)) }
    ensures right { OnOk result (IsLeafRight (progress_at head.now course.old) (void alpha tau)) }
    ensures fault { IfErr result (IsLeafStop (progress_at head.now course.old) (void alpha tau) place behind) }
{
    let theta = void_theta_at(basis, course.weight, next_part(&course.walk), alpha, tau);
    if let Some(found) = at_most_zero(theta) {
        return fault(place, CertKind::Void { found });
    }
    pass(head, course, Shown::Empty, behind)
}

/// A leaf with a tangent point and multipliers; the products of its witness are kept.
pub(crate) fn take_tangent(
    head: &Head,
    basis: &Basis,
    kept: &mut Option<Kept>,
    course: &mut Course,
    w: &Witness,
    place: u64,
    behind: u64,
) -> Result<(), CertStop>
    requires basis { IsBasisOf head.now basis.now.instance basis.now.shift basis.now.root }
    requires kept { IsKeptOver basis.now.instance basis.now.shift kept.old }
    requires due { IsLeafDue (progress_at head.now course.old) (tangent w.now) }
    ensures kept { IsKeptOver basis.now.instance basis.now.shift kept.new }
    ensures ok { OnOk result
        (progress_at head.now course.new ≡ behind_leaf (progress_at head.now course.old) (tangent w.now)) }
    ensures right { OnOk result (IsLeafRight (progress_at head.now course.old) (tangent w.now)) }
    ensures fault { IfErr result (IsLeafStop (progress_at head.now course.old) (tangent w.now) place behind) }
{
    let _place = place;
    let shown = tangent_shown(basis, kept, course.weight, next_part(&course.walk), w);
    pass(head, course, shown, behind)
}
