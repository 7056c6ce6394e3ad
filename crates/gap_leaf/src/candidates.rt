//! The witnesses that a tangent leaf is made of.

ghost use Rattle.std.specs.Prelude.{◌≡◌, ◌⊎◌, ◌≤◌, true, IsSome, IsTrue, ℤ, pos, ◌≤ℤ◌, unsigned_abs};
ghost use Rattle.gap_base.specs.Lots.{lots_at};
ghost use Rattle.gap_base.specs.Sizes.{most_multiplier};
ghost use Rattle.gap_box.specs.Parts.{can_meet, IsWithin, root_cells};
ghost use Rattle.gap_model.specs.Leaves.{AreMultipliers};
ghost use Rattle.gap_tangent.specs.Lines.{alpha_curve};
ghost use Rattle.gap_tangent.specs.Seen.{setting_of};
ghost use Rattle.gap_witness.specs.Having.{HasTangentPoint};
ghost use Rattle.gap_leaf.specs.Candidates.{theta_at, AreBestAt, IsMostAt, IsCandidate};

use crate::best::{best_alpha_from, best_tau_from};
use gap_base::{Eighths, Witness};
use gap_box::Part;
use gap_tangent::{MeanVariance, Tangent};
use gap_witness::kept_tangent_point;

/// Multipliers with theta there.
#[derive(Clone, Copy)]
pub(crate) struct Priced {
    pub(crate) alpha: i128,
    pub(crate) tau: i128,
    pub(crate) theta: i128,
}

/// New multipliers of a tangent where the turnover isn't limited: the best alpha, looked for from `alpha`.
fn plain_multipliers(tangent: &Tangent<'_>, part: &Part, alpha: i128) -> Priced
    requires within { IsWithin part.now
        (root_cells tangent.now.setting.instance.least tangent.now.setting.instance.greatest) }
    requires counted { can_meet part.now tangent.now.setting.instance.held tangent.now.setting.instance.held_most ≡ true }
    requires alpha { unsigned_abs alpha ≤ most_multiplier }
    ensures { AreBestAt tangent.now.setting part.now (lots_at tangent.now.eighths) result.alpha result.tau result.theta }
{
    let line = best_alpha_from(tangent, part, 0, alpha);
    Priced {
        alpha: line.place,
        tau: 0,
        theta: line.value,
    }
}

/// New multipliers of a tangent where the turnover is limited: alpha is best for no price of the turnover, tau for this
/// alpha, and then alpha for this tau. They are looked for from `alpha` and `tau`.
fn turned_multipliers(tangent: &Tangent<'_>, part: &Part, alpha: i128, tau: i128) -> Priced
    requires within { IsWithin part.now
        (root_cells tangent.now.setting.instance.least tangent.now.setting.instance.greatest) }
    requires counted { can_meet part.now tangent.now.setting.instance.held tangent.now.setting.instance.held_most ≡ true }
    requires limited { IsSome tangent.now.setting.instance.turnover }
    requires alpha { unsigned_abs alpha ≤ most_multiplier }
    requires tau { unsigned_abs tau ≤ most_multiplier }
    requires tau_least { pos 0 ≤ℤ tau }
    ensures { AreBestAt tangent.now.setting part.now (lots_at tangent.now.eighths) result.alpha result.tau result.theta }
{
    let first = best_alpha_from(tangent, part, 0, alpha);
    let turned = best_tau_from(tangent, part, first.place, tau);
    let last = best_alpha_from(tangent, part, turned.place, first.place);
    Priced {
        alpha: last.place,
        tau: turned.place,
        theta: last.value,
    }
}

/// New multipliers of a tangent, looked for from `alpha` and `tau`.
fn new_multipliers(
    mv: &MeanVariance<'_>,
    tangent: &Tangent<'_>,
    part: &Part,
    alpha: i128,
    tau: i128,
) -> Priced
    requires same { tangent.now.setting ≡ setting_of mv.now }
    requires within { IsWithin part.now
        (root_cells tangent.now.setting.instance.least tangent.now.setting.instance.greatest) }
    requires counted { can_meet part.now tangent.now.setting.instance.held tangent.now.setting.instance.held_most ≡ true }
    requires multipliers { AreMultipliers tangent.now.setting.instance.turnover alpha tau }
    ensures { AreBestAt tangent.now.setting part.now (lots_at tangent.now.eighths) result.alpha result.tau result.theta }
{
    match mv.instance().turnover() {
        Some(_) => turned_multipliers(tangent, part, alpha, tau),
        None => plain_multipliers(tangent, part, alpha),
    }
}

/// Theta of the part under these multipliers.
fn theta_of(tangent: &Tangent<'_>, part: &Part, alpha: i128, tau: i128) -> i128
    requires within { IsWithin part.now
        (root_cells tangent.now.setting.instance.least tangent.now.setting.instance.greatest) }
    requires counted { can_meet part.now tangent.now.setting.instance.held tangent.now.setting.instance.held_most ≡ true }
    requires multipliers { AreMultipliers tangent.now.setting.instance.turnover alpha tau }
    ensures value { result ≡ alpha_curve tangent.now.setting part.now (lots_at tangent.now.eighths) tau alpha }
    ensures small { unsigned_abs result ≤ 10000000000000000000000000000000000000 }
{
    match tangent.line_in_alpha(part, alpha, tau) {
        Some(line) => line.value,
        None => unreachable!(),
    }
}

/// The better of multipliers and new ones, the new ones where they are equal.
fn better(kept: Priced, new: Priced) -> Priced
    ensures which { (result ≡ kept) ⊎ (result ≡ new) }
    ensures kept_less { kept.theta ≤ℤ result.theta }
    ensures new_less { new.theta ≤ℤ result.theta }
{
    if new.theta < kept.theta { kept } else { new }
}

/// Where the turnover is limited: the multipliers that are given, or new ones where these are no worse.
fn better_turned(tangent: &Tangent<'_>, part: &Part, alpha: i128, tau: i128) -> Priced
    requires within { IsWithin part.now
        (root_cells tangent.now.setting.instance.least tangent.now.setting.instance.greatest) }
    requires counted { can_meet part.now tangent.now.setting.instance.held tangent.now.setting.instance.held_most ≡ true }
    requires limited { IsSome tangent.now.setting.instance.turnover }
    requires multipliers { AreMultipliers tangent.now.setting.instance.turnover alpha tau }
    ensures best { AreBestAt tangent.now.setting part.now (lots_at tangent.now.eighths) result.alpha result.tau
        result.theta }
    ensures no_less { alpha_curve tangent.now.setting part.now (lots_at tangent.now.eighths) tau alpha ≤ℤ result.theta }
{
    let new = turned_multipliers(tangent, part, alpha, tau);
    let theta = theta_of(tangent, part, alpha, tau);
    better(Priced { alpha, tau, theta }, new)
}

/// The multipliers of a tangent that are kept: those given, or new ones where these are no worse. Where the turnover isn't
/// limited new ones never are, so theta isn't asked at those given.
pub(crate) fn kept_multipliers(
    mv: &MeanVariance<'_>,
    tangent: &Tangent<'_>,
    part: &Part,
    alpha: i128,
    tau: i128,
) -> Priced
    requires same { tangent.now.setting ≡ setting_of mv.now }
    requires within { IsWithin part.now
        (root_cells tangent.now.setting.instance.least tangent.now.setting.instance.greatest) }
    requires counted { can_meet part.now tangent.now.setting.instance.held tangent.now.setting.instance.held_most ≡ true }
    requires multipliers { AreMultipliers tangent.now.setting.instance.turnover alpha tau }
    ensures best { AreBestAt tangent.now.setting part.now (lots_at tangent.now.eighths) result.alpha result.tau
        result.theta }
    ensures no_less { alpha_curve tangent.now.setting part.now (lots_at tangent.now.eighths) tau alpha ≤ℤ result.theta }
{
    match mv.instance().turnover() {
        Some(_) => better_turned(tangent, part, alpha, tau),
        None => plain_multipliers(tangent, part, alpha),
    }
}

/// Do the two points have the same eighths?
#[tactic(auto, using(gap_tangent::proofs::CopyLaws::copied_none, gap_tangent::proofs::CopyLaws::copied_step, gap_tangent::proofs::CopyLaws::copied_whole, gap_tangent::proofs::CopyLaws::other_lengths, gap_tangent::proofs::CopyLaws::other_at))]
fn is_same_point(x: &Eighths, y: &Eighths) -> bool
    ensures { IsTrue result → x.now ≡ y.now }
{
    if x.len() != y.len() {
        return false;
    }
    for i in 0..x.len() {
        if x.get(i) != y.get(i) {
            return false;
        }
    }
    true
}

/// A witness with theta there.
#[derive(Drop)]
pub(crate) struct Best {
    pub(crate) witness: Witness,
    pub(crate) theta: i128,
}

/// The witness at a point with multipliers.
fn best_at(y: &Eighths, at: Priced) -> Best
    ensures { result ≡ record { witness = record { y = y.now; alpha = at.alpha; tau = at.tau }; theta = at.theta } }
{
    Best {
        witness: Witness {
            y: y.copy(),
            alpha: at.alpha,
            tau: at.tau,
        },
        theta: at.theta,
    }
}

/// The witness of the greatest theta of three: a hint as it is, given by its tangent and multipliers, its point with new
/// multipliers, and the tangent point from it with new multipliers. Of equal ones the first, but new multipliers before
/// those of the hint. Where the tangent point is the hint's own its new multipliers aren't looked for again.
pub(crate) fn best_witness(
    mv: &MeanVariance<'_>,
    tangent: &Tangent<'_>,
    part: &Part,
    alpha: i128,
    tau: i128,
) -> Best
    requires same { tangent.now.setting ≡ setting_of mv.now }
    requires within { IsWithin part.now
        (root_cells tangent.now.setting.instance.least tangent.now.setting.instance.greatest) }
    requires has { HasTangentPoint tangent.now.setting part.now }
    requires multipliers { AreMultipliers tangent.now.setting.instance.turnover alpha tau }
    ensures candidate { IsCandidate tangent.now.setting part.now
        (record { y = tangent.now.eighths; alpha = alpha; tau = tau }) result.witness }
    ensures theta { result.theta ≡ theta_at tangent.now.setting part.now result.witness }
    ensures small { unsigned_abs result.theta ≤ 10000000000000000000000000000000000000 }
{
    let kept = kept_multipliers(mv, tangent, part, alpha, tau);
    let moved_point = kept_tangent_point(mv, part, tangent.eighths());
    if is_same_point(moved_point.eighths(), tangent.eighths()) {
        return best_at(tangent.eighths(), kept);
    }
    let moved_tangent = Tangent::of(&moved_point);
    let moved = new_multipliers(mv, &moved_tangent, part, kept.alpha, kept.tau);
    if kept.theta < moved.theta {
        return best_at(moved_point.eighths(), moved);
    }
    best_at(tangent.eighths(), kept)
}
