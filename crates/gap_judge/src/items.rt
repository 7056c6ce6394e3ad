//! The items of a section that are no leaves.

ghost use Rattle.std.specs.Prelude.{◌≡◌, ◌<◌, ◌+◌, ◌^◌, OnOk, IfErr, IsSome};
ghost use Rattle.std.specs.Option.{ForSome};
ghost use Rattle.gap_base.specs.declared.weight.Weight.{Weight};
ghost use Rattle.gap_base.specs.declared.witness.Witness.{Witness};
ghost use Rattle.gap_box.specs.declared.split.Split.{Split};
ghost use Rattle.gap_instance.specs.Limits.{MeetsLimits};
ghost use Rattle.gap_cert.specs.declared.field.Field.TheVariants as field;
ghost use Rattle.gap_valid.specs.Heads.{instance_in};
ghost use Rattle.gap_valid.specs.CertTrees.{IsWitness};
ghost use Rattle.gap_judge.specs.Progress.{section_begun, progress_behind};
ghost use Rattle.gap_judge.specs.Faults.{IsItemRight, objective_now};
ghost use Rattle.gap_judge.specs.Kept.{IsKeptOver};
ghost use Rattle.gap_judge.specs.Ready.{IsBegun, IsNodeDue};
ghost use Rattle.gap_judge.specs.Stops.{IsStop, IsBasisOf, lots_or_none};
ghost use Rattle.gap_judge.specs.Courses.{progress_at};

use crate::basis::Basis;
use crate::course::Course;
use crate::fault::fault;
use crate::head::Head;
use crate::kept::Kept;
use crate::leaf::next_part;
use crate::shows::tangent_shown;
use crate::stop::CertStop;
use crate::walk::Walk;
use gap_base::{Lots, Weight, Witness};
use gap_box::Split;
use gap_model::{Best, CertKind, Shown};
use gap_objective::value;
use std::alloc::Global;

/// Begins a section: its tree stands at the root.
#[tactic(auto, unfolding(crate::specs::Progress::progress_behind, crate::specs::Progress::section_begun, crate::specs::Faults::IsItemRight, crate::specs::Faults::IsItemFault))]
pub(crate) fn begin(
    alloc: Global,
    head: &Head,
    basis: &Basis,
    course: &mut Course,
    weight: Weight,
    outcome: u8,
)
    requires basis { IsBasisOf head.now basis.now.instance basis.now.shift basis.now.root }
    ensures { progress_at head.now course.new ≡ section_begun (progress_at head.now course.old) weight outcome }
{
    let _n = head.n();
    course.weight = weight;
    course.outcome = outcome;
    course.lots = None;
    course.best = None;
    course.bound = 0;
    course.overall = Shown::Nothing;
    course.walk = Some(Walk::new(alloc, basis.root.copy()));
    course.splits = 0;
    course.least = Shown::Empty;
}

/// The portfolio meets the limits.
#[tactic(auto, unfolding(crate::specs::Progress::progress_behind, crate::specs::Progress::section_begun, crate::specs::Faults::IsItemRight, crate::specs::Faults::IsItemFault))]
pub(crate) fn take_portfolio(
    head: &Head,
    basis: &Basis,
    course: &mut Course,
    x: &Lots,
    place: u64,
    behind: u64,
) -> Result<(), CertStop>
    requires basis { IsBasisOf head.now basis.now.instance basis.now.shift basis.now.root }
    ensures ok { OnOk result
        (progress_at head.now course.new ≡ progress_behind (progress_at head.now course.old) (field.Portfolio x.now)) }
    ensures right { OnOk result (IsItemRight (progress_at head.now course.old) (field.Portfolio x.now)) }
    ensures fault { IfErr result (IsStop (progress_at head.now course.old) (field.Portfolio x.now) place behind) }
{
    let _behind = behind;
    let _n = head.n();
    match basis.instance.keeps(x) {
        Some(broken) => fault(place, CertKind::Portfolio(broken)),
        None => {
            course.lots = Some(x.copy());
            Ok(())
        }
    }
}

/// The objective of the portfolio.
fn objective_of(head: &Head, basis: &Basis, course: &Course) -> i128
    requires basis { IsBasisOf head.now basis.now.instance basis.now.shift basis.now.root }
    requires meets { MeetsLimits (instance_in head.now) (progress_at head.now course.now).lots }
    ensures { result ≡ objective_now (progress_at head.now course.now) }
{
    let _n = head.n();
    value(
        &basis.instance,
        course.weight,
        course.lots.as_ref().unwrap(),
    )
}

/// The portfolio with its objective.
fn best_of(course: &Course, claimed: i128) -> Best
    requires { IsSome course.now.lots }
    ensures lots { result.lots ≡ lots_or_none course.now.lots }
    ensures value { result.value ≡ claimed }
{
    Best {
        lots: course.lots.as_ref().unwrap().copy(),
        value: claimed,
    }
}

/// The objective is that of the portfolio.
#[tactic(auto, unfolding(crate::specs::Progress::progress_behind, crate::specs::Progress::section_begun, crate::specs::Faults::IsItemRight, crate::specs::Faults::IsItemFault))]
pub(crate) fn take_objective(
    head: &Head,
    basis: &Basis,
    course: &mut Course,
    claimed: i128,
    place: u64,
    behind: u64,
) -> Result<(), CertStop>
    requires basis { IsBasisOf head.now basis.now.instance basis.now.shift basis.now.root }
    requires meets { MeetsLimits (instance_in head.now) (progress_at head.now course.old).lots }
    ensures ok { OnOk result
        (progress_at head.now course.new ≡ progress_behind (progress_at head.now course.old) (field.Objective claimed)) }
    ensures right { OnOk result (IsItemRight (progress_at head.now course.old) (field.Objective claimed)) }
    ensures fault { IfErr result (IsStop (progress_at head.now course.old) (field.Objective claimed) place behind) }
{
    let _behind = behind;
    let found = objective_of(head, basis, course);
    if found != claimed {
        return fault(place, CertKind::Objective { found, claimed });
    }
    course.best = Some(best_of(course, claimed));
    Ok(())
}

/// The bound of a section with a portfolio is below its objective.
#[tactic(auto, unfolding(crate::specs::Progress::progress_behind, crate::specs::Progress::section_begun, crate::specs::Faults::IsItemRight, crate::specs::Faults::IsItemFault))]
pub(crate) fn take_bound(
    head: &Head,
    course: &mut Course,
    bound: i128,
    place: u64,
    behind: u64,
) -> Result<(), CertStop>
    ensures ok { OnOk result
        (progress_at head.now course.new ≡ progress_behind (progress_at head.now course.old) (field.Bound bound)) }
    ensures right { OnOk result (IsItemRight (progress_at head.now course.old) (field.Bound bound)) }
    ensures fault { IfErr result (IsStop (progress_at head.now course.old) (field.Bound bound) place behind) }
{
    let _behind = behind;
    let _n = head.n();
    if course.outcome == 3 {
        if let Some(best) = &course.best {
            let objective = best.value;
            if objective <= bound {
                return fault(place, CertKind::NotOpen { objective, bound });
            }
        }
    }
    course.bound = bound;
    Ok(())
}

/// What the witness for the whole root shows, where one is given; its products are kept.
#[tactic(auto, unfolding(crate::specs::Progress::progress_behind, crate::specs::Progress::section_begun, crate::specs::Faults::IsItemRight, crate::specs::Faults::IsItemFault))]
pub(crate) fn take_overall(
    head: &Head,
    basis: &Basis,
    kept: &mut Option<Kept>,
    course: &mut Course,
    w: &Option<Witness>,
)
    requires basis { IsBasisOf head.now basis.now.instance basis.now.shift basis.now.root }
    requires kept { IsKeptOver basis.now.instance basis.now.shift kept.old }
    requires begun { IsBegun (progress_at head.now course.old) }
    requires ranges { ForSome w.now (IsWitness (instance_in head.now)) }
    ensures kept { IsKeptOver basis.now.instance basis.now.shift kept.new }
    ensures overall { progress_at head.now course.new
        ≡ progress_behind (progress_at head.now course.old) (field.Overall w.now) }
{
    let _n = head.n();
    course.overall = match w {
        Some(w) => tangent_shown(basis, kept, course.weight, &basis.root, w),
        None => Shown::Nothing,
    };
}

/// The split is within the budget, and lawful at the part where it stands.
#[tactic(auto, unfolding(crate::specs::Progress::progress_behind, crate::specs::Progress::section_begun, crate::specs::Faults::IsItemRight, crate::specs::Faults::IsItemFault))]
pub(crate) fn take_split(
    head: &Head,
    course: &mut Course,
    split: Split,
    place: u64,
    behind: u64,
) -> Result<(), CertStop>
    requires due { IsNodeDue (progress_at head.now course.old) }
    ensures ok { OnOk result
        (progress_at head.now course.new ≡ progress_behind (progress_at head.now course.old) (field.Split split)) }
    ensures right { OnOk result (IsItemRight (progress_at head.now course.old) (field.Split split)) }
    ensures fault { IfErr result (IsStop (progress_at head.now course.old) (field.Split split) place behind) }
{
    let _behind = behind;
    let budget = head.nodes();
    if budget <= course.splits {
        let inner = course.splits + 1;
        return fault(place, CertKind::Nodes { inner, budget });
    }
    if !next_part(&course.walk).lawful(split) {
        return fault(place, CertKind::Split);
    }
    course.walk.as_mut().unwrap().split(split)?;
    course.splits += 1;
    Ok(())
}
