//! A section whose tree is whole.

ghost use Rattle.std.specs.Prelude.{◌≡◌, ◌≢◌, ◌++◌, ◌∷◌, [], OnOk, IfErr, ◌≤◌, true};
ghost use Rattle.gap_model.specs.declared.shown.Shown.TheVariants.{Nothing};
ghost use Rattle.gap_judge.specs.Progress.{claimed_now, is_open_outcome, outcome_now, with_told};
ghost use Rattle.gap_judge.specs.Faults.{EndsWell, shown_now};
ghost use Rattle.gap_judge.specs.Stops.{IsEndStop};
ghost use Rattle.gap_judge.specs.Courses.{progress_at};

use crate::course::Course;
use crate::fault::fault;
use crate::head::Head;
use crate::shows::greater;
use crate::stop::CertStop;
use gap_base::OutOfMemory;
use gap_model::{Best, CertKind, Outcome, Shown, Told};

/// Is this the outcome of an open section?
fn is_open(outcome: u8) -> bool
    ensures { result ≡ is_open_outcome outcome }
{
    outcome == 3 || outcome == 4
}

/// What the section claims to show.
fn claimed(head: &Head, course: &Course) -> Option<i128>
    ensures { result ≡ claimed_now (progress_at head.now course.now) }
{
    if course.outcome == 1 {
        match &course.best {
            Some(best) => Some(best.value),
            None => None,
        }
    } else if is_open(course.outcome) {
        Some(course.bound)
    } else {
        None
    }
}

/// What is shown is no less than what is claimed.
fn judge_shown(head: &Head, course: &Course, behind: u64) -> Result<(), CertStop>
    requires enough { is_open_outcome course.now.outcome ≡ true → head.now.nodes ≤ course.now.splits }
    requires some { course.now.least ≢ Nothing }
    ensures ok { OnOk result (EndsWell (progress_at head.now course.now)) }
    ensures fault { IfErr result (IsEndStop (progress_at head.now course.now) behind) }
{
    let Some(claimed) = claimed(head, course) else {
        return Ok(());
    };
    match greater(course.overall, course.least) {
        Shown::AtLeast(found) if found < claimed => fault(
            behind,
            CertKind::Weak { found, claimed },
        ),
        _ => Ok(()),
    }
}

/// The section is right: an open one has as many splits as the budget, and what is claimed is shown.
pub(crate) fn judge_end(head: &Head, course: &Course, behind: u64) -> Result<(), CertStop>
    requires { course.now.least ≢ Nothing }
    ensures ok { OnOk result (EndsWell (progress_at head.now course.now)) }
    ensures fault { IfErr result (IsEndStop (progress_at head.now course.now) behind) }
{
    let budget = head.nodes();
    if is_open(course.outcome) && course.splits < budget {
        return fault(
            behind,
            CertKind::Nodes {
                inner: course.splits,
                budget,
            },
        );
    }
    judge_shown(head, course, behind)
}

/// The portfolio so far, where there is one.
fn best_copy(best: &Option<Best>) -> Option<Best>
    ensures { result ≡ best.now }
{
    match best {
        Some(best) => Some(best.copy()),
        None => None,
    }
}

/// The outcome of the section.
fn outcome_of(head: &Head, course: &Course) -> Outcome
    ensures { result ≡ outcome_now (progress_at head.now course.now) }
{
    if course.outcome == 2 {
        return Outcome::NoPortfolio;
    }
    let best = best_copy(&course.best);
    if course.outcome != 1 {
        return Outcome::Bounded {
            best,
            bound: course.bound,
        };
    }
    match best {
        Some(best) => Outcome::Closed(best),
        None => Outcome::NoPortfolio,
    }
}

/// Tells the section.
pub(crate) fn tell(head: &Head, course: &mut Course) -> Result<(), OutOfMemory>
    ensures { OnOk result (progress_at head.now course.new ≡ with_told (progress_at head.now course.old)) }
{
    let told = Told {
        weight: course.weight,
        outcome: outcome_of(head, course),
    };
    course.told.push(told)?;
    Ok(())
}
