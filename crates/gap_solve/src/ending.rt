//! The end of a weight.

ghost use Rattle.std.specs.Prelude.{◌≡◌, ◌<◌, ◌≤◌, Some, None, IfOk, IsTrue, IsFalse, ℤ, ◌≤ℤ◌, ◌<ℤ◌, unsigned_abs};
ghost use Rattle.gap_base.specs.Sizes.{most_bound};
ghost use Rattle.gap_base.specs.Lots.{eighths_of};
ghost use Rattle.gap_model.specs.declared.shown.Shown.TheVariants.{AtLeast};
ghost use Rattle.gap_model.specs.Outcomes.{IsPortfolio};
ghost use Rattle.gap_search.specs.Boards.{tickets};
ghost use Rattle.gap_tangent.specs.Seen.{setting_of};
ghost use Rattle.gap_leaf.specs.Showing.{witness_shows};
ghost use Rattle.gap_leaf.specs.Finding.{IsWitness};
ghost use Rattle.gap_solve.specs.Ended.{root_of};
ghost use Rattle.gap_solve.specs.Ends.{HasFloor};
ghost use Rattle.gap_solve.specs.Searching.{IsPolished, IsOpenEnd, IsBoundedEnd, IsFinish, IsFinished};
ghost use Rattle.std.specs.Option.{ForSome};

use crate::begin::root_leaf;
use bumpalo::Bump;
use gap_base::{Eighths, OutOfMemory, Witness};
use gap_guide::witness_of;
use gap_model::{Best, NodeBound, Outcome, Shown};
use gap_objective::Holding;
use gap_search::Search;
use gap_solved::Solved;
use gap_start::polish;
use gap_tangent::MeanVariance;

/// A portfolio, polished.
fn polished(bound: &MeanVariance<'_>, best: &Best) -> Best
    requires { IsPortfolio (setting_of bound.now).instance (setting_of bound.now).p (setting_of bound.now).q best.now }
    ensures { IsPolished (setting_of bound.now) best.now result }
{
    let mut holding = Holding::new(bound.instance(), bound.weight(), &best.lots);
    polish(&mut holding);
    Best {
        lots: holding.lots().copy(),
        value: holding.value(),
    }
}

/// The witness for the whole root from a portfolio, with the number that it shows there.
fn overall_for(
    bound: &MeanVariance<'_>,
    best: &Best,
    arena: &Bump,
) -> Result<(Witness, i128), OutOfMemory>
    requires { IsPortfolio (setting_of bound.now).instance (setting_of bound.now).p (setting_of bound.now).q best.now }
    ensures witness { IfOk result (λ r. IsWitness (setting_of bound.now) r.0) }
    ensures small { IfOk result (λ r. unsigned_abs r.1 ≤ most_bound) }
    ensures shows { IfOk result
        (λ r. witness_shows (setting_of bound.now) (root_of (setting_of bound.now)) r.0 ≡ AtLeast r.1) }
    ensures floor { IfOk result (λ r. HasFloor (setting_of bound.now) (eighths_of best.now.lots) r.1) }
{
    let leaf = root_leaf(bound, Eighths::of(&best.lots), arena)?;
    let Some(w) = witness_of(bound, &leaf) else {
        unreachable!()
    };
    match bound.shown(&bound.root(), &leaf) {
        Shown::AtLeast(number) => Ok((w, number)),
        _ => unreachable!(),
    }
}

/// Is a number no greater than another?
fn is_at_most(a: i128, b: i128) -> bool
    ensures yes { IsTrue result → a ≤ℤ b }
    ensures no { IsFalse result → b <ℤ a }
{
    a <= b
}

/// How a weight ends whose search is bounded by the least that a leaf shows, with a portfolio.
fn open_end(
    bound: &MeanVariance<'_>,
    best: Best,
    least: i128,
    arena: &Bump,
) -> Result<(Outcome, Option<Witness>), OutOfMemory>
    requires { IsPortfolio (setting_of bound.now).instance (setting_of bound.now).p (setting_of bound.now).q best }
    ensures { IfOk result (λ r. IsOpenEnd (setting_of bound.now) best least r.0 r.1) }
{
    if is_at_most(best.value, least) {
        return Ok((Outcome::Closed(best), None));
    }
    let (w, number) = overall_for(bound, &best, arena)?;
    if is_at_most(number, least) {
        return Ok((
            Outcome::Bounded {
                best: Some(best),
                bound: least,
            },
            None,
        ));
    }
    if is_at_most(best.value, number) {
        return Ok((Outcome::Closed(best), Some(w)));
    }
    Ok((
        Outcome::Bounded {
            best: Some(best),
            bound: number,
        },
        Some(w),
    ))
}

/// How a weight ends whose search is bounded, by the portfolio that it has found, if it has.
fn bounded_end(
    bound: &MeanVariance<'_>,
    found: Option<Best>,
    least: i128,
    arena: &Bump,
) -> Result<(Outcome, Option<Witness>), OutOfMemory>
    requires { ForSome found
        (IsPortfolio (setting_of bound.now).instance (setting_of bound.now).p (setting_of bound.now).q) }
    ensures { IfOk result (λ r. IsBoundedEnd (setting_of bound.now) found least r.0 r.1) }
{
    match found {
        Some(best) => {
            let better = polished(bound, &best);
            open_end(bound, better, least, arena)
        }
        None => Ok((
            Outcome::Bounded {
                best: None,
                bound: least,
            },
            None,
        )),
    }
}

/// How a weight ends by its search, with the witness for the whole root, where one is given.
fn outcome_of(
    search: &Search<'_, MeanVariance<'_>>,
    arena: &Bump,
) -> Result<(Outcome, Option<Witness>), OutOfMemory>
    requires { tickets search.now.board.held ≡ 0 }
    ensures { IfOk result (λ r. IsFinish (setting_of search.now.bound) search.now.board r.0 r.1) }
{
    // the board is sound
    let _inner = search.inner();
    match search.end() {
        Outcome::Closed(best) => Ok((Outcome::Closed(best), None)),
        Outcome::NoPortfolio => Ok((Outcome::NoPortfolio, None)),
        Outcome::Bounded { best, bound } => bounded_end(search.bound(), best, bound, arena),
    }
}

/// What is known of a weight by its search, whose tree is kept.
pub fn finished<'a, 'm>(
    search: Search<'a, MeanVariance<'m>>,
    arena: &Bump,
) -> Result<Solved<'a>, OutOfMemory>
    requires { tickets search.board.held ≡ 0 }
    ensures { IfOk result (IsFinished (setting_of search.entry.bound) search.entry.board) }
{
    let (outcome, overall) = outcome_of(&search, arena)?;
    let weight = search.bound().weight();
    Ok(Solved::new(weight, outcome, overall, search.into_tree()))
}
