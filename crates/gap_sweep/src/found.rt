//! The portfolio of an outcome.
ghost use Rattle.std.specs.Prelude.{◌≡◌};
ghost use Rattle.std.specs.Option.{option_copied};
ghost use Rattle.gap_solve.specs.Ends.{best_in};

use gap_model::{Best, Outcome};

/// The portfolio of an outcome, where it has one.
pub(crate) fn found(outcome: &Outcome) -> Option<&Best>
    ensures { option_copied result ≡ best_in outcome.now }
{
    match outcome {
        Outcome::Closed(best) => Some(best),
        Outcome::NoPortfolio => None,
        Outcome::Bounded { best, .. } => best.as_ref(),
    }
}
