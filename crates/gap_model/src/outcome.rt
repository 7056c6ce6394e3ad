//! What is known at the end of a weight.

ghost use Rattle.std.specs.Prelude.{◌≡◌};

use gap_base::{Lots, Weight};

/// A portfolio with its scaled objective, in the units of `objective`.
#[derive(Drop, Debug)]
pub struct Best {
    pub lots: Lots,
    pub value: i128,
}

/// What is known of one weight.
#[derive(Drop, Debug)]
pub enum Outcome {
    /// A portfolio that no other is below.
    Closed(Best),
    /// No list meets the limits.
    NoPortfolio,
    /// A number that no portfolio is below, and the best portfolio that was found, which is above it; there may be none.
    Bounded { best: Option<Best>, bound: i128 },
}

/// What is known of a weight, with the weight.
#[derive(Drop, Debug)]
pub struct Told {
    pub weight: Weight,
    pub outcome: Outcome,
}

impl Best {
    /// An equal one. It takes no memory.
    pub fn copy(&self) -> Best
        ensures { result ≡ self.now }
    {
        Best {
            lots: self.lots.copy(),
            value: self.value,
        }
    }
}

impl Outcome {
    /// An equal one. It takes no memory.
    pub fn copy(&self) -> Outcome
        ensures { result ≡ self.now }
    {
        match self {
            Outcome::Closed(best) => Outcome::Closed(best.copy()),
            Outcome::NoPortfolio => Outcome::NoPortfolio,
            Outcome::Bounded {
                best: Some(best),
                bound,
            } => Outcome::Bounded {
                best: Some(best.copy()),
                bound: *bound,
            },
            Outcome::Bounded { best: None, bound } => Outcome::Bounded {
                best: None,
                bound: *bound,
            },
        }
    }
}

impl Told {
    /// An equal one. It takes no memory.
    pub fn copy(&self) -> Told
        ensures { result ≡ self.now }
    {
        Told {
            weight: self.weight,
            outcome: self.outcome.copy(),
        }
    }
}
