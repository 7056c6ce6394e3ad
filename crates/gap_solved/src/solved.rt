//! Weights that were solved.

ghost use Rattle.std.specs.Prelude.{◌≡◌};
ghost use Rattle.std.specs.Option.{option_copied};
ghost use Rattle.gap_model.specs.Nodes.{splits_of, IsTree};
ghost use Rattle.gap_solved.specs.Solveds.{SolvedValue};

use gap_base::{Weight, Witness};
use gap_model::{Outcome, Told};
use gap_tree::Tree;
use std::marker::Model;

/// What is known of one weight: the outcome, a witness whose bound holds on the whole root, where one is given, and the
/// tree of the search, whose leaves show the rest.
///
/// Contracts see it as the record `SolvedValue`. No call takes memory.
#[derive(Drop)]
pub struct Solved<'a> {
    weight: Weight,
    outcome: Outcome,
    overall: Option<Witness>,
    tree: Tree<'a>,
}

impl<'a> Model for Solved<'a> {
    ghost use Rattle.gap_solved.specs.Solveds.{SolvedValue};

    ghost Value = { SolvedValue };

    ghost view = { λ s. record { weight = s.weight; outcome = s.outcome; overall = s.overall; nodes = s.tree.nodes } };
}

impl<'a> Solved<'a> {
    /// What is known of a weight, of its parts.
    pub fn new(
        weight: Weight,
        outcome: Outcome,
        overall: Option<Witness>,
        tree: Tree<'a>,
    ) -> Solved<'a>
        ensures { result ≡ record { weight = weight; outcome = outcome; overall = overall; nodes = tree.entry.nodes } }
    {
        Solved {
            weight,
            outcome,
            overall,
            tree,
        }
    }

    /// The weight.
    pub fn weight(&self) -> Weight
        ensures { result ≡ self.now.weight }
    {
        self.weight
    }

    /// What is known of it.
    pub fn outcome(&self) -> &Outcome
        ensures { result.now ≡ self.now.outcome }
    {
        &self.outcome
    }

    /// How many splits its tree has.
    pub fn inner(&self) -> u32
        ensures { result ≡ splits_of self.now.nodes }
    {
        self.tree.inner()
    }

    /// The witness for the whole root, where there is one.
    pub fn overall(&self) -> Option<&Witness>
        ensures { option_copied result ≡ self.now.overall }
    {
        self.overall.as_ref()
    }

    /// The tree of its search.
    pub fn tree(&self) -> &Tree<'a>
        ensures nodes { result.now.nodes ≡ self.now.nodes }
        ensures tree { IsTree self.now.nodes }
    {
        let _count = self.tree.nodes();
        &self.tree
    }

    /// The weight with what is known of it, as it is told.
    pub fn line(&self) -> Told
        ensures { result ≡ record { weight = self.now.weight; outcome = self.now.outcome } }
    {
        Told {
            weight: self.weight,
            outcome: self.outcome.copy(),
        }
    }
}
