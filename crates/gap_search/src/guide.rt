//! What a search asks of its guide.

ghost use Rattle.std.specs.Prelude.{IfOk, List};
ghost use Rattle.gap_box.specs.declared.cell.Cell.{Cell};
ghost use Rattle.gap_box.specs.declared.split.Split.{Split};
ghost use Rattle.gap_box.specs.declared.split.Side.TheVariants.{First, Second};
ghost use Rattle.gap_box.specs.Splits.{child_cells};
ghost use Rattle.gap_model.specs.declared.leaf.Leaf.{Leaf};
ghost use Rattle.gap_model.specs.Problems.{IsPart};
ghost use Rattle.gap_search.specs.Boards.{FitsPart, IsOpen};
ghost use Rattle.gap_search.specs.Driven.{IsBranch};

use crate::branch::Branch;
use crate::search::Ticket;
use gap_base::{Lots, OutOfMemory};
use gap_box::Part;
use gap_model::{Leaf, NodeBound};

/// What chooses how a search goes on: the split of a part, with the leaves of its children, and the lists that are tried.
/// It has two meanings, for a given bound: which splits it allows at a part, and which leaves fit a part.
pub trait Guide<'a, B: NodeBound> {
    ghost allows: { B → List Cell → Split → Type 0 };

    ghost fits: { B → List Cell → Leaf → Type 0 };

    /// How the part of a ticket is taken apart, whose leaf this is: a split that is allowed there, with a leaf for each
    /// of the two children that fits it, and what the bound shows by it there.
    fn branch(
        &mut self,
        bound: &B,
        ticket: &Ticket,
        leaf: &Leaf<'a>,
    ) -> Result<Branch<'a>, OutOfMemory>
        requires { IsOpen (B.problem bound.now) ticket.now.part leaf.now }
        ensures branch { IfOk result (λ r. IsBranch (B.problem bound.now) ticket.now.part leaf.now r) }
        ensures allowed { IfOk result (λ r. allows bound.now ticket.now.part r.split) }
        ensures fits_first { IfOk result (λ r. fits bound.now (child_cells ticket.now.part r.split First) r.first.leaf) }
        ensures fits_second { IfOk result (λ r. fits bound.now (child_cells ticket.now.part r.split Second) r.second.leaf) };

    /// A list to be tried, after a part with this leaf was made. Any list may be answered, and None.
    fn candidate(&mut self, bound: &B, part: &Part, leaf: &Leaf<'a>) -> Option<Lots>
        requires part { IsPart (B.problem bound.now) part.now }
        requires fits { FitsPart (B.problem bound.now) part.now leaf.now };
}
