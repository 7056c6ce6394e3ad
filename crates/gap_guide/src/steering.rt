//! The guide.

ghost use Rattle.std.specs.Prelude.{◌≡◌, true, false, IfOk, IsTrue};
ghost use Rattle.gap_box.specs.Splits.{lawful_split, child_cells};
ghost use Rattle.gap_model.specs.Problems.{tangent_problem, IsPart};
ghost use Rattle.gap_model.specs.Showing.{ShowsSo};
ghost use Rattle.gap_leaf.specs.Finding.{IsLeafFor};

use crate::hint::witness_of;
use crate::seen::was_seen;
use bumpalo::Bump;
use gap_base::{Lots, OutOfMemory};
use gap_box::{Part, Side, Split};
use gap_leaf::Hinted;
use gap_model::{Leaf, NodeBound, Placed};
use gap_search::{Branch, Guide, Ticket};
use gap_start::{polished, rounding_of};
use gap_tangent::MeanVariance;
use gap_witness::split_for;
use std::alloc::Global;
use std::collections::HashSet;

/// A guide over an arena, in which it places the entries of leaves.
///
/// It allows the splits that cut their part, and a leaf fits that is no tangent, or shows no less than its own point under
/// any alpha.
///
/// It polishes no list twice that it still knows: the lists to which points were rounded are kept, 4096 at most, since each
/// would be polished to the same list again; where one more comes the others are dropped. That takes some 2N + 50 bytes a
/// list, 3 MB at most, which are given back with the guide; a list that no memory is given for isn't kept. A list is found
/// again in O(N).
#[derive(Drop)]
pub struct Steering<'a> {
    alloc: Global,
    arena: &'a Bump,
    seen: HashSet<Vec<u16>>,
}

impl<'a> Steering<'a> {
    /// A guide over an arena, which has seen no list. It takes no memory.
    pub fn new(alloc: Global, arena: &'a Bump) -> Steering<'a> {
        Steering {
            alloc,
            arena,
            seen: HashSet::new(alloc),
        }
    }
}

/// The leaf of a child of a part, with what it shows there.
fn child_leaf<'a>(
    hinted: &Hinted<'_>,
    part: &Part,
    split: Split,
    side: Side,
    arena: &'a Bump,
) -> Result<Placed<'a>, OutOfMemory>
    requires part { IsPart (tangent_problem hinted.now.setting) part.now }
    requires lawful { IsTrue (lawful_split part.now split) }
    ensures leaf { IfOk result
        (λ p. IsLeafFor hinted.now.setting (child_cells part.now split side) hinted.now.hint p.leaf) }
    ensures shows { IfOk result (ShowsSo (tangent_problem hinted.now.setting) (child_cells part.now split side)) }
{
    hinted.leaf(&part.child(split, side), arena)
}

impl<'a, 'm> Guide<'a, MeanVariance<'m>> for Steering<'a> {
    ghost use Rattle.gap_box.specs.Splits.{Cuts};
    ghost use Rattle.gap_tangent.specs.Seen.{setting_of};
    ghost use Rattle.gap_leaf.specs.Showing.{IsOwnBest};

    ghost allows = { λ b part split. Cuts part (setting_of b).instance.held_most split };

    ghost fits = { λ b part leaf. IsOwnBest (setting_of b) part leaf };

    fn branch(
        &mut self,
        bound: &MeanVariance<'m>,
        ticket: &Ticket,
        leaf: &Leaf<'a>,
    ) -> Result<Branch<'a>, OutOfMemory> {
        let Some(hint) = witness_of(bound, leaf) else {
            unreachable!()
        };
        let part = ticket.part();
        let split = split_for(part, bound.held(), bound.held_most(), &hint.y);
        let hinted = Hinted::new(bound, &hint);
        let first = child_leaf(&hinted, part, split, Side::First, self.arena)?;
        let second = child_leaf(&hinted, part, split, Side::Second, self.arena)?;
        Ok(Branch {
            split,
            first,
            second,
        })
    }

    fn candidate(
        &mut self,
        bound: &MeanVariance<'m>,
        part: &Part,
        leaf: &Leaf<'a>,
    ) -> Option<Lots> {
        let hint = witness_of(bound, leaf)?;
        let inst = bound.instance();
        let list = rounding_of(inst, bound.weight(), part, &hint.y);
        if was_seen(&mut self.seen, self.alloc, &list) {
            return None;
        }
        polished(inst, bound.weight(), &list)
    }
}
