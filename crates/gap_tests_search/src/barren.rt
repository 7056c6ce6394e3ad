//! A bound of the tests' own, and a search over it.

ghost use Rattle.std.specs.Prelude.{◌≡◌, None, replicate, IfOk};

use gap_base::{Lots, OutOfMemory};
use gap_box::Part;
use gap_model::{Entry, Leaf, NodeBound, Shown};
use gap_search::Search;
use std::alloc::Global;

/// A bound over three assets with 0 to 3 lots, one or two of them held, whose limits no list meets. A tangent shows 0,
/// and every other leaf that there is no list.
#[derive(Drop)]
pub struct Barren;

impl NodeBound for Barren {
    ghost use Rattle.gap_search.specs.Barren.{barren, barren_lawful};

    ghost problem = { λ b. barren };

    ghost lawful = { λ b. barren_lawful };

    fn held(&self) -> u16 {
        1
    }

    fn held_most(&self) -> u16 {
        2
    }

    fn root(&self) -> Part {
        let mut least = Lots::zeros(3);
        let mut greatest = Lots::zeros(3);
        least.set(0, 1);
        least.set(1, 1);
        least.set(2, 1);
        greatest.set(0, 3);
        greatest.set(1, 3);
        greatest.set(2, 3);
        Part::root(&least, &greatest)
    }

    fn keeps(&self, _x: &Lots) -> bool {
        false
    }

    fn value(&self, _x: &Lots) -> i128 {
        0
    }

    fn shown(&self, _part: &Part, leaf: &Leaf<'_>) -> Shown {
        match leaf {
            Leaf::Count => Shown::Empty,
            Leaf::Void { .. } => Shown::Empty,
            Leaf::Tangent { .. } => Shown::AtLeast(0),
        }
    }
}

/// A search of two workers from a tangent.
pub fn opened<'a>(alloc: Global, entries: &'a [Entry]) -> Result<Search<'a, Barren>, OutOfMemory>
    ensures workers { IfOk result (λ s. s.workers ≡ 2) }
    ensures held { IfOk result (λ s. s.board.held ≡ replicate 16 None) }
{
    let leaf = Leaf::Tangent {
        y: entries,
        alpha: 0,
        tau: 0,
        third: 0,
    };
    Search::new(alloc, Barren, 5, 2, leaf, None)
}
