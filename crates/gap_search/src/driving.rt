//! The drive of a search.

ghost use Rattle.std.specs.Prelude.{◌≡◌, ℕ, ◌<◌, IfOk};
ghost use Rattle.gap_search.specs.Boards.{tickets, IsSound};
ghost use Rattle.gap_search.specs.Steps.{Refusal};
ghost use Rattle.gap_search.specs.Stays.{Stays};
ghost use Rattle.gap_search.specs.Driven.{IsDriven, IsSame};

use crate::guide::Guide;
use crate::rounds::{claim_all, settle_all};
use crate::search::Search;
use gap_base::OutOfMemory;
use gap_model::NodeBound;

/// Takes a search on in rounds until no worker could claim a leaf. In each round the workers claim in rising order, then
/// those that hold a leaf settle it in rising order as the guide says, and after each settle the guide's candidates for
/// the two children are offered. The search is changed by its steps alone. After Ok every worker's claim would be
/// refused; in any case no leaf is held, each split that was made is one that the guide allows, and each leaf that was
/// made and is still one fits its part. What was there keeps its number: a split stays as it was, and so does a leaf that
/// wasn't split. It takes no memory but what the guide takes, and makes a split a settle.
pub fn drive<'a, B: NodeBound, G: Guide<'a, B>>(
    search: &mut Search<'a, B>,
    guide: &mut G,
) -> Result<(), OutOfMemory>
    requires { tickets search.old.board.held ≡ 0 }
    ensures same { IsSame search.old search.new }
    ensures driven { IsDriven (B.problem search.old.bound) (G.allows search.old.bound) (G.fits search.old.bound)
        search.old.board search.new.board }
    ensures stays { Stays search.old.board.nodes search.new.board.nodes }
    ensures sound { IsSound (B.problem search.old.bound) search.new.board }
    ensures idle { tickets search.new.board.held ≡ 0 }
    ensures refused { IfOk result
        (λ _. (w : ℕ) → w < search.new.workers → Refusal (B.problem search.new.bound) search.new.board w) }
{
    // the board is sound
    let _inner = search.inner();
    let mut more = claim_all(search);
    while more {
        settle_all(search, guide)?;
        more = claim_all(search);
    }
    Ok(())
}
