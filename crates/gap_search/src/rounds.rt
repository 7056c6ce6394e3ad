//! The rounds of a search: all workers claim in rising order, then those that hold a leaf settle in rising order.

ghost use Rattle.std.specs.Prelude.{◌≡◌, ℕ, ◌+◌, ◌<◌, true, false, List, Option, None, Ok, length, slice_set, IfOk};
ghost use Rattle.gap_model.specs.Problems.{IsPart};
ghost use Rattle.gap_model.specs.Nodes.{splits_of};
ghost use Rattle.gap_model.specs.declared.outcome.Best.{Best};
ghost use Rattle.gap_search.specs.Boards.{tickets, FitsPart, IsSound};
ghost use Rattle.gap_search.specs.Steps.{Event, Run, Refusal, with_best};
ghost use Rattle.gap_search.specs.Driven.{IsDriven, IsSame};

use crate::guide::Guide;
use crate::search::Search;
use gap_base::OutOfMemory;
use gap_box::{Part, Side};
use gap_model::{Leaf, NodeBound};

/// A worker claims a leaf. Did it or one before it, as `some` says, get one?
fn claim_next<B: NodeBound>(search: &mut Search<'_, B>, worker: u8, some: bool) -> bool
    requires worker { worker < search.old.workers }
    requires places { length search.old.board.held ≡ 16 }
    ensures same { IsSame search.old search.new }
    ensures sound { IsSound (B.problem search.old.bound) search.new.board }
    ensures places { length search.new.board.held ≡ 16 }
    ensures nodes { search.new.board.nodes ≡ search.old.board.nodes }
    ensures run { (events : List Event) × Run (B.problem search.old.bound) search.old.board events search.new.board }
    ensures some { result ≡ true → (some ≡ true → 0 < tickets search.old.board.held) → 0 < tickets search.new.board.held }
    ensures none { result ≡ false
        → (some ≡ false) × (search.new.board ≡ search.old.board)
        × Refusal (B.problem search.old.bound) search.old.board worker }
{
    // a worker is one of 16
    let _workers = search.workers();
    match search.take(worker) {
        Some(_) => true,
        None => some,
    }
}

/// All workers claim in rising order. Did one of them get a leaf?
pub fn claim_all<B: NodeBound>(search: &mut Search<'_, B>) -> bool
    requires { tickets search.old.board.held ≡ 0 }
    ensures same { IsSame search.old search.new }
    ensures sound { IsSound (B.problem search.old.bound) search.new.board }
    ensures nodes { search.new.board.nodes ≡ search.old.board.nodes }
    ensures run { (events : List Event) × Run (B.problem search.old.bound) search.old.board events search.new.board }
    ensures some { result ≡ true → 0 < tickets search.new.board.held }
    ensures none { result ≡ false
        → (tickets search.new.board.held ≡ 0)
        × ((w : ℕ) → w < search.old.workers → Refusal (B.problem search.old.bound) search.new.board w) }
{
    // the board is sound
    let _inner = search.inner();
    let mut some = false;
    for worker in 0..search.workers() {
        some = claim_next(search, worker, some);
    }
    some
}

/// Offers the guide's candidate for a part that was made, where it has one.
fn offer_candidate<'a, B: NodeBound, G: Guide<'a, B>>(
    search: &mut Search<'a, B>,
    guide: &mut G,
    part: &Part,
    leaf: &Leaf<'a>,
)
    requires part { IsPart (B.problem search.old.bound) part.now }
    requires fits { FitsPart (B.problem search.old.bound) part.now leaf.now }
    ensures same { IsSame search.old search.new }
    ensures best { (best : Option Best) × (search.new.board ≡ with_best search.old.board best) }
    ensures driven { IsDriven (B.problem search.old.bound) (G.allows search.old.bound) (G.fits search.old.bound)
        search.old.board search.new.board }
{
    if let Some(x) = guide.candidate(search.bound(), part, leaf) {
        let _taken = search.offer(&x);
    }
}

/// A worker settles what it holds as the guide says, and the candidates of the two children are offered, the first's
/// before the second's. Where the guide has no memory the leaf is given back.
pub fn settle_next<'a, B: NodeBound, G: Guide<'a, B>>(
    search: &mut Search<'a, B>,
    guide: &mut G,
    worker: u8,
) -> Result<(), OutOfMemory>
    requires worker { worker < 16 }
    requires places { length search.old.board.held ≡ 16 }
    ensures same { IsSame search.old search.new }
    ensures driven { IsDriven (B.problem search.old.bound) (G.allows search.old.bound) (G.fits search.old.bound)
        search.old.board search.new.board }
    ensures held { search.new.board.held ≡ slice_set search.old.board.held worker None }
    ensures count { IfOk result
        (λ _. splits_of search.new.board.nodes + tickets search.new.board.held
        ≡ splits_of search.old.board.nodes + tickets search.old.board.held) }
{
    // the board is sound
    let _inner = search.inner();
    let Some(ticket) = search.ticket(worker) else {
        return Ok(());
    };
    let leaf = search.leaf(&ticket);
    match guide.branch(search.bound(), &ticket, &leaf) {
        Ok(branch) => {
            let one = ticket.part().child(branch.split, Side::First);
            let two = ticket.part().child(branch.split, Side::Second);
            search.settle(ticket, branch.split, branch.first, branch.second);
            offer_candidate(search, guide, &one, &branch.first.leaf);
            offer_candidate(search, guide, &two, &branch.second.leaf);
            Ok(())
        }
        Err(error) => {
            search.give_back(ticket);
            Err(error)
        }
    }
}

/// A worker gives back what it holds.
fn give_next<B: NodeBound>(search: &mut Search<'_, B>, worker: u8)
    requires worker { worker < 16 }
    requires places { length search.old.board.held ≡ 16 }
    ensures same { IsSame search.old search.new }
    ensures nodes { search.new.board.nodes ≡ search.old.board.nodes }
    ensures run { (events : List Event) × Run (B.problem search.old.bound) search.old.board events search.new.board }
    ensures held { search.new.board.held ≡ slice_set search.old.board.held worker None }
{
    if let Some(ticket) = search.ticket(worker) {
        search.give_back(ticket);
    }
}

/// A worker settles what it holds, or gives it back where one before it had no memory.
fn turn<'a, B: NodeBound, G: Guide<'a, B>>(
    search: &mut Search<'a, B>,
    guide: &mut G,
    worker: u8,
    so_far: Result<(), OutOfMemory>,
) -> Result<(), OutOfMemory>
    requires worker { worker < 16 }
    requires places { length search.old.board.held ≡ 16 }
    ensures same { IsSame search.old search.new }
    ensures driven { IsDriven (B.problem search.old.bound) (G.allows search.old.bound) (G.fits search.old.bound)
        search.old.board search.new.board }
    ensures held { search.new.board.held ≡ slice_set search.old.board.held worker None }
    ensures count { IfOk result
        (λ _. (so_far ≡ Ok tt)
        × (splits_of search.new.board.nodes + tickets search.new.board.held
        ≡ splits_of search.old.board.nodes + tickets search.old.board.held)) }
{
    match so_far {
        Ok(()) => settle_next(search, guide, worker),
        Err(error) => {
            give_next(search, worker);
            Err(error)
        }
    }
}

/// All that hold a leaf settle it in rising order; from the first want of memory on the leaves are given back.
pub fn settle_all<'a, B: NodeBound, G: Guide<'a, B>>(
    search: &mut Search<'a, B>,
    guide: &mut G,
) -> Result<(), OutOfMemory>
    ensures same { IsSame search.old search.new }
    ensures driven { IsDriven (B.problem search.old.bound) (G.allows search.old.bound) (G.fits search.old.bound)
        search.old.board search.new.board }
    ensures sound { IsSound (B.problem search.old.bound) search.new.board }
    ensures idle { tickets search.new.board.held ≡ 0 }
    ensures count { IfOk result
        (λ _. splits_of search.new.board.nodes ≡ splits_of search.old.board.nodes + tickets search.old.board.held) }
{
    // there are 16 places
    let _workers = search.workers();
    let mut result = Ok(());
    for worker in 0..16 {
        result = turn(search, guide, worker, result);
    }
    // the board is sound
    let _inner = search.inner();
    result
}
