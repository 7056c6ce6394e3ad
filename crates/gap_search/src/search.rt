//! The search.

ghost use Rattle.std.specs.Prelude.{◌≡◌, ℕ, ◌+◌, ◌*◌, ◌<◌, ◌≤◌, true, Some, None, length, Option, slice_set, MatchOption, IfOk, IfSome, IsTrue, replicate};
ghost use Rattle.gap_box.specs.declared.split.Side.TheVariants.{First, Second};
ghost use Rattle.gap_box.specs.Splits.{lawful_split, child_cells};
ghost use Rattle.gap_model.specs.Nodes.{splits_of, part_at, leaf_at};
ghost use Rattle.gap_model.specs.declared.outcome.Best.{Best};
ghost use Rattle.gap_model.specs.Tight.{IsTight};
ghost use Rattle.gap_model.specs.declared.leaf.Leaf.{Leaf};
ghost use Rattle.gap_model.specs.Showing.{ShowsSo};
ghost use Rattle.gap_search.specs.Boards.{State, Board, IsBest, Claimed, node_held, tickets, FitsPart, IsSound, OpenLeaf, IsOpen};
ghost use Rattle.gap_search.specs.Steps.{Claim, ticket_of, Holds, FitsChild, Settle, release, with_best, improves, offered, Begins, Resumes, End};

use crate::pieces::{
    choice, count_held, enqueue, first_found, held_by, is_busy, key_held, offer_single, offer_to,
    outcome, set_held, set_key, take_up_all,
};
use gap_base::{Lots, OutOfMemory};
use gap_box::{NodeId, Part, Side, Split};
use gap_model::{Best, Leaf, NodeBound, Outcome, Placed};
use gap_queue::Queue;
use gap_tree::Tree;
use std::alloc::Global;
use std::marker::Model;

/// A leaf that a worker holds, with its part. It must be settled at its search or given back to it.
pub struct Ticket {
    part: Part,
    node: NodeId,
    worker: u8,
}

impl Model for Ticket {
    ghost use Rattle.gap_search.specs.Boards.{Claimed};

    ghost Value = { Claimed };

    ghost view = { λ t. record { worker = t.worker; node = t.node; part = t.part } };
}

impl Ticket {
    /// The part of the leaf.
    pub fn part(&self) -> &Part
        ensures { result.now ≡ self.now.part }
    {
        &self.part
    }

    /// The number of the leaf.
    pub fn node(&self) -> NodeId
        ensures { result ≡ self.now.node }
    {
        self.node
    }

    /// The worker that holds it.
    pub fn worker(&self) -> u8
        ensures { result ≡ self.now.worker }
    {
        self.worker
    }
}

/// A search by 1 to 16 workers for the best list that meets the limits of a bound.
///
/// Contracts see a search as the record `State`: its bound, its board, which `IsSound` between any two calls, and how
/// many workers it has. After it was made no call takes memory.
#[derive(Drop)]
pub struct Search<'a, B: NodeBound> {
    bound: B,
    tree: Tree<'a>,
    queue: Queue,
    best: Option<Best>,
    held: [Option<NodeId>; 16],
    keys: [i128; 16],
    workers: u8,
    budget: u32,
}

impl<'a, B: NodeBound> Model for Search<'a, B> {
    ghost use Rattle.gap_search.specs.Boards.{State, Board};
    ghost use Rattle.gap_search.specs.Kept.{IsKept};

    ghost Value = { State B };

    ghost view = { λ s. record {
      bound = s.bound;
      board = record { nodes = s.tree.nodes; held = s.held; best = s.best; budget = s.budget };
      workers = s.workers;
    } };

    ghost invariant = { λ s. IsKept (B.problem s.bound)
        (record { nodes = s.tree.nodes; held = s.held; best = s.best; budget = s.budget }) s.queue s.keys s.workers
        s.tree.room };
}

impl<'a, B: NodeBound> Search<'a, B> {
    /// A search by a bound from a leaf that is tight on its root, with a list that was found before, if there is one; it
    /// is the best where it meets the limits. The root's only list is offered, where it has just one. It takes memory
    /// for `2 * budget + 1` nodes and their places in the queue.
    pub fn new(
        alloc: Global,
        bound: B,
        budget: u32,
        workers: u8,
        leaf: Leaf<'a>,
        best: Option<&Lots>,
    ) -> Result<Search<'a, B>, OutOfMemory>
        requires in_range { (B.problem bound).in_range leaf ≡ true }
        requires tight { IsTight (B.problem bound) (B.problem bound).whole leaf }
        requires budget { budget ≤ 100000 }
        requires least_workers { 1 ≤ workers }
        requires most_workers { workers ≤ 16 }
        ensures bound { IfOk result (λ s. s.bound ≡ bound) }
        ensures workers { IfOk result (λ s. s.workers ≡ workers) }
        ensures begins { IfOk result
            (λ s. (first : Option Best)
            × MatchOption best.entry (first ≡ None) (λ x. first ≡ offered (B.problem bound) None x.now)
            × Begins (B.problem bound) leaf.entry first budget s.board) }
        ensures sound { IfOk result (λ s. IsSound (B.problem bound) s.board) }
    {
        let tree = Tree::with_room(alloc, 2 * budget + 1, bound.root(), leaf)?;
        Search::from_tree(alloc, bound, tree, budget, workers, best)
    }

    /// A search that goes on from a tree, whose leaves are tight, with a list that was found before, if there is one; it
    /// is the best where it meets the limits. The only list of each leaf that has just one is offered, in the order of
    /// the leaves' numbers. It takes memory for the queue, and costs what the bound asks of each leaf and O(n log n).
    pub fn from_tree(
        alloc: Global,
        bound: B,
        tree: Tree<'a>,
        budget: u32,
        workers: u8,
        best: Option<&Lots>,
    ) -> Result<Search<'a, B>, OutOfMemory>
        requires root { part_at tree.nodes 0 ≡ (B.problem bound).whole }
        requires leaves { (n : ℕ) (leaf : Leaf) → leaf_at tree.nodes n ≡ Some leaf
            → FitsPart (B.problem bound) (part_at tree.nodes n) leaf }
        requires splits { splits_of tree.nodes ≤ budget }
        requires room { 2 * budget + 1 ≤ tree.room }
        requires budget { budget ≤ 100000 }
        requires least_workers { 1 ≤ workers }
        requires most_workers { workers ≤ 16 }
        ensures bound { IfOk result (λ s. s.bound ≡ bound) }
        ensures workers { IfOk result (λ s. s.workers ≡ workers) }
        ensures resumes { IfOk result
            (λ s. (first : Option Best)
            × MatchOption best.entry (first ≡ None) (λ x. first ≡ offered (B.problem bound) None x.now)
            × Resumes (B.problem bound) tree.entry.nodes first budget s.board) }
        ensures sound { IfOk result (λ s. IsSound (B.problem bound) s.board) }
    {
        // the nodes are a tree, and each cell of its root is in range
        let _nodes = tree.nodes();
        let _cells = tree.root().len();
        let mut queue = Queue::with_room(alloc, tree.room())?;
        let mut found = first_found(&bound, best);
        take_up_all(&bound, &tree, &mut queue, &mut found);
        Ok(Search {
            bound,
            tree,
            queue,
            best: found,
            held: [None; 16],
            keys: [0; 16],
            workers,
            budget,
        })
    }

    /// Gives a worker the least leaf that waits. None comes exactly where the worker holds a leaf, splits and held
    /// leaves together equal the budget, or no leaf that waits shows less than the best; then nothing changes. It
    /// costs O(log n) and as many steps as the leaf is deep.
    pub fn claim(&mut self, worker: u8) -> Option<Ticket>
        requires { worker < self.old.workers }
        ensures bound { self.new.bound ≡ self.old.bound }
        ensures workers { self.new.workers ≡ self.old.workers }
        ensures step { Claim (B.problem self.old.bound) self.old.board worker result self.new.board }
        ensures sound { IsSound (B.problem self.old.bound) self.new.board }
    {
        let node = self.take(worker)?;
        let part = self.tree.part_of(node);
        Some(Ticket { part, node, worker })
    }

    /// A claim that answers the number of the leaf in place of a ticket, which `ticket` makes. It costs O(log n).
    pub fn take(&mut self, worker: u8) -> Option<NodeId>
        requires { worker < self.old.workers }
        ensures bound { self.new.bound ≡ self.old.bound }
        ensures workers { self.new.workers ≡ self.old.workers }
        ensures step { Claim (B.problem self.old.bound) self.old.board worker
            (ticket_of self.old.board.nodes worker result) self.new.board }
        ensures there { IfSome result (λ node. node.0 < length self.new.board.nodes) }
        ensures sound { IsSound (B.problem self.old.bound) self.new.board }
    {
        if is_busy(&self.held, worker) {
            return None;
        }
        if self.tree.inner() + count_held(&self.held) >= self.budget {
            return None;
        }
        match choice(&self.queue, &self.best) {
            None => None,
            Some(next) => {
                let _taken = self.queue.remove(next.0);
                set_held(&mut self.held, worker, Some(next.0));
                set_key(&mut self.keys, worker, next.1);
                Some(next.0)
            }
        }
    }

    /// The ticket of what a worker holds; None exactly where it holds nothing. It costs as many steps as the leaf is deep.
    pub fn ticket(&self, worker: u8) -> Option<Ticket>
        requires { worker < 16 }
        ensures ticket { result ≡ ticket_of self.now.board.nodes worker (node_held self.now.board.held worker) }
        ensures holds { IfSome result (λ t. Holds self.now.board t) }
    {
        let node = held_by(&self.held, worker)?;
        let part = self.tree.part_of(node);
        Some(Ticket { part, node, worker })
    }

    /// Splits the ticket's leaf in two, and offers the only list of each child that has just one, the first child's
    /// before the second's. What the two leaves show comes with them, so the bound isn't asked for it. It costs O(log n),
    /// as many steps as the leaf is deep, and what an offer costs.
    pub fn settle(&mut self, ticket: Ticket, split: Split, first: Placed<'a>, second: Placed<'a>)
        requires holds { Holds self.old.board ticket }
        requires lawful { IsTrue (lawful_split ticket.part split) }
        requires fits_first { FitsChild (B.problem self.old.bound) self.old.board ticket
            (child_cells ticket.part split First) first.leaf }
        requires fits_second { FitsChild (B.problem self.old.bound) self.old.board ticket
            (child_cells ticket.part split Second) second.leaf }
        requires shows_first { ShowsSo (B.problem self.old.bound) (child_cells ticket.part split First) first }
        requires shows_second { ShowsSo (B.problem self.old.bound) (child_cells ticket.part split Second) second }
        ensures bound { self.new.bound ≡ self.old.bound }
        ensures workers { self.new.workers ≡ self.old.workers }
        ensures step { Settle (B.problem self.old.bound) self.old.board ticket split first.entry.leaf second.entry.leaf
            self.new.board }
        ensures sound { IsSound (B.problem self.old.bound) self.new.board }
    {
        let Ticket { part, node, worker } = ticket;
        let one = part.child(split, Side::First);
        let two = part.child(split, Side::Second);
        let (first_node, second_node) = self.tree.split_leaf(node, split, first.leaf, second.leaf);
        set_held(&mut self.held, worker, None);
        enqueue(&mut self.queue, first_node, first.shown);
        enqueue(&mut self.queue, second_node, second.shown);
        offer_single(&self.bound, &mut self.best, &one);
        offer_single(&self.bound, &mut self.best, &two);
    }

    /// Makes the ticket's leaf one that waits again, and changes nothing else. It costs O(log n).
    pub fn give_back(&mut self, ticket: Ticket)
        requires { Holds self.old.board ticket }
        ensures value { self.new ≡ record self.old { board = release self.old.board ticket.worker } }
        ensures sound { IsSound (B.problem self.old.bound) self.new.board }
    {
        let Ticket {
            part: _,
            node,
            worker,
        } = ticket;
        let key = key_held(&self.keys, worker);
        self.queue.put(node, key);
        set_held(&mut self.held, worker, None);
    }

    /// Takes a list as the best: true exactly where it meets the limits and costs less than the best, or there is none.
    /// False changes nothing.
    pub fn offer(&mut self, x: &Lots) -> bool
        ensures taken { result ≡ improves (B.problem self.old.bound) self.old.board.best x.now }
        ensures value { self.new ≡ record self.old
            { board = with_best self.old.board (offered (B.problem self.old.bound) self.old.board.best x.now) } }
        ensures sound { IsSound (B.problem self.old.bound) self.new.board }
    {
        offer_to(&self.bound, &mut self.best, x)
    }

    /// How the search stands, where no leaf is held: closed exactly where there is a best and every leaf shows at least
    /// its value, without a list exactly where there is no best and every leaf shows Empty, and else bounded by the
    /// least that a leaf shows. It costs O(1).
    pub fn end(&self) -> Outcome
        requires { tickets self.now.board.held ≡ 0 }
        ensures { End (B.problem self.now.bound) self.now.board result }
    {
        outcome(&self.queue, &self.best)
    }

    /// How many workers there are: at most 16, each with a place for the leaf that it holds.
    pub fn workers(&self) -> u8
        ensures workers { result ≡ self.now.workers }
        ensures most { self.now.workers ≤ 16 }
        ensures places { length self.now.board.held ≡ 16 }
    {
        self.workers
    }

    /// How many splits were made.
    pub fn inner(&self) -> u32
        ensures count { result ≡ splits_of self.now.board.nodes }
        ensures sound { IsSound (B.problem self.now.bound) self.now.board }
    {
        self.tree.inner()
    }

    /// The bound.
    pub fn bound(&self) -> &B
        ensures { result.now ≡ self.now.bound }
    {
        &self.bound
    }

    /// The tree.
    pub fn tree(&self) -> &Tree<'a>
        ensures { result.now.nodes ≡ self.now.board.nodes }
    {
        &self.tree
    }

    /// The best list that was found.
    pub fn best(&self) -> Option<&Best>
        ensures { MatchOption result (self.now.board.best ≡ None) (λ best. self.now.board.best ≡ Some best.now) }
    {
        self.best.as_ref()
    }

    /// The leaf of a ticket, which can be taken further apart.
    pub fn leaf(&self, ticket: &Ticket) -> Leaf<'a>
        requires { Holds self.now.board ticket.now }
        ensures there { leaf_at self.now.board.nodes ticket.now.node.0 ≡ Some result }
        ensures open { IsOpen (B.problem self.now.bound) ticket.now.part result }
    {
        match self.tree.leaf_of(ticket.node) {
            Some(leaf) => leaf,
            None => unreachable!(),
        }
    }

    /// The tree, which has room for the budget; the rest is let go. It takes no memory.
    pub fn into_tree(self) -> Tree<'a>
        requires { tickets self.board.held ≡ 0 }
        ensures nodes { result.nodes ≡ self.entry.board.nodes }
        ensures room { 2 * self.entry.board.budget + 1 ≤ result.room }
    {
        let Search { tree, .. } = self;
        tree
    }
}
