//! The pieces of a step, each over what it reads and writes.

ghost use Rattle.std.specs.Prelude.{◌≡◌, ℕ, ◌+◌, ◌<◌, ◌≤◌, true, false, Some, None, length, slice_index_or, slice_set, IsTrue, pos, MatchOption};
ghost use Rattle.gap_box.specs.declared.node.NodeId.{NodeId};
ghost use Rattle.gap_box.specs.Cells.{AreCells};
ghost use Rattle.gap_queue.specs.Keys.{key_at};
ghost use Rattle.gap_search.specs.Boards.{node_held, tickets, BestAtMost, BestAbove, IsBest};
ghost use Rattle.gap_model.specs.declared.leaf.Leaf.{Leaf};
ghost use Rattle.gap_model.specs.Nodes.{part_at, leaf_at};
ghost use Rattle.gap_search.specs.Steps.{improves, offered, OfferSingle, OfferLeaf, OfferLeaves};
ghost use Rattle.gap_search.specs.Kept.{enqueued, leaf_enqueued, WaitBelow, IsChoice, Ends};

use gap_base::Lots;
use gap_box::{NodeId, Part};
use gap_model::{Best, NodeBound, Outcome, Shown};
use gap_queue::Queue;
use gap_tree::Tree;

/// The leaf that a worker holds.
pub fn held_by(held: &[Option<NodeId>], worker: u8) -> Option<NodeId>
    requires { worker < length held.now }
    ensures { result ≡ node_held held.now worker }
{
    held[usize::from(worker)]
}

/// Does a worker hold a leaf?
pub fn is_busy(held: &[Option<NodeId>], worker: u8) -> bool
    requires { worker < length held.now }
    ensures yes { IsTrue result → (node : NodeId) × (node_held held.now worker ≡ Some node) }
    ensures no { result ≡ false → node_held held.now worker ≡ None }
{
    match held_by(held, worker) {
        Some(_) => true,
        None => false,
    }
}

/// Writes what a worker holds.
pub fn set_held(held: &mut [Option<NodeId>], worker: u8, node: Option<NodeId>)
    requires { worker < length held.old }
    ensures { held.new ≡ slice_set held.old worker node }
{
    held[usize::from(worker)] = node;
}

/// What a worker's leaf shows.
pub fn key_held(keys: &[i128], worker: u8) -> i128
    requires { worker < length keys.now }
    ensures { result ≡ slice_index_or keys.now worker (pos 0) }
{
    keys[usize::from(worker)]
}

/// Writes what a worker's leaf shows.
pub fn set_key(keys: &mut [i128], worker: u8, key: i128)
    requires { worker < length keys.old }
    ensures { keys.new ≡ slice_set keys.old worker key }
{
    keys[usize::from(worker)] = key;
}

/// How many leaves are held. It costs one pass over the workers.
pub fn count_held(held: &[Option<NodeId>]) -> u32
    requires { length held.now ≤ 16 }
    ensures count { result ≡ tickets held.now }
    ensures most { result ≤ 16 }
{
    let mut count = 0;
    for node in held {
        if node.is_some() {
            count += 1;
        }
    }
    count
}

/// Is a number below the best? Any is where there is none.
pub fn is_below(best: &Option<Best>, key: i128) -> bool
    ensures yes { IsTrue result → BestAbove best.now key }
    ensures no { result ≡ false → BestAtMost best.now key }
{
    match best {
        Some(best) => key < best.value,
        None => true,
    }
}

/// The leaf to be claimed next: the least that waits, where it shows less than the best.
pub fn choice(queue: &Queue, best: &Option<Best>) -> Option<(NodeId, i128)>
    ensures { IsChoice queue.now best.now result }
{
    let node = queue.least()?;
    let key = queue.key(node)?;
    if is_below(best, key) {
        Some((node, key))
    } else {
        None
    }
}

/// Takes a list as the best, where it meets the limits and costs less.
pub fn offer_to<B: NodeBound>(bound: &B, best: &mut Option<Best>, x: &Lots) -> bool
    requires { AreCells (B.problem bound.now).whole }
    ensures taken { result ≡ improves (B.problem bound.now) best.old x.now }
    ensures best { best.new ≡ offered (B.problem bound.now) best.old x.now }
{
    if !bound.keeps(x) {
        return false;
    }
    let value = bound.value(x);
    let better = match best {
        Some(found) => value < found.value,
        None => true,
    };
    if better {
        *best = Some(Best {
            lots: x.copy(),
            value,
        });
    }
    better
}

/// Offers the only list of a part, where it has just one.
pub fn offer_single<B: NodeBound>(bound: &B, best: &mut Option<Best>, part: &Part)
    requires { AreCells (B.problem bound.now).whole }
    ensures { OfferSingle (B.problem bound.now) part.now best.old best.new }
{
    if let Some(x) = part.single_within(bound.held(), bound.held_most()) {
        let _taken = offer_to(bound, best, &x);
    }
}

/// Puts a new leaf into the queue, where it shows a number.
pub fn enqueue(queue: &mut Queue, node: NodeId, shown: Shown)
    requires there { node.0 < length queue.old }
    requires fresh { key_at queue.old node.0 ≡ None }
    ensures { queue.new ≡ enqueued queue.old node.0 shown }
{
    if let Shown::AtLeast(key) = shown {
        queue.put(node, key);
    }
}

/// Puts the leaf of a node, where it has one, into the queue, where it shows a number, and offers the only list of its
/// part, where it has just one.
pub fn take_up<B: NodeBound>(
    bound: &B,
    tree: &Tree<'_>,
    node: NodeId,
    queue: &mut Queue,
    best: &mut Option<Best>,
)
    requires root { part_at tree.now.nodes 0 ≡ (B.problem bound.now).whole }
    requires in_range { (leaf : Leaf) → leaf_at tree.now.nodes node.0 ≡ Some leaf
        → (B.problem bound.now).in_range leaf ≡ true }
    requires there { node.0 < length queue.old }
    requires fresh { key_at queue.old node.0 ≡ None }
    ensures queue { queue.new ≡ leaf_enqueued (B.problem bound.now) queue.old node.0 (part_at tree.now.nodes node.0)
        (leaf_at tree.now.nodes node.0) }
    ensures best { OfferLeaf (B.problem bound.now) (part_at tree.now.nodes node.0) (leaf_at tree.now.nodes node.0)
        best.old best.new }
{
    // the nodes are a tree
    let _count = tree.nodes();
    if let Some(leaf) = tree.leaf_of(node) {
        let part = tree.part_of(node);
        enqueue(queue, node, bound.shown(&part, &leaf));
        offer_single(bound, best, &part);
    }
}

/// Takes up the leaves of a tree in the order of their numbers, into a queue that has no entry.
pub fn take_up_all<B: NodeBound>(
    bound: &B,
    tree: &Tree<'_>,
    queue: &mut Queue,
    best: &mut Option<Best>,
)
    requires root { part_at tree.now.nodes 0 ≡ (B.problem bound.now).whole }
    requires in_range { (n : ℕ) (leaf : Leaf) → leaf_at tree.now.nodes n ≡ Some leaf
        → (B.problem bound.now).in_range leaf ≡ true }
    requires room { length tree.now.nodes ≤ length queue.old }
    requires none { (n : ℕ) → key_at queue.old n ≡ None }
    ensures room { length queue.new ≡ length queue.old }
    ensures queue { WaitBelow (B.problem bound.now) tree.now.nodes (length tree.now.nodes) queue.new }
    ensures best { OfferLeaves (B.problem bound.now) tree.now.nodes best.old best.new }
{
    for n in 0..tree.nodes() {
        take_up(bound, tree, NodeId(n), queue, best);
    }
}

/// The best of a list that was found before, if there is one: the list itself, where it meets the limits.
pub fn first_found<B: NodeBound>(bound: &B, best: Option<&Lots>) -> Option<Best>
    requires { AreCells (B.problem bound.now).whole }
    ensures found { MatchOption best.entry (result ≡ None) (λ x. result ≡ offered (B.problem bound.now) None x.now) }
    ensures valid { IsBest (B.problem bound.now) result }
{
    match best {
        Some(x) => {
            let mut found = None;
            let _taken = offer_to(bound, &mut found, x);
            found
        }
        None => None,
    }
}

/// How a search ends whose leaves all wait in the queue or show that they have no list.
pub fn outcome(queue: &Queue, best: &Option<Best>) -> Outcome
    ensures { Ends queue.now best.now result }
{
    match choice(queue, best) {
        Some(next) => Outcome::Bounded {
            best: copy_best(best),
            bound: next.1,
        },
        None => match best {
            Some(best) => Outcome::Closed(best.copy()),
            None => Outcome::NoPortfolio,
        },
    }
}

/// An equal best.
fn copy_best(best: &Option<Best>) -> Option<Best>
    ensures { result ≡ best.now }
{
    match best {
        Some(best) => Some(best.copy()),
        None => None,
    }
}
