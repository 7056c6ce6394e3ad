//! What holds of every list of steps, whatever their order. Nothing is computed here.

ghost use Rattle.std.specs.Prelude.{◌≡◌, ℕ, ◌+◌, ◌≤◌, List, Option, Some, true, ℤ, IsTrue};
ghost use Rattle.gap_box.specs.declared.node.NodeId.{NodeId};
ghost use Rattle.gap_box.specs.declared.split.Split.{Split};
ghost use Rattle.gap_box.specs.Parts.{in_part, points};
ghost use Rattle.gap_box.specs.Splits.{lawful_split};
ghost use Rattle.gap_model.specs.declared.outcome.Best.{Best};
ghost use Rattle.gap_model.specs.declared.outcome.Outcome.{Outcome};
ghost use Rattle.gap_model.specs.declared.outcome.Outcome.TheVariants.{Closed, Bounded};
ghost use Rattle.gap_model.specs.declared.shown.Shown.{Shown};
ghost use Rattle.gap_model.specs.declared.shown.Shown.TheVariants.{AtLeast};
ghost use Rattle.gap_model.specs.Order.{ShownLe};
ghost use Rattle.gap_model.specs.Trees.{SplitTree};
ghost use Rattle.gap_model.specs.Nodes.{Node, splits_of, part_at, IsTree, IsTreeOf};
ghost use Rattle.gap_search.specs.Boards.{Board, node_held, BestAtMost, AllShow, IsShown, OpenLeaf, IsOpen, InOneLeaf, IsSound};
ghost use Rattle.gap_search.specs.Steps.{Event, Run, Refusal, Grant, End};
ghost use Rattle.gap_search.specs.Stays.{Stays};
ghost use Rattle.gap_search.specs.Whole.{HasEachLeaf};

use gap_model::NodeBound;

/// Every list of steps by any workers keeps what holds between two steps; it never lowers the least that a leaf shows,
/// nor makes the best worse. A split that was there stays where it was, and so does a leaf that isn't split.
pub fn every_order<B: NodeBound>()
    ensures sound { (bound : B) (old new : Board) (events : List Event) → IsSound (B.problem bound) old
        → Run (B.problem bound) old events new → IsSound (B.problem bound) new }
    ensures never_lower { (bound : B) (old new : Board) (events : List Event) (least : Shown)
        → IsSound (B.problem bound) old → Run (B.problem bound) old events new
        → AllShow (B.problem bound) old.nodes least → AllShow (B.problem bound) new.nodes least }
    ensures never_worse { (bound : B) (old new : Board) (events : List Event) (value : ℤ)
        → Run (B.problem bound) old events new → BestAtMost old.best value → BestAtMost new.best value }
    ensures stays { (bound : B) (old new : Board) (events : List Event) → IsSound (B.problem bound) old
        → Run (B.problem bound) old events new → Stays old.nodes new.nodes }
{}

/// What a sound board says in the words of the problem. Each list of the root is in the part of exactly one leaf, so no
/// list that meets the limits costs less than the least that a leaf shows. There are fewer splits than the root has
/// points, and where there is but one fewer, no leaf shows less than the best. A leaf that is held can be taken further
/// apart, by a lawful split.
pub fn sound_board<B: NodeBound>()
    ensures once { (bound : B) (board : Board) (x : List ℕ) → IsSound (B.problem bound) board
        → IsTrue (in_part (B.problem bound).whole x) → InOneLeaf board.nodes x }
    ensures floor { (bound : B) (board : Board) (least : Shown) (x : List ℕ) → IsSound (B.problem bound) board
        → AllShow (B.problem bound) board.nodes least → (B.problem bound).meets x ≡ true
        → ShownLe least (AtLeast ((B.problem bound).cost x)) }
    ensures few { (bound : B) (board : Board) → IsSound (B.problem bound) board
        → splits_of board.nodes + 1 ≤ points (B.problem bound).whole }
    ensures full { (bound : B) (board : Board) (value : ℤ) → IsSound (B.problem bound) board
        → splits_of board.nodes + 1 ≡ points (B.problem bound).whole → IsShown (B.problem bound) board.nodes value
        → BestAtMost board.best value }
    ensures held { (bound : B) (board : Board) (w : ℕ) (node : NodeId) → IsSound (B.problem bound) board
        → node_held board.held w ≡ Some node → OpenLeaf (B.problem bound) board.nodes node.0 }
    ensures open { (bound : B) (board : Board) (n : ℕ) (o : OpenLeaf (B.problem bound) board.nodes n)
        → IsSound (B.problem bound) board → IsOpen (B.problem bound) (part_at board.nodes n) o.leaf }
    ensures split { (bound : B) (board : Board) (n : ℕ) → IsSound (B.problem bound) board
        → OpenLeaf (B.problem bound) board.nodes n
        → (split : Split) × IsTrue (lawful_split (part_at board.nodes n) split) }
{}

/// A claim is granted or refused, never both. Where a search ends closed, or with as many splits as the root can have,
/// every claim is refused; with so many splits it doesn't end bounded.
pub fn refusals<B: NodeBound>()
    ensures apart { (bound : B) (board : Board) (w : ℕ) (node : NodeId) → Refusal (B.problem bound) board w
        → Grant (B.problem bound) board w node → ⊥ }
    ensures closed { (bound : B) (board : Board) (w : ℕ) (best : Best) → End (B.problem bound) board (Closed best)
        → Refusal (B.problem bound) board w }
    ensures full { (bound : B) (board : Board) (w : ℕ) → IsSound (B.problem bound) board
        → splits_of board.nodes + 1 ≡ points (B.problem bound).whole → Refusal (B.problem bound) board w }
    ensures full_end { (bound : B) (board : Board) (best : Option Best) (value : ℤ) → IsSound (B.problem bound) board
        → splits_of board.nodes + 1 ≡ points (B.problem bound).whole
        → End (B.problem bound) board (Bounded best value) → ⊥ }
{}

/// A search ends in one way: of closed, without a list and bounded only one holds of a board, with one best and one bound.
pub fn one_end<B: NodeBound>()
    ensures { (bound : B) (board : Board) (one two : Outcome) → End (B.problem bound) board one
        → End (B.problem bound) board two → one ≡ two }
{}

/// Where a list of nodes is a tree, each leaf of the nodes is a leaf of the tree of splits that stands at the root, at the
/// same part. That each leaf of the tree is one of the nodes is said of `HasTree`.
pub fn each_leaf_is_in_the_tree()
    ensures { (nodes : List Node) (tree : SplitTree) → IsTree nodes → IsTreeOf nodes 0 tree → HasEachLeaf nodes tree }
{}
