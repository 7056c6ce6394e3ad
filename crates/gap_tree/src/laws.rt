//! What holds of every list of nodes that is a tree. Nothing is computed here.

ghost use Rattle.std.specs.Prelude.{◌≡◌, ℕ, ◌<◌, List, length};
ghost use Rattle.gap_model.specs.Nodes.{Node, IsTree};
ghost use Rattle.gap_tree.specs.Grown.{HasTree};

/// A list of nodes that is a tree is a tree of splits, and so is what is below each of its nodes.
pub fn nodes_are_a_tree()
    ensures { (nodes : List Node) (n : ℕ) → IsTree nodes → n < length nodes → HasTree nodes n }
{}
