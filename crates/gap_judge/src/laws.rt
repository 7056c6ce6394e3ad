//! The law of walks, as a contract. Nothing is computed here.

ghost use Rattle.std.specs.Prelude.{◌≡◌, ℕ, ◌<◌, List, [], ◌∷◌, length, take, slice_get};
ghost use Rattle.gap_box.specs.declared.cell.Cell.{Cell};
ghost use Rattle.gap_cert.specs.Certificates.{CertTree, tree_fields};
ghost use Rattle.gap_judge.specs.Walks.{node_parts, walked};

/// A walk from the part of a tree's root along the tree's items, in the order of a certificate's bytes: before each item
/// the first part to come is the one that the tree gives to that node, and behind the last one none is to come.
pub fn walks_follow_trees()
    ensures parts { (root : List Cell) (tree : CertTree) (i : ℕ) → i < length (tree_fields tree)
        → slice_get (walked (root ∷ []) (take i (tree_fields tree))) 0 ≡ slice_get (node_parts root tree) i }
    ensures nodes { (root : List Cell) (tree : CertTree) → length (node_parts root tree) ≡ length (tree_fields tree) }
    ensures whole { (root : List Cell) (tree : CertTree) → walked (root ∷ []) (tree_fields tree) ≡ [] }
{}
