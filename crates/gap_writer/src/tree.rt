//! The items of a tree, appended to a file in the order of its bytes.

ghost use Rattle.std.specs.Prelude.{◌≡◌, ℕ, ◌+◌, ◌-◌, ◌<◌, ◌≤◌, ◌^◌, List, [], ◌∷◌, ◌++◌, length, Some, OnOk};
ghost use Rattle.gap_cert.specs.declared.field.Field.TheVariants as field;
ghost use Rattle.gap_cert.specs.Certificates.{leaf_field};
ghost use Rattle.gap_box.specs.Narrow.{asset_of};
ghost use Rattle.gap_model.specs.declared.leaf.Leaf.{Leaf};
ghost use Rattle.gap_model.specs.Nodes.{split_at, leaf_at, first_at};
ghost use Rattle.gap_solved.specs.Solveds.{cert_leaf_of};
ghost use Rattle.gap_files.specs.Outside.{SinkNow};
ghost use Rattle.gap_files.specs.Drains.{Drains};
ghost use Rattle.gap_writer.specs.Writing.{put};
ghost use Rattle.gap_writer.specs.Filled.{Owes, weight_of, children_of, root_stack};

use crate::pieces::drain;
use crate::writer::Writer;
use gap_base::OutOfMemory;
use gap_box::{NodeId, Split};
use gap_files::{Files, Halt};
use gap_instance::Instance;
use gap_tree::Tree;
use std::alloc::Global;

#[tactic(auto, using(crate::proofs::Waiting::split_small))]
/// The split of a node; None exactly where the node is a leaf or there is no such node.
fn split_of(tree: &Tree<'_>, node: NodeId) -> Option<Split>
    ensures split { result ≡ split_at tree.now.nodes node.0 }
    ensures inside { (split : Split) → result ≡ Some split → asset_of split < 256 }
{
    // the tree's parts have at most 256 assets
    let _nodes = tree.nodes();
    let _assets = tree.root().len();
    tree.split_of(node)
}

#[tactic(auto, using(crate::proofs::Waiting::not_both))]
/// Writes the item of a node: its split, or its leaf.
fn write_item(
    inst: &Instance,
    tree: &Tree<'_>,
    node: NodeId,
    writer: &mut Writer,
) -> Result<(), OutOfMemory>
    ensures split { OnOk result
        ((split : Split) → split_at tree.now.nodes node.0 ≡ Some split → writer.new ≡ put writer.old (field.Split split)) }
    ensures leaf { OnOk result
        ((leaf : Leaf) → leaf_at tree.now.nodes node.0 ≡ Some leaf
        → writer.new ≡ put writer.old (leaf_field (cert_leaf_of inst.now.market.assets leaf))) }
    ensures grows { OnOk result (length writer.old.bytes ≤ length writer.new.bytes) }
{
    if let Some(split) = split_of(tree, node) {
        writer.split(split)?;
    } else if let Some(leaf) = tree.leaf_of(node) {
        writer.leaf(inst, &leaf)?;
    }
    Ok(())
}

/// Lets the children of a node wait, the second below the first; where it is a leaf nothing more waits.
fn push_children(tree: &Tree<'_>, node: NodeId, stack: &mut Vec<NodeId>) -> Result<(), OutOfMemory>
    ensures { OnOk result (stack.new.items ≡ stack.old.items ++ children_of (first_at tree.now.nodes node.0)) }
{
    if let Some((first, second)) = tree.children(node) {
        stack.push(second)?;
        stack.push(first)?;
    }
    Ok(())
}

/// Writes a node, and lets its children wait.
fn write_node(
    inst: &Instance,
    tree: &Tree<'_>,
    node: NodeId,
    stack: &mut Vec<NodeId>,
    writer: &mut Writer,
) -> Result<(), OutOfMemory>
    requires { 0 < length writer.old.bytes }
    ensures owes { OnOk result
        ((all : List ℕ) → Owes inst.now.market.assets tree.now.nodes (stack.old.items ++ node ∷ []) writer.old all
        → Owes inst.now.market.assets tree.now.nodes stack.new.items writer.new all) }
    ensures some { OnOk result (0 < length writer.new.bytes) }
    ensures lighter { OnOk result
        (weight_of (length tree.now.nodes) stack.new.items
        < weight_of (length tree.now.nodes) (stack.old.items ++ node ∷ [])) }
{
    // each node comes before its children
    let _nodes = tree.nodes();
    write_item(inst, tree, node, writer)?;
    push_children(tree, node, stack)?;
    Ok(())
}

/// Appends the items of a tree behind what the writer has, but for its last piece, which stays in the writer.
pub fn write_tree<F: Files>(
    alloc: Global,
    files: &mut F,
    name: &str,
    inst: &Instance,
    tree: &Tree<'_>,
    writer: &mut Writer,
    piece: usize,
) -> Result<(), Halt>
    requires piece { 0 < piece }
    requires some { 0 < length writer.old.bytes }
    ensures drains { (sink : SinkNow) (all : List ℕ) → Owes inst.now.market.assets tree.now.nodes root_stack writer.old all
        → Drains name.now (F.files files.old) (F.files files.new) sink all writer.new.bytes result }
    ensures some { OnOk result (0 < length writer.new.bytes) }
{
    let mut stack: Vec<NodeId> = Vec::new(alloc);
    push_root(&mut stack)?;
    while let Some(node) = stack.pop() {
        write_node(inst, tree, node, &mut stack, writer)?;
        drain(files, name, writer, piece)?;
    }
    Ok(())
}

/// Lets the root wait.
fn push_root(stack: &mut Vec<NodeId>) -> Result<(), OutOfMemory>
    requires { stack.old.items ≡ [] }
    ensures { OnOk result (stack.new.items ≡ root_stack) }
{
    stack.push(NodeId(0))?;
    Ok(())
}
