//! Trees of parts.

ghost use Rattle.std.specs.Prelude.{◌≡◌, ℕ, ◌+◌, ◌<◌, ◌≤◌, Some, None, length, slice_get, IsSome, IfOk, IsTrue};
ghost use Rattle.gap_box.specs.Splits.{lawful_split};
ghost use Rattle.gap_model.specs.Nodes.{splits_of, part_at, leaf_at, split_at, first_at, parent_at, split_nodes, leaf_nodes, root_nodes, IsTree};
ghost use Rattle.gap_tree.specs.Links.{TreeValue, node_named, children_from};

use crate::link::{Link, climb, first_of, leaf_of, put_leaf, split_links, split_of, up_of};
use gap_base::OutOfMemory;
use gap_box::{NodeId, Part, Split};
use gap_model::Leaf;
use std::alloc::Global;
use std::marker::Model;

/// A tree of parts. Its root has number 0, and each split gives the next two numbers to its first and its second child.
///
/// Contracts see a tree as the record `TreeValue`: the list of its nodes, which is a tree (`IsTree`), and how many
/// nodes it has room for. Room is reserved when the tree is made, and no other call takes memory. A reader costs O(1).
#[derive(Drop)]
pub struct Tree<'a> {
    room: u32,
    root: Part,
    links: Vec<Link<'a>>,
}

impl<'a> Model for Tree<'a> {
    ghost use Rattle.std.specs.Prelude.{vec_capacity};
    ghost use Rattle.gap_tree.specs.Links.{TreeValue, nodes_of, IsKept};

    ghost Value = { TreeValue };

    ghost view = { λ t. record { nodes = nodes_of t.root t.links.items; room = t.room } };

    ghost invariant = { λ t. IsKept t.root t.links.items t.room (vec_capacity t.links) };
}

impl<'a> Tree<'a> {
    /// A tree whose root is a leaf, with room for `nodes` nodes. It takes memory for them all.
    pub fn with_room(
        alloc: Global,
        nodes: u32,
        root: Part,
        leaf: Leaf<'a>,
    ) -> Result<Tree<'a>, OutOfMemory>
        requires { 1 ≤ nodes }
        ensures value { IfOk result (λ t. t ≡ record { nodes = root_nodes root leaf.entry; room = nodes }) }
        ensures tree { IfOk result (λ t. IsTree t.nodes) }
    {
        // each cell of the root is in range
        let _count = root.len();
        let mut links = Vec::with_capacity(alloc, nodes as usize)?;
        links.push_reserved(Link {
            up: None,
            first: None,
            leaf,
        });
        Ok(Tree {
            room: nodes,
            root,
            links,
        })
    }

    /// How many nodes there are.
    pub fn nodes(&self) -> u32
        ensures count { result ≡ length self.now.nodes }
        ensures limit { length self.now.nodes ≤ self.now.room }
        ensures tree { IsTree self.now.nodes }
    {
        self.links.len() as u32
    }

    /// How many nodes are split.
    pub fn inner(&self) -> u32
        ensures { result ≡ splits_of self.now.nodes }
    {
        // a tree has one node more than twice its splits
        (self.nodes() - 1) / 2
    }

    /// How many nodes there is room for.
    pub fn room(&self) -> u32
        ensures { result ≡ self.now.room }
    {
        self.room
    }

    /// The root's part.
    pub fn root(&self) -> &Part
        ensures { result.now ≡ part_at self.now.nodes 0 }
    {
        &self.root
    }

    /// The part of a node: the root's with the decisions from the root down. It costs as many steps as the node is deep.
    pub fn part_of(&self, node: NodeId) -> Part
        requires { node.0 < length self.now.nodes }
        ensures { result ≡ part_at self.now.nodes node.0 }
    {
        climb(&self.root, self.links.as_slice(), node)
    }

    /// The leaf of a node; None exactly where the node is split or there is no such node.
    pub fn leaf_of(&self, node: NodeId) -> Option<Leaf<'a>>
        ensures { result ≡ leaf_at self.now.nodes node.0 }
    {
        leaf_of(self.links.as_slice(), node)
    }

    /// The split of a node; None exactly where the node is a leaf or there is no such node.
    pub fn split_of(&self, node: NodeId) -> Option<Split>
        ensures { result ≡ split_at self.now.nodes node.0 }
    {
        split_of(self.links.as_slice(), node)
    }

    /// The two children of a node; None exactly where the node is a leaf or there is no such node.
    pub fn children(&self, node: NodeId) -> Option<(NodeId, NodeId)>
        ensures { result ≡ children_from (first_at self.now.nodes node.0) }
    {
        match first_of(self.links.as_slice(), node) {
            Some(first) => Some((first, NodeId(first.0 + 1))),
            None => None,
        }
    }

    /// The parent of a node; None exactly where the node is the root or there is no such node.
    pub fn parent(&self, node: NodeId) -> Option<NodeId>
        ensures { result ≡ node_named (parent_at self.now.nodes node.0) }
    {
        match up_of(self.links.as_slice(), node) {
            Some(up) => Some(up.parent),
            None => None,
        }
    }

    /// Splits a leaf into two, whose numbers are answered. Nothing else changes. It costs O(1).
    pub fn split_leaf(
        &mut self,
        node: NodeId,
        split: Split,
        first: Leaf<'a>,
        second: Leaf<'a>,
    ) -> (NodeId, NodeId)
        requires leaf { IsSome (leaf_at self.old.nodes node.0) }
        requires lawful { IsTrue (lawful_split (part_at self.old.nodes node.0) split) }
        requires space { length self.old.nodes + 2 ≤ self.old.room }
        ensures first { result.0.0 ≡ length self.old.nodes }
        ensures second { result.1.0 ≡ length self.old.nodes + 1 }
        ensures value { self.new ≡ record self.old
            { nodes = split_nodes self.old.nodes node.0 split first.entry second.entry } }
        ensures tree { IsTree self.new.nodes }
    {
        let first_child = split_links(&mut self.links, node, split, first, second);
        (first_child, NodeId(first_child.0 + 1))
    }

    /// Puts another leaf in the place of a leaf. Nothing else changes. It costs O(1).
    pub fn set_leaf(&mut self, node: NodeId, leaf: Leaf<'a>)
        requires { IsSome (leaf_at self.old.nodes node.0) }
        ensures value { self.new ≡ record self.old { nodes = leaf_nodes self.old.nodes node.0 leaf.entry } }
        ensures tree { IsTree self.new.nodes }
    {
        put_leaf(&mut self.links, node, leaf);
    }
}
