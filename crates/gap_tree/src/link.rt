//! Nodes as they are kept: linked by number, each with the one decision by which it differs from its parent.

ghost use Rattle.std.specs.Prelude.{◌≡◌, ℕ, ◌+◌, ◌<◌, Some, [], ◌∷◌, ◌++◌, length, slice_get, slice_index_or, slice_set, vec_len, vec_capacity};
ghost use Rattle.gap_box.specs.declared.split.Side.TheVariants.{First, Second};
ghost use Rattle.gap_tree.specs.declared.link.Link.{Link};
ghost use Rattle.gap_tree.specs.Links.{up_at, split_above, parts_of, AreOrdered, with_first, with_leaf, child_link, link_leaf, link_first, split_where};

use gap_box::{NodeId, Part, Side, Split};
use gap_model::Leaf;

/// The decision that leads to a node: its parent, and which side of which split of the parent the node is.
#[derive(Clone, Copy)]
pub struct Up {
    pub parent: NodeId,
    pub split: Split,
    pub side: Side,
}

/// A node: the decision that leads to it, which the root has none of, the number of its first child, behind which the
/// second stands, and the leaf that it is, or was before it was split. It takes 112 bytes.
#[derive(Clone, Copy)]
pub struct Link<'a> {
    pub up: Option<Up>,
    pub first: Option<NodeId>,
    pub leaf: Leaf<'a>,
}

/// The node with a number, where there is one.
pub fn link_at<'a>(links: &[Link<'a>], node: NodeId) -> Option<Link<'a>>
    ensures { result ≡ slice_get links.now node.0 }
{
    let place = node.0 as usize;
    if place < links.len() {
        Some(links[place])
    } else {
        None
    }
}

/// The decision that leads to a node; None at the root and where there is no node.
pub fn up_of(links: &[Link<'_>], node: NodeId) -> Option<Up>
    ensures { result ≡ up_at links.now node.0 }
{
    match link_at(links, node) {
        Some(link) => link.up,
        None => None,
    }
}

/// The split that leads to a node.
pub fn split_to(links: &[Link<'_>], node: NodeId) -> Split
    ensures { result ≡ split_above links.now node.0 }
{
    match up_of(links, node) {
        Some(up) => up.split,
        // no tree asks for the split above its root
        None => Split::Held(0),
    }
}

/// The leaf of a node; None where it is split or there is no such node.
pub fn leaf_of<'a>(links: &[Link<'a>], node: NodeId) -> Option<Leaf<'a>>
    ensures { result ≡ link_leaf (slice_get links.now node.0) }
{
    match link_at(links, node) {
        Some(link) => match link.first {
            None => Some(link.leaf),
            Some(_) => None,
        },
        None => None,
    }
}

/// The first child of a node; None where it is a leaf or there is no such node.
pub fn first_of(links: &[Link<'_>], node: NodeId) -> Option<NodeId>
    ensures { result ≡ link_first (slice_get links.now node.0) }
{
    match link_at(links, node) {
        Some(link) => link.first,
        None => None,
    }
}

/// The split of a node; None where it is a leaf or there is no such node.
pub fn split_of(links: &[Link<'_>], node: NodeId) -> Option<Split>
    ensures { result ≡ split_where links.now (link_first (slice_get links.now node.0)) }
{
    match first_of(links, node) {
        Some(first) => Some(split_to(links, first)),
        None => None,
    }
}

/// The part of a node: the root's with the decisions from the node up, each of which may come at any time. It takes no
/// memory, and as many steps as the node is deep.
pub fn climb(root: &Part, links: &[Link<'_>], node: NodeId) -> Part
    requires there { node.0 < length links.now }
    requires ordered { AreOrdered links.now }
    ensures { result ≡ slice_index_or (parts_of root.now links.now) node.0 root.now }
{
    let mut part = root.copy();
    let mut at = up_of(links, node);
    while let Some(up) = at {
        part.narrow(up.split, up.side);
        at = up_of(links, up.parent);
    }
    part
}

/// A leaf below a node, on a side of its split.
fn leaf_below<'a>(parent: NodeId, split: Split, side: Side, leaf: Leaf<'a>) -> Link<'a>
    ensures { result ≡ child_link parent split side leaf.entry }
{
    Link {
        up: Some(Up {
            parent,
            split,
            side,
        }),
        first: None,
        leaf,
    }
}

/// Gives a node its first child.
fn put_first(links: &mut Vec<Link<'_>>, node: NodeId, first: NodeId)
    requires { node.0 < vec_len links.old }
    ensures links { (link : Link) × (slice_get links.old.items node.0 ≡ Some link)
        × (links.new.items ≡ slice_set links.old.items node.0 (with_first link first)) }
    ensures len { vec_len links.new ≡ vec_len links.old }
    ensures capacity { vec_capacity links.new ≡ vec_capacity links.old }
{
    let place = node.0 as usize;
    let mut link = links[place];
    link.first = Some(first);
    links[place] = link;
}

/// Splits a leaf: its two children come last, and it gets the number of the first, which is answered.
pub fn split_links<'a>(
    links: &mut Vec<Link<'a>>,
    node: NodeId,
    split: Split,
    first: Leaf<'a>,
    second: Leaf<'a>,
) -> NodeId
    requires there { node.0 < vec_len links.old }
    requires space { vec_len links.old + 1 < vec_capacity links.old }
    requires number { vec_len links.old < 4294967295 }
    ensures result { result.0 ≡ vec_len links.old }
    ensures links { (link : Link) × (slice_get links.old.items node.0 ≡ Some link)
        × (links.new.items ≡ slice_set links.old.items node.0 (with_first link result)
        ++ child_link node split First first.entry ∷ child_link node split Second second.entry ∷ []) }
    ensures capacity { vec_capacity links.new ≡ vec_capacity links.old }
{
    let first_child = NodeId(links.len() as u32);
    put_first(links, node, first_child);
    links.push_reserved(leaf_below(node, split, Side::First, first));
    links.push_reserved(leaf_below(node, split, Side::Second, second));
    first_child
}

/// Puts another leaf at a node.
pub fn put_leaf<'a>(links: &mut Vec<Link<'a>>, node: NodeId, leaf: Leaf<'a>)
    requires { node.0 < vec_len links.old }
    ensures links { (link : Link) × (slice_get links.old.items node.0 ≡ Some link)
        × (links.new.items ≡ slice_set links.old.items node.0 (with_leaf link leaf.entry)) }
    ensures capacity { vec_capacity links.new ≡ vec_capacity links.old }
{
    let place = node.0 as usize;
    let mut link = links[place];
    link.leaf = leaf;
    links[place] = link;
}
