//! A long chain of splits, and what the readers say of a small tree.

use gap_base::Lots;
use gap_box::{Cell, NodeId, Part, Side, Split};
use gap_model::Leaf;
use gap_tree::Tree;
use std::process::Abort;
use std::test::Fail;

/// The part of 200 assets that may each be held with 1 to 10000 lots.
fn wide() -> Part {
    let least = Lots::filled(200, 1);
    let greatest = Lots::filled(200, 10_000);
    Part::root(&least, &greatest)
}

/// A leaf that is known by its number.
fn numbered(number: i128) -> Leaf<'static> {
    Leaf::Void {
        alpha: number,
        tau: 0,
        third: 0,
    }
}

/// The number of a leaf; None where there is no such leaf.
fn number_of(tree: &Tree<'_>, node: NodeId) -> Option<i128> {
    match tree.leaf_of(node) {
        Some(Leaf::Void { alpha, .. }) => Some(alpha),
        _ => None,
    }
}

/// Are all cells of two parts the same?
fn are_equal(a: &Part, b: &Part) -> bool {
    if a.len() != b.len() {
        return false;
    }
    for i in 0..a.len() {
        if a.cell(i) != b.cell(i) {
            return false;
        }
    }
    true
}

/// Is this the part of a node?
fn is_part_of(tree: &Tree<'_>, node: NodeId, part: &Part) -> bool {
    node.0 < tree.nodes() && are_equal(&tree.part_of(node), part)
}

/// The cell of an asset in the part of a node; None where there is no such cell.
fn cell_of(tree: &Tree<'_>, node: NodeId, asset: u16) -> Option<Cell> {
    if node.0 >= tree.nodes() {
        return None;
    }
    let part = tree.part_of(node);
    if asset < part.len() {
        Some(part.cell(asset))
    } else {
        None
    }
}

/// Splits a leaf into two with these numbers, where that is lawful and there is room.
fn split(
    tree: &mut Tree<'_>,
    node: NodeId,
    split: Split,
    numbers: (i128, i128),
) -> Option<(NodeId, NodeId)> {
    let _leaf = tree.leaf_of(node)?;
    if node.0 >= tree.nodes() || tree.room() - tree.nodes() < 2 {
        return None;
    }
    if !tree.part_of(node).lawful(split) {
        return None;
    }
    Some(tree.split_leaf(node, split, numbered(numbers.0), numbered(numbers.1)))
}

/// Puts another number at a leaf; false where there is no such leaf.
fn renumber(tree: &mut Tree<'_>, node: NodeId, number: i128) -> bool {
    match tree.leaf_of(node) {
        Some(_) => {
            tree.set_leaf(node, numbered(number));
            true
        }
        None => false,
    }
}

/// The number by which the range of an asset is cut in the middle.
fn middle(part: &Part, asset: u16) -> u16 {
    if asset >= part.len() {
        return 0;
    }
    match part.cell(asset) {
        Cell::Held { l, u } => l.wrapping_add(u.wrapping_sub(l) / 2),
        _ => 0,
    }
}

/// Splits a leaf, whose part is known, and goes on to a side of it. The parts of both children are those that `child`
/// makes.
fn descend(
    rt: &impl Abort,
    tree: &mut Tree<'_>,
    node: NodeId,
    part: &mut Part,
    by: Split,
    side: Side,
) -> Option<NodeId> {
    if !part.lawful(by) {
        return None;
    }
    let first_part = part.child(by, Side::First);
    let second_part = part.child(by, Side::Second);
    let (first, second) = split(tree, node, by, (1, 2))?;
    assert!(rt; is_part_of(tree, first, &first_part));
    assert!(rt; is_part_of(tree, second, &second_part));
    match side {
        Side::First => {
            *part = first_part;
            Some(first)
        }
        Side::Second => {
            *part = second_part;
            Some(second)
        }
    }
}

/// The split and the side of the step `k`: an asset must be held, and then its range is halved four times.
fn decision(part: &Part, k: u16) -> (Split, Side) {
    let asset = k / 5;
    if k % 5 == 0 {
        (Split::Held(asset), Side::Second)
    } else if k % 2 == 0 {
        (Split::Lots(asset, middle(part, asset)), Side::First)
    } else {
        (Split::Lots(asset, middle(part, asset)), Side::Second)
    }
}

/// How many parents stand above a node, up to 2000.
fn depth(tree: &Tree<'_>, node: NodeId) -> u32 {
    let mut at = node;
    for k in 0..2000u32 {
        match tree.parent(at) {
            Some(parent) => at = parent,
            None => return k,
        }
    }
    2000
}

#[test]
fn parts_along_a_thousand_splits(rt: HostRuntime) -> Result<(), Fail> {
    let mut part = wide();
    let mut tree = Tree::with_room(rt.alloc(), 2001, wide(), Leaf::Count)?;
    let mut node = NodeId(0);
    for k in 0..1000u16 {
        let (by, side) = decision(&part, k);
        node = descend(&rt, &mut tree, node, &mut part, by, side).ok_or("no lawful split")?;
    }
    assert_eq!(rt;
        (tree.nodes(), tree.inner(), tree.room()),
        (2001, 1000, 2001)
    );
    assert_eq!(rt; depth(&tree, node), 1000);
    assert!(rt; are_equal(tree.root(), &wide()));
    assert!(rt; is_part_of(&tree, NodeId(0), &wide()));
    assert_eq!(rt;
        split(&mut tree, node, Split::Held(0), (1, 2)),
        None,
        "there is no room"
    );
    Ok(())
}

#[test]
fn readers_of_a_small_tree(rt: HostRuntime) -> Result<(), Fail> {
    let mut tree = Tree::with_room(rt.alloc(), 5, wide(), numbered(7))?;
    assert_eq!(rt; (tree.nodes(), tree.inner(), tree.room()), (1, 0, 5));
    assert_eq!(rt; number_of(&tree, NodeId(0)), Some(7));
    assert_eq!(rt; tree.children(NodeId(0)), None);
    let both = split(&mut tree, NodeId(0), Split::Held(3), (8, 9));
    assert_eq!(rt; both, Some((NodeId(1), NodeId(2))));
    let both = split(&mut tree, NodeId(2), Split::Lots(3, 40), (10, 11));
    assert_eq!(rt; both, Some((NodeId(3), NodeId(4))));
    assert_eq!(rt; (tree.nodes(), tree.inner(), tree.room()), (5, 2, 5));
    for (node, number, by, first, parent) in [
        (
            0,
            None,
            Some(Split::Held(3)),
            Some((NodeId(1), NodeId(2))),
            None,
        ),
        (1, Some(8), None, None, Some(NodeId(0))),
        (
            2,
            None,
            Some(Split::Lots(3, 40)),
            Some((NodeId(3), NodeId(4))),
            Some(NodeId(0)),
        ),
        (3, Some(10), None, None, Some(NodeId(2))),
        (4, Some(11), None, None, Some(NodeId(2))),
        (5, None, None, None, None),
    ] {
        let node = NodeId(node);
        assert_eq!(rt; number_of(&tree, node), number, "at {node:?}");
        assert_eq!(rt; tree.split_of(node), by, "at {node:?}");
        assert_eq!(rt; tree.children(node), first, "at {node:?}");
        assert_eq!(rt; tree.parent(node), parent, "at {node:?}");
    }
    assert!(rt; renumber(&mut tree, NodeId(3), 12));
    assert!(rt; !renumber(&mut tree, NodeId(2), 13), "it is split");
    assert_eq!(rt;
        (number_of(&tree, NodeId(3)), number_of(&tree, NodeId(4))),
        (Some(12), Some(11))
    );
    let above = Cell::Held { l: 41, u: 10_000 };
    assert_eq!(rt; cell_of(&tree, NodeId(4), 3), Some(above));
    Ok(())
}
