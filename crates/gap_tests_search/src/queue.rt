//! A queue beside a plain list of its entries.

ghost use Rattle.std.specs.Prelude.{◌≡◌, length};

use gap_box::NodeId;
use gap_queue::Queue;
use std::process::Abort;
use std::test::Fail;

/// The key of a node by going over all entries.
fn plain_key(entries: &[(i128, u32)], node: NodeId) -> Option<i128> {
    for &(key, other) in entries {
        if other == node.0 {
            return Some(key);
        }
    }
    None
}

/// The node with the least entry, by key and then by number, by going over all entries.
fn plain_least(entries: &[(i128, u32)]) -> Option<NodeId> {
    let mut least: Option<(i128, u32)> = None;
    for &(key, node) in entries {
        match least {
            Some((low, first)) if low < key || (low == key && first < node) => {}
            _ => least = Some((key, node)),
        }
    }
    match least {
        Some((_, node)) => Some(NodeId(node)),
        None => None,
    }
}

/// Puts a node with a key into both, or takes it out of both, as the drawn number says.
fn step(
    rt: &impl Abort,
    queue: &mut Queue,
    entries: &mut Vec<(i128, u32)>,
    drawn: u32,
) -> Result<(), Fail>
    requires { length queue.old ≡ 64 }
    ensures { length queue.new ≡ 64 }
{
    let node = NodeId(drawn % 64);
    let known = plain_key(entries.as_slice(), node);
    assert_eq!(rt; queue.key(node), known);
    if drawn / 512 % 2 == 0 {
        assert_eq!(rt; queue.remove(node), known.is_some());
        entries.retain(|entry| entry.1 != node.0);
    } else if queue.key(node) == None {
        // eight keys for 64 nodes, so that many are equal
        let key = i128::from(drawn / 64 % 8) - 4;
        queue.put(node, key);
        entries.push((key, node.0))?;
    }
    Ok(())
}

#[test]
fn many_steps_beside_a_plain_list(rt: HostRuntime) -> Result<(), Fail> {
    let mut queue = Queue::with_room(rt.alloc(), 64)?;
    let mut entries = Vec::new(rt.alloc());
    let mut state: u32 = 1;
    let mut taken: u32 = 0;
    'steps: for k in 0..2000u32 {
        state = state.wrapping_mul(1_664_525).wrapping_add(1_013_904_223);
        let before = entries.len();
        step(&rt, &mut queue, &mut entries, state / 65_536)?;
        taken = taken.wrapping_add(u32::from(entries.len() < before));
        let least = plain_least(entries.as_slice());
        assert_eq!(rt; queue.least(), least, "after step {k}");
    }
    assert!(rt; taken > 400, "{taken} were taken out");
    Ok(())
}

/// Puts a node below 3 that isn't in the queue.
fn put(queue: &mut Queue, node: u32, key: i128)
    requires { length queue.old ≡ 3 }
    ensures { length queue.new ≡ 3 }
{
    if node < 3 && queue.key(NodeId(node)) == None {
        queue.put(NodeId(node), key);
    }
}

/// Takes a node out; false where it isn't in the queue.
fn remove(queue: &mut Queue, node: u32) -> bool
    requires { length queue.old ≡ 3 }
    ensures { length queue.new ≡ 3 }
{
    queue.remove(NodeId(node))
}

/// The node with the least entry.
fn least(queue: &Queue) -> Option<NodeId> {
    queue.least()
}

/// The key of a node.
fn key(queue: &Queue, node: u32) -> Option<i128> {
    queue.key(NodeId(node))
}

#[test]
fn equal_keys_by_number_and_no_node_beyond_the_room(rt: HostRuntime) -> Result<(), Fail> {
    let mut queue = Queue::with_room(rt.alloc(), 3)?;
    assert_eq!(rt; least(&queue), None);
    put(&mut queue, 2, -3);
    put(&mut queue, 0, 5);
    put(&mut queue, 1, -3);
    assert_eq!(rt; least(&queue), Some(NodeId(1)));
    assert!(rt; remove(&mut queue, 1));
    assert!(rt; !remove(&mut queue, 1), "it is taken out already");
    assert!(rt; !remove(&mut queue, 3), "the room ends before it");
    assert_eq!(rt; key(&queue, 3), None);
    assert_eq!(rt; least(&queue), Some(NodeId(2)));
    assert!(rt; remove(&mut queue, 2));
    assert_eq!(rt; (least(&queue), key(&queue, 0)), (Some(NodeId(0)), Some(5)));
    Ok(())
}
