//! Queues of nodes.

ghost use Rattle.std.specs.Prelude.{◌≡◌, ◌↔◌, ℕ, ◌<◌, ◌≤◌, Some, None, length, replicate, slice_index_or, slice_set, is_some, IfOk, IfSome};
ghost use Rattle.gap_queue.specs.Keys.{key_at, HasLeast};

use crate::heap::{node_in, put_in, take_out};
use gap_base::OutOfMemory;
use gap_box::NodeId;
use std::alloc::Global;
use std::marker::Model;

/// A finite map from nodes below a room to keys, as the list of what each node has, whose least entry is at hand.
/// It is a heap with the place of each node beside it, and takes 40 bytes for each node of the room.
#[derive(Drop)]
pub struct Queue {
    keys: Vec<Option<i128>>,
    heap: Vec<u32>,
    slots: Vec<u32>,
    len: usize,
}

impl Model for Queue {
    ghost use Rattle.std.specs.Prelude.{List, Option, ℤ};
    ghost use Rattle.gap_queue.specs.Heaps.{IsHeap};

    ghost Value = { List (Option ℤ) };

    ghost view = { λ q. q.keys.items };

    ghost invariant = { λ q. IsHeap q.keys.items q.heap.items q.slots.items q.len };
}

impl Queue {
    /// A queue with room for the nodes below `nodes`, none of which is in it. It takes memory for them all.
    pub fn with_room(alloc: Global, nodes: u32) -> Result<Queue, OutOfMemory>
        ensures { IfOk result (λ q. q ≡ replicate nodes None) }
    {
        let count = nodes as usize;
        let keys = vec![in alloc; None; count]?;
        let heap = identity(alloc, nodes)?;
        let slots = identity(alloc, nodes)?;
        Ok(Queue {
            keys,
            heap,
            slots,
            len: 0,
        })
    }

    /// The key of a node; None exactly where it isn't in the queue. It costs O(1).
    pub fn key(&self, node: NodeId) -> Option<i128>
        ensures { result ≡ key_at self.now node.0 }
    {
        let place = node.0 as usize;
        if place < self.keys.len() {
            self.keys[place]
        } else {
            None
        }
    }

    /// Puts a node that isn't in the queue into it. It takes no memory, and costs O(log n).
    pub fn put(&mut self, node: NodeId, key: i128)
        requires there { node.0 < length self.old }
        requires fresh { key_at self.old node.0 ≡ None }
        ensures { self.new ≡ slice_set self.old node.0 (Some key) }
    {
        put_in(
            &mut self.keys,
            &mut self.heap,
            &mut self.slots,
            self.len,
            node.0,
            key,
        );
        self.len += 1;
    }

    /// The node with the least entry, by key and then by number; None exactly where the queue is empty. It takes no
    /// memory, and costs O(1).
    pub fn least(&self) -> Option<NodeId>
        ensures none { (result ≡ None) ↔ ((n : ℕ) → key_at self.now n ≡ None) }
        ensures least { IfSome result (λ node. HasLeast self.now node.0) }
    {
        if self.len == 0 {
            None
        } else {
            Some(NodeId(node_in(self.heap.as_slice(), 0)))
        }
    }

    /// Takes a node out; false exactly where it isn't in the queue, and then nothing changes. It takes no memory, and
    /// costs O(log n).
    pub fn remove(&mut self, node: NodeId) -> bool
        ensures found { result ≡ is_some (key_at self.old node.0) }
        ensures value { self.new ≡ slice_set self.old node.0 None }
    {
        match self.key(node) {
            Some(_) => {
                take_out(
                    &mut self.keys,
                    &mut self.heap,
                    &mut self.slots,
                    self.len,
                    node.0,
                );
                self.len -= 1;
                true
            }
            None => false,
        }
    }
}

/// The list in which each number below `n` stands in its own place.
fn identity(alloc: Global, n: u32) -> Result<Vec<u32>, OutOfMemory>
    ensures size { IfOk result (λ v. length v.items ≡ n) }
    ensures each { IfOk result (λ v. (s : ℕ) → s < n → slice_index_or v.items s 0 ≡ s) }
{
    let count = n as usize;
    let mut items = vec![in alloc; 0u32; count]?;
    for i in 0..n {
        items[i as usize] = i;
    }
    Ok(items)
}
