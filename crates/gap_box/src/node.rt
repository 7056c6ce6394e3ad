//! The numbers by which the nodes of a tree of parts are named.

/// The number of a node of a tree; the root has number 0.
#[derive(Clone, Copy, PartialEq, Eq, Debug)]
pub struct NodeId(pub u32);
