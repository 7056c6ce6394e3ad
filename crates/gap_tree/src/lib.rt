//! The tree of a search: its nodes in one vector, linked by number. Contracts see the list of the nodes, each with its
//! part, its parent and what became of it; the code keeps for a node the one decision by which it differs from its
//! parent, and finds its part by climbing.
#![tactic(auto)]

mod laws;
mod link;
mod tree;

pub use laws::nodes_are_a_tree;
pub use tree::Tree;
