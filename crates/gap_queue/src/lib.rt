//! The open leaves of a search, ordered by what they show: a map from nodes to keys whose least entry is at hand.
#![tactic(auto)]

mod heap;
mod queue;

pub use queue::Queue;
