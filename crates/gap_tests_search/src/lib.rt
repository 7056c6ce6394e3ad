//! The tests of the tree, the queue, the search and the solver. They call
//! what is public alone, and stand apart so that no layer is proved twice.
#![tactic(auto)]

pub mod barren;
#[cfg(test)]
mod front;
#[cfg(test)]
mod queue;
#[cfg(test)]
mod search;
#[cfg(test)]
mod solve;
#[cfg(test)]
mod tree;
#[cfg(test)]
mod trials;
