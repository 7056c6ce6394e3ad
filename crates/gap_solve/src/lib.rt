//! One weight from its start to its end: the search, its outcome, and the tree that shows it; what the tree of an ended
//! search shows, in the words of certificates: its section is valid, has as many splits as the tree, and shows the bound.
#![tactic(auto)]

mod begin;
mod ending;
mod laws;
mod searching;
mod solving;

pub use laws::{ended_searches_are_valid, splits_are_counted};
pub use solving::solve_one;
