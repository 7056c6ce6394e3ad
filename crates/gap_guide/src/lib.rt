//! The guide of a portfolio's search: it cuts a part by its leaf's point, finds the children's leaves from the leaf as
//! witness, and tries the list to which a leaf's point is rounded.
#![tactic(auto)]

mod hint;
mod seen;
mod steering;
#[cfg(test)]
mod tests;

pub use hint::witness_of;
pub use steering::Steering;
