//! What is known of one weight at its end, with the tree that shows it.
#![tactic(auto)]

mod laws;
mod solved;

pub use laws::one_section;
pub use solved::Solved;
