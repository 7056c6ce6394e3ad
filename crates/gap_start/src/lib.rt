//! A list of lots to start a search from, and the way to a list that has no better neighbour.
#![tactic(auto)]

mod fill;
mod places;
mod plain;
mod polishing;
mod rounding;
mod starting;
mod step;

pub use plain::{plain_gives, plain_job};
pub use polishing::polish;
pub use rounding::{polished, rounded, rounding_of};
pub use starting::start;
