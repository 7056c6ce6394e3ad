//! The least cost of holding a number of assets in a range, where each has a cost of being held and one of not being.
#![tactic(auto)]

mod extra;
mod parting;
mod row;
mod ways;

pub use row::LeastRow;
pub use ways::{Chosen, least, least_with_slope, least_within};
