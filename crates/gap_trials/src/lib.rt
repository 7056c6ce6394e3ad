//! Searches of a small bound, whose least cost is known by listing: by any number of workers, in rounds and with leaves
//! settled in any order. Tests alone stand on this.
#![tactic(auto)]

mod guide;
mod pricing;
mod small;

pub use guide::{Listing, all_points, leaf_for};
pub use small::Small;
