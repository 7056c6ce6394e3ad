//! Small lists, markets and instances that the tests of several crates are tried on. Tests alone stand on this.
#![tactic(auto)]

pub mod certificates;
mod instances;
mod lists;
mod markets;

pub use instances::{limited, placed, two_assets};
pub use lists::{three, two};
pub use markets::{even, two_apart};
