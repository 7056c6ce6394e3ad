//! A market with the limits of a job: the table of covariances, the limits that a list of lots has to meet, and the
//! definitions of risk, return, objective and neighbours.
#![tactic(auto)]

mod covariances;
mod instance;
mod keeps;
mod order;

pub use instance::Instance;
pub use keeps::{Broken, total_of};
pub use order::{By, Order};
