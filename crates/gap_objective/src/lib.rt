//! Risk, return and the scaled objective of a list of lots, and the objective of a list that changes in two places at
//! a time.
#![tactic(auto)]

mod holding;
mod terms;
mod totals;

pub use holding::Holding;
pub use totals::{ret, risk, value};
