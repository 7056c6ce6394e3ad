//! What single assets cost, published once for every bound: the least of the sum of `linear_i v - bend_i v^2 + price
//! |v - present_i|` over the lists of a part that hold from k1 to k2 assets, under a multiplier that adds to the price
//! of each lot or of each lot of distance.
//!
//! A `CostCurve` keeps what it was made from. A value under a multiplier is formed anew from the prices that have the
//! multiplier in them, mostly in one pass over the cells, and comes with its slope: the weight of a list that has it.
//! Nothing here takes memory.
#![tactic(auto)]

mod asset;
mod candidates;
mod costs;
mod curve;
mod ends;
mod least;
mod offer;

pub use costs::{Costs, Varied};
pub use curve::CostCurve;
pub use gap_relax::Chosen;
