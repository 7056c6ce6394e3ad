//! The shift of an instance: the rounded factor of its covariances with the least diagonal for it, or the least
//! diagonal alone where that is smaller.
#![tactic(auto)]

mod choice;
mod columns;
mod diagonal;
mod plain;

pub use choice::factor;
