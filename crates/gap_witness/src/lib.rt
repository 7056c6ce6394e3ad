//! Witnesses of a part: its tangent point, and the split that a search makes by it.
#![tactic(auto)]

mod balance;
mod frame;
mod gradient;
mod laws;
mod moving;
mod pairs;
mod places;
mod pointing;
mod range;
mod ranges;
mod reading;
mod rounds;
mod splitting;
mod step;

pub use laws::rounds_descend;
pub use places::first_greatest_is;
pub use pointing::{kept_tangent_point, tangent_point};
pub use splitting::split_for;
