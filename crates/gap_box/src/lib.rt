//! Parts: for each asset which numbers of lots it may have. A part is split into two children that cover it once,
//! down to parts with one list of lots.
#![tactic(auto)]

mod cell;
mod laws;
mod node;
mod part;
mod split;

pub use cell::Cell;
pub use laws::count_is_met;
pub use node::NodeId;
pub use part::Part;
pub use split::{Side, Split};
