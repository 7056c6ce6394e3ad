//! The reader of port files: the OR-Library's text of a market, in pieces of any size, with the first
//! fault and its place.
#![tactic(auto)]

mod fault;
mod law;
mod reader;
mod step;
mod table;
mod wanted;
mod whole;

pub use fault::{PortFault, PortKind, PortStop};
pub use law::ports_are_read_as_said;
pub use reader::Reader;
