//! The search for the best list over every order of steps, and a search driven to its end by a guide, in rounds of its
//! workers.
#![tactic(auto)]

mod branch;
mod driving;
mod guide;
mod laws;
mod pieces;
mod rounds;
mod search;

pub use branch::Branch;
pub use driving::drive;
pub use guide::Guide;
pub use laws::{each_leaf_is_in_the_tree, every_order, one_end, refusals, sound_board};
pub use search::{Search, Ticket};
