//! A certificate's items, written as bytes in version 2, into a buffer that is drained from the front; and the section of a
//! certificate that says what is known of a weight, appended to a file piece by piece.
#![tactic(auto)]

mod groups;
mod heads;
mod leaves;
mod numbers;
mod pieces;
mod section;
mod tree;
mod writer;

pub use section::write_section;
pub use writer::Writer;
