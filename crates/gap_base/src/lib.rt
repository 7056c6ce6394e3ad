//! Numbers, lists and records that every other crate stands on: lots, eighths, the market, the job,
//! numerals and decimal text, and the algebra of whole numbers in which bounds are proved.
#![tactic(auto)]

mod eighths;
mod job;
mod lots;
mod market;
mod memory;
mod numeral;
mod numeral_fault;
mod numeral_pieces;
mod numeral_split;
mod quotient;
mod row;
mod text;
mod weight;
mod witness;

pub use eighths::Eighths;
pub use job::Job;
pub use lots::Lots;
pub use market::Market;
pub use memory::OutOfMemory;
pub use numeral::read_numeral;
pub use numeral_fault::{NumeralFault, Rounded};
pub use quotient::ceil_div64;
pub use row::Row;
pub use text::{put_fraction, put_i128};
pub use weight::{Weight, Weights};
pub use witness::Witness;
