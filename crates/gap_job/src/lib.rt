//! The reader of job files: JSON objects that say what is to be solved.
#![tactic(auto)]

mod entry;
mod fault;
mod held;
mod job;
mod law;
mod limits;
mod number;
mod present;
mod weights;

pub use fault::{JobFault, JobStop, Key};
pub use job::read_job;
pub use law::lists_say_what_their_entries_do;
