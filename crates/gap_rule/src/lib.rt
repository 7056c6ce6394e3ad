//! The ruling of a command: from the form of the words and the contents of the files, what is to be done or why not.
#![tactic(auto)]

mod cert;
mod consumer;
mod job;
mod port;
mod reading;
mod ruling;
mod stop;
mod task;

pub use ruling::rule;
pub use stop::Halt;
pub use task::{Task, Work};
