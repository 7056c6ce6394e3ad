//! The outside of portgap: files that are read by name and place, and a sink that lines are written to, as traits
//! whose contracts say what a call may answer and what it leaves. Beside the real ones over std stand those in
//! memory, with calls that are to fail and without. And what a run puts out into one file and to the sink, in one
//! order: the steps that put it out, each with its trace, and the laws by which steps join. What was put out is
//! always a front of what is due.
#![tactic(auto)]

mod failure;
mod halt;
mod memory_files;
mod memory_sink;
mod outside;
mod plan;
mod put;
mod real_files;
mod real_sink;
mod steady_files;
mod steady_sink;
mod store;
mod tally;
mod trouble;

pub use failure::Failure;
pub use halt::Halt;
pub use memory_files::MemoryFiles;
pub use memory_sink::MemorySink;
pub use outside::{Files, Sink};
pub use put::{append, print, start};
pub use real_files::RealFiles;
pub use real_sink::RealSink;
pub use steady_files::SteadyFiles;
pub use steady_sink::SteadySink;
pub use tally::Tally;
pub use trouble::Trouble;
