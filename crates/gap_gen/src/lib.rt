//! The market of one factor that a number generates, for a demonstration that is the same at each run.
#![tactic(auto)]

mod asset;
mod demo;
mod ties;

pub use demo::demo_market;
