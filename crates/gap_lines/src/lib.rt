//! The highest place of a curve, by lines that go through it and lie nowhere below it.
//!
//! A curve is known by its probes alone: at a place it answers its value there and the slope of such a line. Two lines,
//! a rising and a falling one, bound the curve from above on both sides, so the search ends where neither allows a
//! value above the greatest that was found. Nothing else is asked of the curve.
#![tactic(auto)]

mod bracket;
mod curve;
mod heights;
mod line;
mod mirror;
mod nearest;
mod search;

pub use curve::Curve;
pub use line::Line;
pub use search::best_place;
