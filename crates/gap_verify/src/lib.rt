//! Whether a certificate is of a market and a job: the first field in which they differ.
#![tactic(auto)]

mod difference;
mod field;
mod laws;
mod line;
mod said;
mod sides;

pub use difference::Difference;
pub use field::Field;
pub use laws::{differences_are_the_first, equal_sides_are_the_same};
pub use said::Said;
pub use sides::first_difference;
