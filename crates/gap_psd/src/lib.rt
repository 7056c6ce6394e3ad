//! Shifts of a table of covariances, and the proof that a dominant shift makes the shifted table semidefinite.
//!
//! A shift is a lower triangular matrix R and numbers D. With `A = C + diag(D)` it is dominant where in each row of
//! `E = 10^12 A - R R'` the entry on the diagonal is at least the sum of the sizes of the others. Then `v' A v` is not
//! negative, whatever whole numbers v has.
#![tactic(auto)]

mod dominance;
mod quadratic;
mod shift;

pub use dominance::{dominant, product_of_rows, row_of};
pub use gap_base::Row;
pub use quadratic::form;
pub use shift::Shift;
