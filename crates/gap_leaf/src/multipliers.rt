//! Multipliers of a void leaf.

/// The multipliers of the sum of lots and of the turnover.
#[derive(Clone, Copy)]
pub(crate) struct Multipliers {
    pub(crate) alpha: i128,
    pub(crate) tau: i128,
}
