//! Which lines come.

/// Which lines come besides those of the weights.
#[derive(Clone, Copy, PartialEq, Eq, Debug)]
pub enum Style {
    /// The line of the market before them, and those of the frontier behind them.
    Whole,
    /// None.
    Single,
}
