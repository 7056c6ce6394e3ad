//! Splits of a part into two children.

/// How a part is split at an asset, named by its place from 0: by whether it is held, or by its lots, up to a number
/// or above it.
#[derive(Clone, Copy, PartialEq, Eq, Debug)]
pub enum Split {
    Held(u16),
    Lots(u16, u16),
}

/// Which child of a split: `First` has the asset not held, or the lots up to the number; `Second` has the rest.
#[derive(Clone, Copy, PartialEq, Eq, Debug)]
pub enum Side {
    First,
    Second,
}
