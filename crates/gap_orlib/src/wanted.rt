//! What the next token of a port file is to be.

/// What the next token is to be, with the places, from 0, of the assets that it is about.
#[derive(Clone, Copy, Drop)]
pub enum Wanted {
    /// The mean of an asset.
    Mean(u16),
    /// The deviation of an asset.
    Deviation(u16),
    /// The first asset of a triple.
    First,
    /// The second asset of a triple, behind the first.
    Second(u16),
    /// The correlation of two assets.
    Correlation(u16, u16),
}
