//! The fields in which a certificate and a market with a job are compared.

/// A field. Assets and weights are named by their places, counted from 0.
#[derive(Clone, Copy, PartialEq, Eq, Debug)]
pub enum Field {
    /// The number of assets.
    Assets,
    /// The lots to place.
    Lots,
    /// The least and the greatest number of assets to hold.
    Held,
    /// The limit on turnover, if there is one.
    Turnover,
    /// The budget of splits for each weight.
    Nodes,
    /// The mean return of an asset, in millionths.
    Mean(u16),
    /// The standard deviation of the return of an asset, in millionths.
    Deviation(u16),
    /// The least lots of an asset where it is held.
    Least(u16),
    /// The greatest lots of an asset.
    Greatest(u16),
    /// The lots of an asset that are held at present.
    Present(u16),
    /// The correlation of two assets, in millionths.
    Correlation(u16, u16),
    /// The number of weights.
    Weights,
    /// A weight.
    Weight(u8),
}
