//! Leaves: what a bound is computed from on a part.

/// A positive number of eighths of a lot of one asset, named by its place from 0.
#[derive(Clone, Copy, PartialEq, Eq, Debug)]
pub struct Entry {
    pub asset: u16,
    pub eighths: u32,
}

/// What a leaf of the tree keeps for its bound: that the count alone is looked at, the multipliers of the sum of lots
/// and of the turnover alone, or a tangent point beside them, as its entries that aren't 0. `third` is a multiplier for
/// bounds that know a third limit, and 0 in those that don't.
#[derive(Clone, Copy, Debug)]
pub enum Leaf<'a> {
    Count,
    Void {
        alpha: i128,
        tau: i128,
        third: i128,
    },
    Tangent {
        y: &'a [Entry],
        alpha: i128,
        tau: i128,
        third: i128,
    },
}
