//! The items of a certificate, one for each group of its numbers.

use gap_base::{Lots, Witness};
use gap_box::Split;
use gap_model::CertFault;

/// Which of the two spellings of a certificate is meant.
#[derive(Clone, Copy, PartialEq, Eq, Debug)]
pub enum Version {
    One,
    Two,
}

/// What a group of numbers of a certificate says. Places of assets count from 0.
#[derive(Drop, Debug)]
pub enum Field {
    /// The number of assets, the lots to place, the fewest and the most assets to hold, the limit on turnover if there is
    /// one, and the budget of splits for each section.
    Head {
        n: u16,
        lots: u16,
        held: u16,
        held_most: u16,
        turnover: Option<u32>,
        nodes: u32,
    },
    /// The mean and the deviation of an asset in millionths, its least and greatest lots, and its present lots.
    Asset {
        mean: i32,
        dev: u32,
        least: u16,
        greatest: u16,
        present: u16,
    },
    /// The correlation of two assets in millionths.
    Correlation {
        rho: i32,
    },
    /// An entry of the triangle R of the shift.
    FactorEntry {
        r: i64,
    },
    /// An entry of the diagonal D of the shift.
    ShiftEntry {
        d: i128,
    },
    /// How many sections there are.
    Sections {
        count: u8,
    },
    /// The weight p/q of a section, and its outcome: 1 closed, 2 none, 3 open, 4 open without a portfolio.
    SectionStart {
        p: u8,
        q: u8,
        outcome: u8,
    },
    /// The lots of each asset.
    Portfolio(Lots),
    /// The objective of the portfolio.
    Objective(i128),
    /// The bound of an open section.
    Bound(i128),
    /// A witness whose bound holds on the whole root, where one is given.
    Overall(Option<Witness>),
    /// A leaf whose part can't meet the count.
    CountLeaf,
    /// A leaf of the terms with alpha and tau alone.
    VoidLeaf {
        alpha: i128,
        tau: i128,
    },
    /// A leaf with a tangent point and multipliers.
    TangentLeaf(Witness),
    /// A split; the trees of its two sides follow.
    Split(Split),
    /// The end mark.
    End,
}

/// An item of a certificate, with the number of its first byte, from 0.
#[derive(Drop, Debug)]
pub struct Item {
    pub place: u64,
    pub field: Field,
}

/// What a group of numbers says, and in which version it is spelled.
#[derive(Drop, Debug)]
pub struct Group {
    pub version: Version,
    pub field: Field,
}

/// Why no group was read: more bytes are needed to judge the next number, or a number is at fault.
#[derive(Clone, Copy, PartialEq, Eq, Debug, Drop)]
pub enum Stop {
    More,
    Fault(CertFault),
}
