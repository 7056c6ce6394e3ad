//! Why the bytes of a port file are no market.

use thiserror::Error;

/// What is wrong at a place of a port file. Numbers of assets count from 1.
#[derive(Clone, Copy, PartialEq, Eq, Debug, Drop)]
pub enum PortKind {
    /// The first token isn't a whole number in 2..256.
    Count,
    /// A mean, a deviation or a correlation isn't a numeral.
    Numeral,
    /// A mean, a deviation or a correlation has a size above 1, after rounding to millionths.
    Range,
    /// A deviation is below 0, after rounding to millionths.
    Deviation,
    /// A number of an asset isn't a whole number in 1..N.
    Index,
    /// The correlation of an asset with itself isn't 1.
    Diagonal,
    /// The pair stood before with another value; i is below j.
    Conflict { i: u16, j: u16 },
    /// The bytes end before the first token, in the list of assets or inside a triple.
    Short,
    /// The first pair, by i then j, that never stood; i is below j.
    Missing { i: u16, j: u16 },
    /// There are more than 16777216 bytes.
    TooLong,
}

/// The first fault of a port file.
#[derive(Clone, Copy, PartialEq, Eq, Debug, Drop)]
pub struct PortFault {
    /// The number of the first byte of the token at fault, from 0; of Short and Missing the number
    /// of bytes; of TooLong 16777216.
    pub place: u64,
    /// What is wrong there.
    pub kind: PortKind,
}

/// Why a reader answers no market.
#[derive(Clone, Copy, PartialEq, Eq, Debug, Drop, Error)]
pub enum PortStop {
    /// The bytes are no market.
    #[error("the port file is at fault")]
    Fault(PortFault),
    /// Memory was refused.
    #[error("out of memory")]
    OutOfMemory,
}
