//! Cells: which numbers of lots one asset may have.

/// Which numbers of lots an asset may have: only 0, `l` to `u`, or 0 and `l` to `u`, where 1 <= l <= u <= 10000.
#[derive(Clone, Copy, PartialEq, Eq, Debug)]
pub enum Cell {
    Out,
    Held { l: u16, u: u16 },
    Free { l: u16, u: u16 },
}
