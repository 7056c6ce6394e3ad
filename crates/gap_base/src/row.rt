//! What is told of a row of a matrix whose diagonal is to outweigh the rest.

/// A row by its place from 0: its entry on the diagonal, and the sum of the sizes of its other entries.
#[derive(Clone, Copy, PartialEq, Eq, Debug)]
pub struct Row {
    pub row: u16,
    pub diagonal: i128,
    pub others: i128,
}
