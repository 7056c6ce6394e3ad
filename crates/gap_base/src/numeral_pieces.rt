//! The parts of a numeral's text, as slices of it.

/// An exponent: whether it is below 0, and the digits of its size.
#[derive(Clone, Copy, Drop)]
pub struct Exponential<'a> {
    pub lowers: bool,
    pub digits: &'a [u8],
}

/// The parts of a numeral's text.
#[derive(Clone, Copy, Drop)]
pub struct Pieces<'a> {
    pub negative: bool,
    pub whole: &'a [u8],
    pub fraction: &'a [u8],
    pub power: Exponential<'a>,
}
