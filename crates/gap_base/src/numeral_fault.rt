//! What the reading of a numeral answers.

/// The value of a numeral, in millionths.
#[derive(Clone, Copy, PartialEq, Eq, Debug, Drop)]
pub struct Rounded {
    /// Millionths, rounded to the nearest, a half away from zero; of a size of at most 10^30.
    pub value: i128,
    /// Whether nothing was rounded or cut off.
    pub exact: bool,
}

/// Why a text is no numeral that can be read, in the order in which the causes are looked for.
#[derive(Clone, Copy, PartialEq, Eq, Debug, Drop)]
pub enum NumeralFault {
    /// The text hasn't the form of a numeral.
    Shape,
    /// The digits before and after the point, without leading zeros, are more than 30.
    TooManyDigits,
    /// The exponent is outside -40..40.
    Exponent,
}
