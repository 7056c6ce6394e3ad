//! What a curve of least costs keeps.

ghost use Rattle.gap_price.specs.Curves.{curve_with};
ghost use Rattle.gap_price.specs.Offers.{IsCurve};

use crate::costs::{Costs, Varied};
use gap_box::Part;

/// The least cost of the lists of a part that hold from `fewest` to `most` assets, as a curve over the multiplier that
/// is added to one of the prices. It keeps what it was made from, and how many cells must be held.
#[derive(Drop)]
pub struct CostCurve<'a> {
    pub(crate) costs: Costs<'a>,
    pub(crate) varied: Varied,
    pub(crate) part: &'a Part,
    pub(crate) fewest: u16,
    pub(crate) most: u16,
    pub(crate) held: u16,
    pub ghost kept: { IsCurve (curve_with costs varied part.now fewest most) held },
}
