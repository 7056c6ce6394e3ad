//! How a part is taken apart.

use gap_box::Split;
use gap_model::Placed;

/// A split of a part, with a leaf for each of its two children and what the leaf shows there.
#[derive(Clone, Copy)]
pub struct Branch<'a> {
    pub split: Split,
    pub first: Placed<'a>,
    pub second: Placed<'a>,
}
