//! The products of the last witness.

use gap_base::Weight;
use gap_tangent::TangentTerms;

/// What the tangent at the last witness keeps of its point, and the weight that it was formed under.
#[derive(Drop)]
pub struct Kept {
    pub weight: Weight,
    pub terms: TangentTerms,
}
