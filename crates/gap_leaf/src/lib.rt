//! Leaves from witnesses: the best multipliers of a tangent, and for a part the leaf that a witness leads to, which says
//! all that one list can tell of the part and shows no less than the witness itself, than its point under the best
//! multipliers, and than the tangent point from it.
//!
//! What a witness's point alone gives is formed once, in a `Hinted`, and serves each part that is looked at: a search makes
//! one for both children of a split. The entries of a leaf are placed in an arena; nothing else here takes memory.
#![tactic(auto)]

mod best;
mod candidates;
mod for_part;
mod hinted;
mod multipliers;
mod placing;
mod voids;

pub use best::{best_alpha, best_tau};
pub use for_part::witness_for;
pub use hinted::Hinted;
