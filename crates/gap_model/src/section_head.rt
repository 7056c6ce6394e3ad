//! The head of a certificate's section.

use crate::outcome::Outcome;
use gap_base::{Weight, Witness};

/// What a section of a certificate says before its tree: the weight, what is claimed of it, and a witness whose bound
/// holds on the whole root, where one is given.
#[derive(Drop, Debug)]
pub struct SectionHead {
    pub weight: Weight,
    pub outcome: Outcome,
    pub overall: Option<Witness>,
}
