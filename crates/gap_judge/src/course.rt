//! What the items of a certificate behind its head say so far.

use crate::walk::Walk;
use gap_base::{Lots, Weight};
use gap_model::{Best, Shown, Told};

/// What is told of the sections before the present one; of the present one its weight, its outcome (1 closed, 2 none,
/// 3 open, 4 open without a portfolio), its portfolio, that with its objective, its bound, what its witness for the whole
/// root shows, the place in its tree, how many splits came, and the least that a leaf showed; and whether the end mark came.
#[derive(Drop)]
pub struct Course {
    pub told: Vec<Told>,
    pub weight: Weight,
    pub outcome: u8,
    pub lots: Option<Lots>,
    pub best: Option<Best>,
    pub bound: i128,
    pub overall: Shown,
    pub walk: Option<Walk>,
    pub splits: u32,
    pub least: Shown,
    pub ended: bool,
}
