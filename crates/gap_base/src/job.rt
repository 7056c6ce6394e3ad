//! What a job says.

use crate::lots::Lots;
use crate::weight::Weights;

/// What a job says: the lots to place, how many assets to hold at least and at most, the limits of each asset, the lots
/// held at present, the limit on turnover if there is one, the weights, the budget of nodes for each weight, and the
/// number of workers.
#[derive(Drop, Debug)]
pub struct Job {
    pub lots: u16,
    pub held: u16,
    pub held_most: u16,
    pub least: Lots,
    pub greatest: Lots,
    pub present: Lots,
    pub turnover: Option<u32>,
    pub weights: Weights,
    pub nodes: u32,
    pub workers: u8,
}
