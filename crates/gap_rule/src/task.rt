//! What a run is to do.

use gap_base::Weights;
use gap_check::Verdict;
use gap_instance::Instance;

/// What a run is to do.
#[derive(Drop)]
pub enum Task {
    /// To answer the one weight of `quick`.
    Quick(Work),
    /// To answer the weights of a job, with the line of the market and those of the frontier.
    Solve(Work),
    /// To answer the weights of `demo` for a generated market, with the same lines.
    Demo(Work),
    /// To tell what a certificate says.
    Check(Verdict),
    /// To tell what a certificate of the market and the job says.
    Verify(Verdict),
    /// To write a certificate anew, which says this, in version 2.
    Upgrade(Verdict),
}

/// The weights that are to be answered for an instance, as the head of a certificate says it: how many numerals of its
/// market were rounded, how many nodes may be split for each weight, and by how many workers.
#[derive(Drop)]
pub struct Work {
    pub inst: Instance,
    pub rounded: u32,
    pub weights: Weights,
    pub nodes: u32,
    pub workers: u8,
}
