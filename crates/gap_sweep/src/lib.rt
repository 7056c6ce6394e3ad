//! The work of a command that solves: a certificate goes into a file, and lines to a sink, weight by weight.
#![tactic(auto)]

ghost use Rattle.std.specs.Prelude.{◌≤◌};
ghost use Rattle.gap_sweep.specs.Asked.{AreWeights};
ghost use Rattle.gap_sweep.specs.Runs.{Runs};

mod carried;
mod closing;
mod found;
mod laws;
mod opening;
mod parts;
mod rows;
mod style;
mod sweep;
mod weights;

pub use crate::laws::{frontier_is_monotone, rows_are_ranked, stops_leave_fronts, sweeps_certify};
pub use crate::style::Style;
use crate::sweep::{go_on, shift_of};
use gap_base::Weights;
use gap_files::{Files, Halt, Sink, start};
use gap_instance::Instance;
use std::alloc::Global;

/// Solves the weights of a job in their order, over an instance as a certificate's head says it, and puts out what is known
/// of each as soon as it is done: the certificate into the named file, and the lines to the sink. `rounded` is printed as
/// the number of numerals that were rounded.
///
/// It does in this order: the file is made empty; the shift; the head is appended; the line of the market is written; for
/// each weight the search, from the portfolio of the weight before where that has one, then its section is appended, then
/// its line and the line of its lots are written; then the lines of the frontier; and last the end mark is appended. In
/// the style `Single` the line of the market and those of the frontier are left out.
///
/// Costs what the searches cost, and the memory of one search besides O(N * N).
///
/// # Errors
/// `WriteFault` only where the sink's count of faults rose, or the file's count of write faults. `OutOfMemory`. What was put
/// out is a front of what is due; behind the start of the file its bytes are a proper front of a certificate.
pub fn solve_all<F: Files, S: Sink>(
    alloc: Global,
    inst: &Instance,
    rounded: u32,
    weights: &Weights,
    nodes: u32,
    workers: u8,
    style: Style,
    files: &mut F,
    name: &str,
    out: &mut S,
) -> Result<(), Halt>
    requires weights { AreWeights weights.now }
    requires nodes { nodes ≤ 100000 }
    requires least_workers { 1 ≤ workers }
    requires most_workers { workers ≤ 16 }
    ensures { Runs (record { instance = inst.now; rounded = rounded; weights = weights.now; nodes = nodes; style = style })
        name.now (F.files files.old) (S.sink out.old) (F.files files.new) (S.sink out.new) result }
{
    start(files, name)?;
    let shift = shift_of(alloc, inst)?;
    go_on(
        alloc, inst, &shift, rounded, weights, nodes, workers, style, files, name, out,
    )
}
