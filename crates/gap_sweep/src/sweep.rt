//! A sweep behind the start of its file.
ghost use Rattle.std.specs.Prelude.{◌≡◌, ◌≤◌, IfOk};
ghost use Rattle.gap_sweep.specs.Asked.{AreWeights, IsShiftOf};
ghost use Rattle.gap_sweep.specs.Steps.{GoesOn};

use crate::Style;
use crate::carried::Carried;
use crate::closing::close;
use crate::opening::open;
use crate::weights::try_weights;
use gap_base::{OutOfMemory, Weights};
use gap_factor::factor;
use gap_files::{Files, Halt, Sink};
use gap_instance::Instance;
use gap_psd::Shift;
use std::alloc::Global;

/// The shift of an instance.
pub(crate) fn shift_of(alloc: Global, inst: &Instance) -> Result<Shift, OutOfMemory>
    ensures { IfOk result (IsShiftOf inst.now) }
{
    let shift = factor(alloc, inst)?;
    let _assets = shift.n();
    Ok(shift)
}

/// Does a sweep whose file was made empty, with the shift of the instance.
pub(crate) fn go_on<F: Files, S: Sink>(
    alloc: Global,
    inst: &Instance,
    shift: &Shift,
    rounded: u32,
    weights: &Weights,
    nodes: u32,
    workers: u8,
    style: Style,
    files: &mut F,
    name: &str,
    out: &mut S,
) -> Result<(), Halt>
    requires shift { IsShiftOf inst.now shift.now }
    requires weights { AreWeights weights.now }
    requires nodes { nodes ≤ 100000 }
    requires least_workers { 1 ≤ workers }
    requires most_workers { workers ≤ 16 }
    ensures { GoesOn (record { instance = inst.now; rounded = rounded; weights = weights.now; nodes = nodes; style = style })
        name.now (F.files files.old) (S.sink out.old) (F.files files.new) (S.sink out.new) result }
{
    open(
        alloc, inst, shift, rounded, weights, nodes, style, files, name, out,
    )?;
    let mut carried = Carried::new(alloc);
    try_weights(
        alloc,
        inst,
        shift,
        weights,
        nodes,
        workers,
        &mut carried,
        files,
        name,
        out,
    )?;
    close(alloc, inst, style, &carried, files, name, out)
}
