//! The parts of a certificate, appended to its file.
ghost use Rattle.std.specs.Prelude.{◌≡◌};
ghost use Rattle.gap_files.specs.Outside.{SinkNow};
ghost use Rattle.gap_files.specs.Marks.{appends};
ghost use Rattle.gap_files.specs.Steps.{Step, Closes};
ghost use Rattle.gap_writer.specs.Writing.{end_bytes};
ghost use Rattle.gap_sweep.specs.Texts.{head_bytes};

use gap_files::{Files, Halt, append};
use gap_instance::Instance;
use gap_psd::Shift;
use gap_writer::Writer;
use std::alloc::Global;

/// Appends the head of a certificate with this many sections.
pub(crate) fn append_head<F: Files>(
    alloc: Global,
    inst: &Instance,
    shift: &Shift,
    nodes: u32,
    count: u8,
    files: &mut F,
    name: &str,
) -> Result<(), Halt>
    requires { shift.now.assets ≡ inst.now.market.assets }
    ensures { (sink : SinkNow) → Step name.now (F.files files.old) sink (F.files files.new) sink
        (appends (head_bytes inst.now shift.now nodes count)) result }
{
    let mut writer = Writer::new(alloc);
    writer.head(inst, shift, nodes, count)?;
    append(files, name, writer.bytes())
}

/// Appends the end mark.
pub(crate) fn append_end<F: Files>(alloc: Global, files: &mut F, name: &str) -> Result<(), Halt>
    ensures { (sink : SinkNow)
        → Closes name.now (F.files files.old) sink (F.files files.new) sink (appends end_bytes) result }
{
    let mut writer = Writer::new(alloc);
    writer.end()?;
    append(files, name, writer.bytes())
}
