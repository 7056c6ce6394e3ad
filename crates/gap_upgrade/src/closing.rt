//! What comes behind the items.
ghost use Rattle.std.specs.Prelude.{◌≡◌};
ghost use Rattle.gap_files.specs.Outside.{SinkNow};
ghost use Rattle.gap_files.specs.Marks.{appends};
ghost use Rattle.gap_files.specs.Steps.{Closes};
ghost use Rattle.gap_writer.specs.Writing.{end_bytes};
ghost use Rattle.gap_upgrade.specs.Upgrading.{closing_trace};

use gap_check::{Verdict, verdict_report};
use gap_files::{Files, Halt, Sink, append, print};
use gap_writer::Writer;
use std::alloc::Global;

/// Appends the end mark.
fn append_end<F: Files>(alloc: Global, new: &str, files: &mut F) -> Result<(), Halt>
    ensures { (sink : SinkNow)
        → Closes new.now (F.files files.old) sink (F.files files.new) sink (appends end_bytes) result }
{
    let mut writer = Writer::new(alloc);
    writer.end()?;
    append(files, new, writer.bytes())
}

/// Writes the report of what a certificate tells, and appends the end mark.
pub(crate) fn close<F: Files, S: Sink>(
    alloc: Global,
    verdict: &Verdict,
    new: &str,
    files: &mut F,
    out: &mut S,
) -> Result<(), Halt>
    ensures { Closes new.now (F.files files.old) (S.sink out.old) (F.files files.new) (S.sink out.new)
        (closing_trace verdict.now) result }
{
    let text = verdict_report(alloc, verdict)?;
    print(out, text.as_slice())?;
    append_end(alloc, new, files)
}
