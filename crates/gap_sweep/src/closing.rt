//! What comes behind the weights.
ghost use Rattle.std.specs.Prelude.{◌≡◌, ℕ, List, length};
ghost use Rattle.gap_files.specs.Outside.{FilesNow};
ghost use Rattle.gap_files.specs.Marks.{prints};
ghost use Rattle.gap_files.specs.Steps.{Step, Closes};
ghost use Rattle.gap_sweep.specs.Asked.{Done};
ghost use Rattle.gap_sweep.specs.Steps.{IsCarried};
ghost use Rattle.gap_sweep.specs.Texts.{frontier_text};
ghost use Rattle.gap_sweep.specs.Traces.{closing_trace};

use crate::Style;
use crate::carried::Carried;
use crate::parts::append_end;
use crate::rows::print_rows;
use gap_files::{Files, Halt, Sink};
use gap_instance::Instance;
use std::alloc::Global;

/// Writes the lines of the frontier, where they come.
fn print_frontier<S: Sink>(
    alloc: Global,
    inst: &Instance,
    style: Style,
    carried: &Carried,
    out: &mut S,
) -> Result<(), Halt>
    requires { length carried.now.numbers.items ≡ length carried.now.rows.items }
    ensures { (done : List Done) → IsCarried inst.now carried.now done → (name : List ℕ) (files : FilesNow)
        → Step name files (S.sink out.old) files (S.sink out.new) (prints (frontier_text inst.now style done)) result }
{
    match style {
        Style::Whole => print_rows(alloc, inst.lots(), carried, out),
        Style::Single => Ok(()),
    }
}

/// Writes the lines of the frontier, where they come, and appends the end mark.
pub(crate) fn close<F: Files, S: Sink>(
    alloc: Global,
    inst: &Instance,
    style: Style,
    carried: &Carried,
    files: &mut F,
    name: &str,
    out: &mut S,
) -> Result<(), Halt>
    requires { length carried.now.numbers.items ≡ length carried.now.rows.items }
    ensures { (done : List Done) → IsCarried inst.now carried.now done
        → Closes name.now (F.files files.old) (S.sink out.old) (F.files files.new) (S.sink out.new)
        (closing_trace inst.now style done) result }
{
    print_frontier(alloc, inst, style, carried, out)?;
    append_end(alloc, files, name)
}
