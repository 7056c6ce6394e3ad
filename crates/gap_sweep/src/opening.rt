//! What comes before the weights.
ghost use Rattle.std.specs.Prelude.{◌≡◌, ℕ, List};
ghost use Rattle.gap_files.specs.Outside.{FilesNow};
ghost use Rattle.gap_files.specs.Marks.{prints};
ghost use Rattle.gap_files.specs.Steps.{Step};
ghost use Rattle.gap_sweep.specs.Texts.{market_text};
ghost use Rattle.gap_sweep.specs.Traces.{opening_trace};

use crate::Style;
use crate::parts::append_head;
use gap_base::Weights;
use gap_files::{Files, Halt, Sink, print};
use gap_instance::Instance;
use gap_psd::Shift;
use gap_report::market_line;
use std::alloc::Global;

/// Writes the line of the market, where it comes.
fn print_market<S: Sink>(
    alloc: Global,
    style: Style,
    inst: &Instance,
    rounded: u32,
    shift: &Shift,
    out: &mut S,
) -> Result<(), Halt>
    ensures { (name : List ℕ) (files : FilesNow) → Step name files (S.sink out.old) files (S.sink out.new)
        (prints (market_text style inst.now rounded shift.now)) result }
{
    match style {
        Style::Whole => {
            let mut line = Vec::new(alloc);
            market_line(&mut line, inst.n(), rounded, shift.total())?;
            print(out, &line)
        }
        Style::Single => Ok(()),
    }
}

/// Appends the head, and writes the line of the market.
pub(crate) fn open<F: Files, S: Sink>(
    alloc: Global,
    inst: &Instance,
    shift: &Shift,
    rounded: u32,
    weights: &Weights,
    nodes: u32,
    style: Style,
    files: &mut F,
    name: &str,
    out: &mut S,
) -> Result<(), Halt>
    requires { shift.now.assets ≡ inst.now.market.assets }
    ensures { Step name.now (F.files files.old) (S.sink out.old) (F.files files.new) (S.sink out.new)
        (opening_trace
        (record { instance = inst.now; rounded = rounded; weights = weights.now; nodes = nodes; style = style })
        shift.now) result }
{
    append_head(alloc, inst, shift, nodes, weights.len(), files, name)?;
    print_market(alloc, style, inst, rounded, shift, out)
}
