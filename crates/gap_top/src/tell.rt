//! What is printed of a certificate that was accepted.
ghost use Rattle.std.specs.Prelude.{◌≡◌};
ghost use Rattle.gap_check.specs.Telling.{verdict_report};
ghost use Rattle.gap_top.specs.Printing.{Prints};

use crate::print::print;
use crate::stop::Stop;
use gap_check::{Verdict, verdict_report};
use gap_files::Sink;
use std::alloc::Global;

/// Prints the report of a verdict; where memory is refused nothing of it.
pub(crate) fn tell<S: Sink>(alloc: Global, verdict: &Verdict, out: &mut S) -> Result<(), Stop>
    ensures { Prints (verdict_report verdict.now) (S.sink out.old) (S.sink out.new) result }
{
    let Ok(text) = verdict_report(alloc, verdict) else {
        return Err(Stop::OutOfMemory);
    };
    print(out, text.as_slice())
}
