//! Writing to the sink.
ghost use Rattle.std.specs.Prelude.{◌≡◌, Err};
ghost use Rattle.gap_top.specs.Printing.{Prints, WritesNothing};
ghost use Rattle.gap_top.specs.Steps.{EndsBy, Refuses, refused_stop};

use crate::stop::Stop;
use gap_files::{Sink, Trouble};
use gap_rule::Halt;
use gap_words::Refusal;
use std::alloc::Global;

/// Writes a text; where memory is refused nothing of it.
pub(crate) fn print<S: Sink>(out: &mut S, text: &[u8]) -> Result<(), Stop>
    ensures prints { Prints text.now (S.sink out.old) (S.sink out.new) result }
    ensures quiet { result ≡ Err Stop.OutOfMemory → WritesNothing (S.sink out.old) (S.sink out.new) }
{
    match out.write(text) {
        Ok(()) => Ok(()),
        Err(Trouble::Failed) => Err(Stop::WriteFault),
        Err(Trouble::OutOfMemory) => Err(Stop::OutOfMemory),
    }
}

/// What a refusal ends with, by what became of its line: the refusal stands, but want of memory comes before it.
fn refused_stop(refusal: Refusal, printed: Result<(), Stop>) -> Stop
    ensures { result ≡ refused_stop refusal printed }
{
    match printed {
        Ok(()) => Stop::Refused(refusal),
        Err(Stop::OutOfMemory) => Stop::OutOfMemory,
        Err(_) => Stop::Refused(refusal),
    }
}

/// Writes the line of a refusal.
fn refuse<S: Sink>(alloc: Global, refusal: Refusal, out: &mut S) -> Stop
    ensures { Refuses refusal (S.sink out.old) (S.sink out.new) result }
{
    let Ok(line) = refusal.line(alloc) else {
        return Stop::OutOfMemory;
    };
    refused_stop(refusal, print(out, line.as_bytes()))
}

/// Ends a run that has no task to do: a refusal writes its line, a fault and want of memory nothing.
pub(crate) fn end_by<S: Sink>(alloc: Global, halt: Halt, out: &mut S) -> Stop
    ensures { EndsBy halt (S.sink out.old) (S.sink out.new) result }
{
    match halt {
        Halt::Refused(refusal) => refuse(alloc, refusal, out),
        Halt::ReadFault => Stop::ReadFault,
        Halt::OutOfMemory => Stop::OutOfMemory,
    }
}
