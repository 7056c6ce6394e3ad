//! The steps that put out bytes.
ghost use Rattle.std.specs.Prelude.{List, ℕ, length, ◌<◌, IsErr};
ghost use Rattle.gap_files.specs.Outside.{FilesNow, SinkNow};
ghost use Rattle.gap_files.specs.Marks.{appends, prints, streams, DidLess};
ghost use Rattle.gap_files.specs.Steps.{Opens, Step};

use crate::{Files, Halt, Sink, Trouble};

/// Makes the named file empty.
///
/// # Errors
/// `WriteFault` only where the file's count of write faults rose: it is as it was or empty. `OutOfMemory`: it is as it was.
pub fn start<F: Files>(files: &mut F, name: &str) -> Result<(), Halt>
    ensures { (sink : SinkNow) → Opens name.now (F.files files.old) sink (F.files files.new) sink result }
{
    match files.start(name) {
        Ok(()) => Ok(()),
        Err(Trouble::Failed) => Err(Halt::WriteFault),
        Err(Trouble::OutOfMemory) => Err(Halt::OutOfMemory),
    }
}

/// Appends all the bytes to the named file.
///
/// # Errors
/// `WriteFault` only where the file's count of write faults rose: a front of the bytes was appended, but not all, unless
/// there are none. `OutOfMemory`: nothing was appended.
pub fn append<F: Files>(files: &mut F, name: &str, bytes: &[u8]) -> Result<(), Halt>
    ensures step { (sink : SinkNow)
        → Step name.now (F.files files.old) sink (F.files files.new) sink (appends bytes.now) result }
    ensures less { IsErr result → 0 < length bytes.now → (sink : SinkNow)
        → DidLess (streams name.now (F.files files.old) sink) (streams name.now (F.files files.new) sink)
        (appends bytes.now) }
{
    match files.append(name, bytes) {
        Ok(()) => Ok(()),
        Err(Trouble::Failed) => Err(Halt::WriteFault),
        Err(Trouble::OutOfMemory) => Err(Halt::OutOfMemory),
    }
}

/// Writes all the bytes to the sink.
///
/// # Errors
/// `WriteFault` only where the sink's count of faults rose: a front of the bytes was written. `OutOfMemory`: nothing was
/// written.
pub fn print<S: Sink>(out: &mut S, bytes: &[u8]) -> Result<(), Halt>
    ensures { (name : List ℕ) (files : FilesNow)
        → Step name files (S.sink out.old) files (S.sink out.new) (prints bytes.now) result }
{
    match out.write(bytes) {
        Ok(()) => Ok(()),
        Err(Trouble::Failed) => Err(Halt::WriteFault),
        Err(Trouble::OutOfMemory) => Err(Halt::OutOfMemory),
    }
}
