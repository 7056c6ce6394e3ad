//! Pieces of a writer's bytes, appended to a file.

ghost use Rattle.std.specs.Prelude.{◌≡◌, ◌<◌, length, OnOk};
ghost use Rattle.gap_files.specs.Outside.{SinkNow};
ghost use Rattle.gap_files.specs.Drains.{Drains, Fills};

use crate::writer::Writer;
use gap_files::{Files, Halt, append};

/// Appends bytes, of which there are some.
pub fn append_some<F: Files>(files: &mut F, name: &str, bytes: &[u8]) -> Result<(), Halt>
    requires { 0 < length bytes.now }
    ensures { (sink : SinkNow) → Fills name.now (F.files files.old) (F.files files.new) sink bytes.now result }
{
    append(files, name, bytes)
}

/// Appends the first `piece` bytes of the writer, and drops them.
fn append_piece<F: Files>(
    files: &mut F,
    name: &str,
    writer: &mut Writer,
    piece: usize,
) -> Result<(), Halt>
    requires some { 0 < piece }
    requires more { piece < length writer.old.bytes }
    ensures drains { (sink : SinkNow)
        → Drains name.now (F.files files.old) (F.files files.new) sink writer.old.bytes writer.new.bytes result }
    ensures last { OnOk result (writer.new.last ≡ writer.old.last) }
    ensures some { OnOk result (0 < length writer.new.bytes) }
    ensures less { OnOk result (length writer.new.bytes < length writer.old.bytes) }
{
    append_some(files, name, &writer.bytes()[..piece])?;
    writer.drop_front(piece);
    Ok(())
}

/// Appends pieces of so many bytes while the writer has more than one.
pub fn drain<F: Files>(
    files: &mut F,
    name: &str,
    writer: &mut Writer,
    piece: usize,
) -> Result<(), Halt>
    requires piece { 0 < piece }
    requires some { 0 < length writer.old.bytes }
    ensures drains { (sink : SinkNow)
        → Drains name.now (F.files files.old) (F.files files.new) sink writer.old.bytes writer.new.bytes result }
    ensures last { OnOk result (writer.new.last ≡ writer.old.last) }
    ensures some { OnOk result (0 < length writer.new.bytes) }
{
    'pieces: while writer.bytes().len() > piece {
        append_piece(files, name, writer, piece)?;
    }
    Ok(())
}
