//! A writer's bytes, appended to a file in pieces.
ghost use Rattle.std.specs.Prelude.{◌≡◌, ◌<◌, ◌≤◌, [], length, OnOk};
ghost use Rattle.gap_files.specs.Outside.{SinkNow};
ghost use Rattle.gap_files.specs.Marks.{appends};
ghost use Rattle.gap_files.specs.Steps.{Step};
ghost use Rattle.gap_upgrade.specs.Pouring.{Pours};

use gap_files::{Files, Halt, append};
use gap_writer::Writer;

/// How many bytes go next: those that the writer has, and at most so many.
fn size_of(writer: &Writer, piece: usize) -> usize
    requires piece { 0 < piece }
    requires some { 0 < length writer.now.bytes }
    ensures some { 0 < result }
    ensures within { result ≤ length writer.now.bytes }
{
    piece.min(writer.bytes().len())
}

/// Appends the first bytes of the writer, at most so many, and drops them.
fn pour_piece<F: Files>(
    files: &mut F,
    name: &str,
    writer: &mut Writer,
    piece: usize,
) -> Result<(), Halt>
    requires piece { 0 < piece }
    requires some { 0 < length writer.old.bytes }
    ensures pours { (sink : SinkNow)
        → Pours name.now (F.files files.old) (F.files files.new) sink writer.old.bytes writer.new.bytes result }
    ensures last { OnOk result (writer.new.last ≡ writer.old.last) }
    ensures less { OnOk result (length writer.new.bytes < length writer.old.bytes) }
{
    let size = size_of(writer, piece);
    append(files, name, &writer.bytes()[..size])?;
    writer.drop_front(size);
    Ok(())
}

/// Appends all bytes of the writer, in pieces of at most so many, and drops them.
pub(crate) fn pour<F: Files>(
    files: &mut F,
    name: &str,
    writer: &mut Writer,
    piece: usize,
) -> Result<(), Halt>
    requires { 0 < piece }
    ensures step { (sink : SinkNow)
        → Step name.now (F.files files.old) sink (F.files files.new) sink (appends writer.old.bytes) result }
    ensures last { OnOk result (writer.new.last ≡ writer.old.last) }
    ensures empty { OnOk result (writer.new.bytes ≡ []) }
{
    'pieces: while writer.bytes().len() > 0 {
        pour_piece(files, name, writer, piece)?;
    }
    Ok(())
}
