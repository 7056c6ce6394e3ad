//! A certificate's file, read piece by piece and copied into the new file.
ghost use Rattle.std.specs.Prelude.{◌≡◌, ℕ, ◌<◌, ◌≤◌, List, [], length, IfOk, IfErr};
ghost use Rattle.std.specs.Option.{ForSome};
ghost use Rattle.gap_files.specs.Outside.{ReadsAt, bytes_of};
ghost use Rattle.gap_upgrade.specs.Copies.{Appended, Stands, Copies};
ghost use Rattle.gap_upgrade.specs.Stops.{IsUnrefused};

use crate::copier::Copier;
use crate::pouring::pour;
use crate::stop::{Stop, stopped};
use gap_base::OutOfMemory;
use gap_check::Verdict;
use gap_files::{Files, Trouble};
use std::alloc::Global;

/// How many bytes are read, and appended, at a time.
const PIECE: usize = 65_536;

/// The most bytes that are read; the longest valid certificate has fewer than a fiftieth of them.
const LONGEST: u64 = 1_099_511_627_775;

/// Reads bytes of the certificate's file from the place `at` on into the buffer, and answers how many.
fn read_some<F: Files>(files: &mut F, cert: &str, at: u64, buffer: &mut [u8]) -> Result<usize, Stop>
    ensures within { IfOk result (λ count. count ≤ length buffer.new) }
    ensures size { length buffer.new ≡ length buffer.old }
    ensures bytes { IfOk result
        (λ count. ForSome ((F.files files.old).content cert.now) (λ held. ReadsAt (bytes_of held) at buffer.new count)) }
    ensures calm { (new : List ℕ) → IfOk result (λ count. Appended cert.now new (F.files files.old) (F.files files.new) []) }
    ensures stops { (new : List ℕ) → IfErr result (Stands cert.now new (F.files files.old) (F.files files.new) []) }
    ensures unrefused { IfErr result IsUnrefused }
{
    match files.read_at(cert, at, buffer) {
        Ok(count) => Ok(count),
        Err(Trouble::Failed) => Err(Stop::ReadFault),
        Err(Trouble::OutOfMemory) => Err(Stop::OutOfMemory),
    }
}

/// Copies the certificate of a file through the buffer.
fn copy_all<F: Files>(
    alloc: Global,
    cert: &str,
    new: &str,
    files: &mut F,
    buffer: &mut [u8],
) -> Result<Verdict, Stop>
    requires some { 0 < length buffer.old }
    requires few { length buffer.old ≤ 65536 }
    ensures { Copies cert.now new.now (F.files files.old) (F.files files.new) result }
{
    let mut copier = Copier::new(alloc);
    let mut at: u64 = 0;
    'pieces: while at <= LONGEST {
        let count = read_some(files, cert, at, buffer)?;
        if count == 0 {
            return copier.finish();
        }
        copier.feed(&buffer[..count])?;
        stopped(pour(files, new, &mut copier.writer, PIECE))?;
        at += count as u64;
    }
    Err(Stop::OutOfMemory)
}

/// A buffer of this size.
fn buffer_of(alloc: Global, size: usize) -> Result<Vec<u8>, OutOfMemory>
    ensures size { IfOk result (λ buffer. length buffer.items ≡ size) }
{
    let buffer = vec![in alloc; 0u8; size]?;
    Ok(buffer)
}

/// Reads and checks the certificate of the file `cert`, while its items but the end mark are appended to the file `new` in
/// version 2; answers what it tells.
pub(crate) fn copy<F: Files>(
    alloc: Global,
    cert: &str,
    new: &str,
    files: &mut F,
) -> Result<Verdict, Stop>
    ensures { Copies cert.now new.now (F.files files.old) (F.files files.new) result }
{
    let mut buffer = buffer_of(alloc, PIECE)?;
    copy_all(alloc, cert, new, files, buffer.as_mut_slice())
}
