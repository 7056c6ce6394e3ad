//! A certificate that is read and checked while its items are written in version 2.
ghost use Rattle.std.specs.Prelude.{◌≡◌, ℕ, ◌+◌, ◌≤◌, ◌^◌, List, [], ◌++◌, length, Err, OnOk, IfOk, IfErr};
ghost use Rattle.gap_cert.specs.Contexts.{IsFieldIn};
ghost use Rattle.gap_model.specs.declared.cert_fault.CertFault.{CertFault};
ghost use Rattle.gap_upgrade.specs.Copying.{is_end, put_unended, HasWritten, HasWrittenAll, Steps, Writes, HasCopied, IsNoFront, IsNone, IsWhole};
ghost use Rattle.gap_upgrade.specs.Stops.{IsInner};

use crate::stop::Stop;
use gap_base::OutOfMemory;
use gap_cert::{Field, Item};
use gap_check::{Checker, Verdict};
use gap_scan::Scanner;
use gap_writer::Writer;
use std::alloc::Global;

/// A checker of the bytes that are fed, and their items in version 2 but for the end mark.
#[derive(Drop)]
pub(crate) struct Copier {
    checker: Checker,
    scanner: Scanner,
    pub(crate) writer: Writer,
}

/// Is it the end mark?
fn is_end(field: &Field) -> bool
    ensures { result ≡ is_end field.now }
{
    match field {
        Field::End => true,
        _ => false,
    }
}

/// Writes an item, where it isn't the end mark.
fn write_item(item: &Item, writer: &mut Writer) -> Result<(), OutOfMemory>
    requires { IsFieldIn item.now.field }
    ensures { OnOk result (writer.new ≡ put_unended writer.old item.now.field) }
{
    if is_end(&item.field) {
        return Ok(());
    }
    writer.item(item)
}

/// Writes the next item, where the bytes so far have one.
fn copy_item(scanner: &mut Scanner, writer: &mut Writer) -> Result<bool, Stop>
    ensures steps { (fed gone : List ℕ) → HasWritten scanner.old writer.old fed gone
        → Steps result fed gone scanner.new writer.new }
    ensures whole { scanner.new.place + length scanner.new.rest ≡ scanner.old.place + length scanner.old.rest }
    ensures inner { IfErr result IsInner }
{
    match scanner.next() {
        Err(fault) => Err(Stop::Refused(fault)),
        Ok(None) => Ok(false),
        Ok(Some(item)) => {
            write_item(&item, writer)?;
            Ok(true)
        }
    }
}

/// Writes all items of the bytes so far.
fn copy_items(scanner: &mut Scanner, writer: &mut Writer) -> Result<(), Stop>
    ensures writes { (fed gone : List ℕ) → HasWritten scanner.old writer.old fed gone
        → Writes result fed gone scanner.new writer.new }
    ensures whole { scanner.new.place + length scanner.new.rest ≡ scanner.old.place + length scanner.old.rest }
    ensures inner { IfErr result IsInner }
{
    for turn in 0..u64::MAX {
        if !copy_item(scanner, writer)? {
            return Ok(());
        }
    }
    Err(Stop::OutOfMemory)
}

impl Copier {
    /// A copier that was fed nothing. It takes no memory.
    pub(crate) fn new(alloc: Global) -> Copier
        ensures copied { HasCopied result.checker result.scanner result.writer [] [] }
        ensures place { result.scanner.place + length result.scanner.rest ≡ 0 }
        ensures empty { result.writer.bytes ≡ [] }
    {
        Copier {
            checker: Checker::new(alloc),
            scanner: Scanner::new(alloc),
            writer: Writer::new(alloc),
        }
    }

    /// Checks the next piece, and writes the items that it ends. After an error the copier is of no use.
    ///
    /// # Errors
    /// `Refused` with the first fault that the bytes so far decide; `OutOfMemory`.
    pub(crate) fn feed(&mut self, piece: &[u8]) -> Result<(), Stop>
        requires { self.old.scanner.place + length self.old.scanner.rest + length piece.now ≤ 2 ^ 62 }
        ensures copied { OnOk result ((fed gone : List ℕ)
            → HasCopied self.old.checker self.old.scanner self.old.writer fed gone
            → HasCopied self.new.checker self.new.scanner self.new.writer (fed ++ piece.now) gone) }
        ensures refused { (fault : CertFault) → result ≡ Err (Stop.Refused fault) → (fed gone : List ℕ)
            → HasCopied self.old.checker self.old.scanner self.old.writer fed gone → IsNoFront (fed ++ piece.now) }
        ensures whole { OnOk result (self.new.scanner.place + length self.new.scanner.rest
            ≡ self.old.scanner.place + length self.old.scanner.rest + length piece.now) }
        ensures inner { IfErr result IsInner }
    {
        self.checker.feed(piece)?;
        self.scanner.feed(piece)?;
        copy_items(&mut self.scanner, &mut self.writer)
    }

    /// What all bytes fed tell, exactly where they encode a valid certificate.
    ///
    /// # Errors
    /// `Refused` with the first fault of the bytes; `OutOfMemory`.
    pub(crate) fn finish(self) -> Result<Verdict, Stop>
        ensures whole { (fed gone : List ℕ) → HasCopied self.checker self.scanner self.writer fed gone
            → self.writer.bytes ≡ [] → IfOk result (IsWhole fed gone) }
        ensures refused { (fault : CertFault) → result ≡ Err (Stop.Refused fault) → (fed gone : List ℕ)
            → HasCopied self.checker self.scanner self.writer fed gone → IsNone fed }
        ensures inner { IfErr result IsInner }
    {
        let Copier { checker, .. } = self;
        let verdict = checker.finish()?;
        Ok(verdict)
    }
}
