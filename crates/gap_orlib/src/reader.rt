//! The reader of port files, in pieces of any size.

ghost use Rattle.std.specs.Prelude.{◌≡◌, ◌≢◌, ◌↔◌, ℕ, ◌+◌, ◌++◌, [], List, length, Some, IfOk, IsOk, ◌⊎◌};
ghost use Rattle.gap_orlib.specs.Ports.{port, finished};
ghost use Rattle.gap_base.specs.Markets.{MarketValue};
ghost use Rattle.gap_orlib.specs.Fields.{IsMarketOf};
ghost use Rattle.gap_orlib.specs.Faults.{IsFaultOf};
ghost use Rattle.gap_orlib.specs.ReaderViews.{IsOn};
ghost use Rattle.gap_orlib.specs.States.{HasRead, answer_of, IsStopped, Tells, no_memory, with_last};

use crate::fault::{PortFault, PortKind, PortStop};
use crate::step::{fault, read_piece};
use crate::table::Table;
use crate::whole::whole_in;
use gap_base::Market;
use std::alloc::Global;
use std::marker::Model;

/// Reads the bytes of a port file in pieces of any size. It keeps the bytes of the token at hand and
/// O(N * N) memory for the market and the pairs that stood, and nothing that grows with the text.
///
/// Contracts see where it stands as a `State`: it goes on, or has the first fault, or was refused
/// memory.
#[derive(Drop)]
pub struct Reader {
    alloc: Global,
    begin: u64,
    tail: Vec<u8>,
    table: Option<Table>,
    stop: Option<PortStop>,
}

impl Model for Reader {
    ghost use Rattle.gap_orlib.specs.States.{State};

    ghost Value = { State };

    ghost use Rattle.gap_orlib.specs.ReaderViews.{reader_view, fits_reader};

    ghost view = { reader_view };

    ghost invariant = { fits_reader };
}

impl Reader {
    /// A reader that was fed nothing. Takes no memory.
    #[tactic(auto, unfolding(crate::specs::States::state_of, crate::specs::States::cut, crate::specs::Ports::judged, crate::specs::Ports::kept))]
    pub fn new(alloc: Global) -> Reader
        ensures read { HasRead result [] }
        ensures memory { result ≢ no_memory }
    {
        Reader {
            alloc,
            begin: 0,
            tail: Vec::new(alloc),
            table: None,
            stop: None,
        }
    }

    /// Reads the next piece of the bytes: whatever the pieces, the answer is that of the bytes fed.
    /// One step for each byte of the piece; memory is taken for the token at hand, and once, with the
    /// first token, for O(N * N) numbers.
    ///
    /// # Errors
    /// `Fault` with the first fault that the bytes so far decide; `OutOfMemory` where memory was
    /// refused. After either, every call answers the same again.
    pub fn feed(&mut self, piece: &[u8]) -> Result<(), PortStop>
        ensures read { (fed : List ℕ) → HasRead self.old fed → HasRead self.new (fed ++ piece.now) }
        ensures answer { result ≡ answer_of self.new }
        ensures decided { (fed more : List ℕ) (f : PortFault) → HasRead self.old fed → result ≡ Err (PortStop.Fault f)
            → port (fed ++ piece.now ++ more) ≡ Err f }
        ensures stuck { IsStopped self.old → self.new ≡ self.old }
    {
        match self.stop {
            Some(stop) => Err(stop),
            None => match read_piece(
                self.alloc,
                &mut self.begin,
                &mut self.tail,
                &mut self.table,
                piece,
            ) {
                Ok(()) => Ok(()),
                Err(stop) => {
                    self.stop = Some(stop);
                    Err(stop)
                }
            },
        }
    }

    /// The market of all bytes fed. Takes no memory.
    ///
    /// # Errors
    /// `Fault` with the first fault of the bytes; `OutOfMemory` exactly where a feed answered it.
    pub fn finish(self) -> Result<Market, PortStop>
        ensures market { (fed : List ℕ) → HasRead self fed → Tells result (port fed) }
        ensures words { (fed : List ℕ) → HasRead self fed → IfOk result (IsMarketOf fed) }
        ensures accepts { (fed : List ℕ) (m : MarketValue) → HasRead self fed → IsMarketOf fed m
            → IsOk result ⊎ (result ≡ Err PortStop.OutOfMemory) }
        ensures faults { (fed : List ℕ) (f : PortFault) → HasRead self fed → result ≡ Err (PortStop.Fault f)
            → IsFaultOf fed f }
        ensures memory { (result ≡ Err PortStop.OutOfMemory) ↔ (self ≡ no_memory) }
    {
        let Reader {
            begin,
            tail,
            table,
            stop,
            ..
        } = self;
        match stop {
            Some(stop) => Err(stop),
            None => end(begin, tail.as_slice(), table),
        }
    }
}

/// The market where the bytes end, behind the token at hand.
fn end(begin: u64, tail: &[u8], table: Option<Table>) -> Result<Market, PortStop>
    requires { IsOn begin tail.now table }
    ensures told { Tells result (finished (begin + length tail.now) (with_last begin tail.now table)) }
    ensures memory { result ≢ Err PortStop.OutOfMemory }
{
    let size = begin + tail.len() as u64;
    match table {
        Some(sheet) => end_of_sheet(begin, tail, size, sheet),
        None if size == begin => fault(size, PortKind::Short),
        None => match whole_in(tail, 2, 256) {
            Some(_) => fault(size, PortKind::Short),
            None => fault(begin, PortKind::Count),
        },
    }
}

/// The same where the first token came before.
fn end_of_sheet(begin: u64, tail: &[u8], size: u64, sheet: Table) -> Result<Market, PortStop>
    requires on { IsOn begin tail.now (Some sheet) }
    requires sized { size ≡ begin + length tail.now }
    ensures told { Tells result (finished size (with_last begin tail.now (Some sheet))) }
    ensures memory { result ≢ Err PortStop.OutOfMemory }
{
    let mut sheet = sheet;
    if !tail.is_empty() {
        match sheet.item(tail) {
            Ok(()) => {}
            Err(kind) => return fault(begin, kind),
        }
    }
    match sheet.close() {
        Ok(market) => Ok(market),
        Err(kind) => fault(size, kind),
    }
}
