//! The items of a certificate, from bytes in any pieces.

ghost use Rattle.std.specs.Prelude.{◌≡◌, ◌+◌, ◌≤◌, ◌^◌, ◌++◌, length, drop, Some, Err, IsTrue, OnOk, OnErr, IfOk, IfErr, IfSome};
ghost use Rattle.std.specs.Option.{ForSome};
ghost use Rattle.gap_cert.specs.Contexts.{IsFieldIn};
ghost use Rattle.gap_scan.specs.Scans.{Scan, fresh_scan, is_grammar_kind, next_of};

use crate::cursor::Cursor;
use crate::groups::read_group;
use gap_base::OutOfMemory;
use gap_cert::{Context, Item, Stop};
use gap_model::CertFault;
use std::alloc::Global;
use std::marker::Model;

/// Gives the items of a certificate of either version, fed in pieces of any size. It keeps the bytes that aren't in an
/// item yet, and the witness of the last tangent leaf. Each byte is read once an item, and once a call more where the
/// pieces cut an item.
#[derive(Drop)]
pub struct Scanner {
    buffer: Vec<u8>,
    at: usize,
    place: u64,
    context: Context,
    fault: Option<CertFault>,
}

impl Model for Scanner {
    ghost use Rattle.std.specs.Prelude.{◌≡◌, ◌+◌, ◌-◌, ◌≤◌, ◌^◌, length, drop, IsTrue};
    ghost use Rattle.gap_scan.specs.Scans.{Scan, is_grammar_kind};
    ghost use Rattle.std.specs.Option.{ForSome};
    ghost use Rattle.gap_cert.specs.Contexts.{IsContext};
    ghost use Rattle.gap_cert.specs.Bytes.{AreBytes};

    ghost Value = { Scan };

    ghost view = { λ a. record {
      context = a.context;
      place = a.place;
      rest = drop a.at a.buffer.items;
      fault = a.fault;
    } };

    ghost invariant = { λ a. (a.at ≤ length a.buffer.items) × (a.place + (length a.buffer.items - a.at) ≤ 2 ^ 62)
        × IsContext a.context × (a.context.left ≤ a.place + 65536) × AreBytes a.buffer.items
        × ForSome a.fault (λ f. IsTrue (is_grammar_kind f.kind)) };
}

impl Scanner {
    /// A scanner that was fed nothing. It takes no memory.
    pub fn new(alloc: Global) -> Scanner
        ensures { result ≡ fresh_scan }
    {
        Scanner {
            buffer: Vec::new(alloc),
            at: 0,
            place: 0,
            context: Context::start(),
            fault: None,
        }
    }

    /// The number of the first byte that isn't in an item yet.
    pub fn place(&self) -> u64
        ensures { result ≡ self.now.place }
    {
        self.place
    }

    #[tactic(auto, using(crate::proofs::ScanLaws::bytes_append, crate::proofs::ScanLaws::bytes_by_index, gap_cert::proofs::FormatLaws::bytes_drop))]
    /// Feeds more bytes. After want of memory the scanner is as it was.
    pub fn feed(&mut self, piece: &[u8]) -> Result<(), OutOfMemory>
        requires { self.old.place + length self.old.rest + length piece.now ≤ 2 ^ 62 }
        ensures ok { OnOk result (self.new ≡ record self.old { rest = self.old.rest ++ piece.now }) }
        ensures err { OnErr result (self.new ≡ self.old) }
    {
        drop_front(&mut self.buffer, self.at);
        self.at = 0;
        self.buffer.extend_from_slice(piece)?;
        Ok(())
    }

    /// The next item. None where the bytes so far hold no further whole one and nothing in them is at fault; after a
    /// fault the same again, whatever is fed. It takes no memory.
    #[tactic(auto, using(crate::proofs::FaultLaws::grammar_only), unfolding(crate::specs::Scans::next_of))]
    pub fn next(&mut self) -> Result<Option<Item>, CertFault>
        ensures answer { result ≡ (next_of self.old).answer }
        ensures stands { self.new ≡ (next_of self.old).stands }
        ensures inside { IfOk result (λ given. IfSome given (λ item. IsFieldIn item.field)) }
        ensures kinds { IfErr result (λ f. IsTrue (is_grammar_kind f.kind)) }
        ensures kept { IfErr result (λ f. self.new.fault ≡ Some f) }
        ensures stuck { ForSome self.old.fault (λ f. (result ≡ Err f) × (self.new ≡ self.old)) }
        ensures whole { self.new.place + length self.new.rest ≡ self.old.place + length self.old.rest }
    {
        if let Some(fault) = self.fault {
            return Err(fault);
        }
        let place = self.place;
        let mut cursor = Cursor::new(place, &self.buffer[self.at..]);
        match read_group(&mut cursor, &self.context) {
            Err(Stop::More) => Ok(None),
            Err(Stop::Fault(fault)) => {
                self.fault = Some(fault);
                Err(fault)
            }
            Ok(group) => {
                let behind = cursor.place();
                self.at += (behind - place) as usize;
                self.place = behind;
                self.context.advance(&group);
                Ok(Some(Item {
                    place,
                    field: group.field,
                }))
            }
        }
    }
}

/// Drops the first `n` bytes.
fn drop_front(buffer: &mut Vec<u8>, n: usize)
    requires { n ≤ length buffer.old.items }
    ensures { buffer.new.items ≡ drop n buffer.old.items }
{
    buffer.drain(..n);
}
