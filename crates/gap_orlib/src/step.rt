//! One byte more, and the token that it ends.

ghost use Rattle.std.specs.Prelude.{◌≡◌, ℕ, ◌+◌, ◌<◌, ◌≤◌, length, IfOk};
ghost use Rattle.gap_orlib.specs.Tokens.{is_separator};
ghost use Rattle.gap_orlib.specs.Ports.{limit, placed};
ghost use Rattle.gap_orlib.specs.Sheets.{judge};
ghost use Rattle.gap_orlib.specs.States.{with_last, going_after, over, going};
ghost use Rattle.gap_orlib.specs.ReaderViews.{rounded_in, IsOn};
ghost use Rattle.gap_orlib.specs.Answers.{Takes, NextIs};

use crate::fault::{PortFault, PortKind, PortStop};
use crate::table::Table;
use std::alloc::Global;

/// The greatest number of bytes of a port file.
pub const LIMIT: u64 = 16_777_216;

/// Whether a byte stands between tokens.
fn is_separator(b: u8) -> bool
    ensures { result ≡ is_separator b }
{
    matches!(b, b' ' | b'\t' | b'\r' | b'\n' | 26)
}

/// A fault at a place.
pub fn fault<T>(place: u64, kind: PortKind) -> Result<T, PortStop>
    ensures { result ≡ Err (PortStop.Fault (record { place = place; kind = kind })) }
{
    Err(PortStop::Fault(PortFault { place, kind }))
}

/// Judges a token, which begins at `begin`.
fn judge(alloc: Global, begin: u64, text: &[u8], table: &mut Option<Table>) -> Result<(), PortStop>
    requires few { rounded_in table.old ≤ begin }
    requires within { begin ≤ limit }
    ensures told { Takes result table.new (placed begin (judge table.old text.now)) }
    ensures few { rounded_in table.new ≤ begin + 1 }
{
    match table {
        Some(sheet) => match sheet.item(text) {
            Ok(()) => Ok(()),
            Err(kind) => fault(begin, kind),
        },
        None => match Table::begin(alloc, begin, text) {
            Ok(sheet) => {
                *table = Some(sheet);
                Ok(())
            }
            Err(stop) => Err(stop),
        },
    }
}

/// Judges the token at hand, where there is one.
fn take(alloc: Global, begin: u64, tail: &[u8], table: &mut Option<Table>) -> Result<(), PortStop>
    requires few { rounded_in table.old ≤ begin }
    requires within { begin ≤ limit }
    ensures told { Takes result table.new (with_last begin tail.now table.old) }
    ensures few { rounded_in table.new ≤ begin + length tail.now }
{
    if tail.is_empty() {
        return Ok(());
    }
    judge(alloc, begin, tail, table)
}

/// Reads one byte more.
fn next(
    alloc: Global,
    begin: &mut u64,
    tail: &mut Vec<u8>,
    table: &mut Option<Table>,
    b: u8,
) -> Result<(), PortStop>
    requires { IsOn begin.old tail.old.items table.old }
    ensures told { NextIs result (record { begin = begin.new; tail = tail.new.items; sheet = table.new })
        (going_after (record { begin = begin.old; tail = tail.old.items; sheet = table.old }) b) }
    ensures on { IfOk result (λ _. IsOn begin.new tail.new.items table.new) }
{
    let place = *begin + tail.len() as u64;
    if is_separator(b) {
        match take(alloc, *begin, tail.as_slice(), table) {
            Ok(()) => {}
            Err(stop) => return Err(stop),
        }
        if place >= LIMIT {
            return fault(LIMIT, PortKind::TooLong);
        }
        tail.clear();
        *begin = place + 1;
        return Ok(());
    }
    if place >= LIMIT {
        return fault(LIMIT, PortKind::TooLong);
    }
    match tail.push(b) {
        Ok(()) => Ok(()),
        Err(_) => Err(PortStop::OutOfMemory),
    }
}

/// Reads the bytes of a piece.
pub fn read_piece(
    alloc: Global,
    begin: &mut u64,
    tail: &mut Vec<u8>,
    table: &mut Option<Table>,
    piece: &[u8],
) -> Result<(), PortStop>
    requires { IsOn begin.old tail.old.items table.old }
    ensures told { NextIs result (record { begin = begin.new; tail = tail.new.items; sheet = table.new })
        (over (going (record { begin = begin.old; tail = tail.old.items; sheet = table.old })) piece.now) }
    ensures on { IfOk result (λ _. IsOn begin.new tail.new.items table.new) }
{
    for b in piece {
        match next(alloc, begin, tail, table, *b) {
            Ok(()) => {}
            Err(stop) => return Err(stop),
        }
    }
    Ok(())
}
