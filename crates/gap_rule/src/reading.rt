//! Reading a file through the outside, in pieces, up to its first fault.
ghost use Rattle.std.specs.Prelude.{◌≡◌, ℕ, ◌+◌, ◌-◌, ◌<◌, ◌≤◌, ◌++◌, min, List, [], length, IsOk, IfOk, IfErr, Ok, Err};
ghost use Rattle.gap_rule.specs.Names.{RoseAt};
ghost use Rattle.gap_rule.specs.Reading.{IfTold, OnlyReads, IsFed, WasFed, WasSaid, StopCause, Says};

use crate::consumer::{Consumer, ReadStop};
use gap_files::{Files, Trouble};
use std::alloc::Global;

/// How many bytes are read at a time.
const PIECE: usize = 65_536;

/// Reads at most `room` bytes of a file from the place `at` on into the buffer, none of them further than one behind the
/// most that the consumer takes in, and hands them to it; answers how many there were, 0 at the end of the file.
fn read_piece<F: Files, C: Consumer>(
    files: &mut F,
    name: &str,
    at: u64,
    buffer: &mut [u8],
    room: usize,
    consumer: &mut C,
) -> Result<usize, ReadStop<C::Fault>>
    requires some { 0 < room }
    requires inside { room ≤ length buffer.old }
    requires last { at + room ≤ C.MOST + 1 }
    ensures fed { IfTold (F.files files.old) name.now (λ held.
        IfOk result (λ count. IsFed held at (C.has_read consumer.old) → IsFed held (at + count) (C.has_read consumer.new))) }
    ensures refused { IfTold (F.files files.old) name.now (λ held. (fault : _) → result ≡ Err (ReadStop.Refused fault)
        → IsFed held at (C.has_read consumer.old) → C.said held (Err fault)) }
    ensures end { IfTold (F.files files.old) name.now (λ held. result ≡ Ok 0 → length held ≤ at) }
    ensures grown { IfOk result
        (λ count. WasFed at (C.has_read consumer.old) → WasFed (at + count) (C.has_read consumer.new)) }
    ensures within { IfOk result (λ count. WasFed at (C.has_read consumer.old) → at + count ≤ C.MOST) }
    ensures cause { IfErr result (StopCause (RoseAt name.now (F.files files.old) (F.files files.new))) }
    ensures frame { OnlyReads name.now (F.files files.old) (F.files files.new) }
{
    let piece = &mut buffer[..room];
    let count = match files.read_at(name, at, piece) {
        Ok(count) => count,
        Err(Trouble::Failed) => return Err(ReadStop::ReadFault),
        Err(Trouble::OutOfMemory) => return Err(ReadStop::OutOfMemory),
    };
    match consumer.feed(&piece[..count]) {
        Ok(()) => Ok(count),
        Err(stop) => Err(stop),
    }
}

/// How many bytes to read next: as many as the buffer has room for, and at most one more than there may be.
fn room_at(size: usize, most: u64, at: u64) -> usize
    requires some { 0 < size }
    requires within { at ≤ most }
    requires small { most ≤ 1099511627776 }
    ensures value { result ≡ min size (most + 1 - at) }
    ensures some { 0 < result }
    ensures inside { result ≤ size }
    ensures last { at + result ≤ most + 1 }
{
    size.min((most + 1 - at) as usize)
}

/// Hands a file to the consumer through the buffer, up to its first fault.
fn read_all<F: Files, C: Consumer>(
    files: &mut F,
    name: &str,
    buffer: &mut [u8],
    consumer: C,
) -> Result<C::Made, ReadStop<C::Fault>>
    requires some { 0 < length buffer.old }
    requires small { C.MOST ≤ 1099511627776 }
    requires fresh { C.has_read consumer [] }
    ensures told { IfTold (F.files files.old) name.now (λ held. Says (C.said held) result) }
    ensures was { IfOk result (WasSaid C.said) }
    ensures cause { IfErr result (StopCause (RoseAt name.now (F.files files.old) (F.files files.new))) }
    ensures frame { OnlyReads name.now (F.files files.old) (F.files files.new) }
{
    let mut consumer = consumer;
    let mut at: u64 = 0;
    for turn in 0..C::MOST + 2 {
        let room = room_at(buffer.len(), C::MOST, at);
        match read_piece(files, name, at, buffer, room, &mut consumer) {
            Ok(0) => return consumer.finish(),
            Ok(count) => at += count as u64,
            Err(stop) => return Err(stop),
        }
    }
    unreachable!()
}

/// A buffer of this size.
fn buffer_of<Fault>(alloc: Global, size: usize) -> Result<Vec<u8>, ReadStop<Fault>>
    ensures size { IfOk result (λ buffer. length buffer.items ≡ size) }
    ensures cause { IfErr result (λ stop. stop ≡ ReadStop.OutOfMemory) }
{
    match vec![in alloc; 0u8; size] {
        Ok(buffer) => Ok(buffer),
        Err(_) => Err(ReadStop::OutOfMemory),
    }
}

/// Hands a file to the consumer, in pieces of 65536 bytes, up to its first fault. One pass over its bytes, of which it
/// reads at most one more than there may be.
pub(crate) fn read_file<F: Files, C: Consumer>(
    alloc: Global,
    files: &mut F,
    name: &str,
    consumer: C,
) -> Result<C::Made, ReadStop<C::Fault>>
    requires small { C.MOST ≤ 1099511627776 }
    requires fresh { C.has_read consumer [] }
    ensures told { IfTold (F.files files.old) name.now (λ held. Says (C.said held) result) }
    ensures was { IfOk result (WasSaid C.said) }
    ensures cause { IfErr result (StopCause (RoseAt name.now (F.files files.old) (F.files files.new))) }
    ensures frame { OnlyReads name.now (F.files files.old) (F.files files.new) }
{
    let mut buffer = match buffer_of(alloc, PIECE) {
        Ok(buffer) => buffer,
        Err(stop) => return Err(stop),
    };
    read_all(files, name, buffer.as_mut_slice(), consumer)
}
