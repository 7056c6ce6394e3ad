//! The worked certificate of two assets in both versions, cut into pieces, and damaged.

ghost use Rattle.std.specs.Prelude.{◌≤◌, length};

use gap_base::OutOfMemory;
use gap_model::{CertFault, CertKind};
use gap_samples::certificates::{ONE, TWO};
use gap_scan::Scanner;
use std::alloc::Global;
use std::test::Fail;

/// The places of the items.
const PLACES_ONE: [u64; 16] = [
    0, 19, 33, 47, 51, 59, 67, 75, 91, 107, 108, 111, 119, 135, 136, 183,
];

const PLACES_TWO: [u64; 16] = [
    0, 21, 35, 49, 53, 61, 69, 77, 93, 109, 110, 113, 123, 139, 140, 187,
];

/// The fault that a scanner gives of the bytes, if it gives one.
fn fault_of(alloc: Global, bytes: &[u8]) -> Result<Option<CertFault>, OutOfMemory>
    requires { length bytes.now ≤ 1000 }
{
    let mut scanner = Scanner::new(alloc);
    scanner.feed(bytes)?;
    for _ in 0..300 {
        match scanner.next() {
            Ok(Some(_)) => {}
            Ok(None) => return Ok(None),
            Err(fault) => return Ok(Some(fault)),
        }
    }
    Ok(None)
}

/// Each item stands at its place, and behind the last one nothing comes.
fn stands_at(alloc: Global, bytes: &[u8], places: &[u64]) -> Result<bool, OutOfMemory>
    requires { length bytes.now ≤ 1000 }
{
    let mut scanner = Scanner::new(alloc);
    let (front, back) = bytes.split_at(bytes.len() / 2);
    scanner.feed(front)?;
    scanner.feed(back)?;
    for place in places {
        match scanner.next() {
            Ok(Some(item)) => {
                if item.place != *place {
                    return Ok(false);
                }
            }
            _ => return Ok(false),
        }
    }
    Ok(matches!(scanner.next(), Ok(None)))
}

#[test]
fn gives_the_items_of_both_versions(rt: HostRuntime) -> Result<(), Fail> {
    assert!(rt; stands_at(rt.alloc(), &ONE, &PLACES_ONE)?);
    assert!(rt; stands_at(rt.alloc(), &TWO, &PLACES_TWO)?);
    Ok(())
}

#[test]
fn names_the_first_fault(rt: HostRuntime) -> Result<(), Fail> {
    let range = CertKind::Range;
    let rows: [(usize, u8, u64, CertKind); 9] = [
        (7, 0x33, 7, CertKind::Magic),
        (7, 0x32, 14, range),
        (9, 1, 8, range),
        (110, 2, 111, range),
        (116, 1, 115, CertKind::Order),
        (150, 0x11, 145, range),
        (182, 1, 167, range),
        (186, 0, 183, range),
        (0, 0, 0, CertKind::Magic),
    ];
    for (at, byte, place, kind) in rows {
        let mut bytes = ONE;
        if at < 187 {
            bytes[at] = byte;
        }
        let fault = fault_of(rt.alloc(), &bytes)?;
        assert!(rt; fault == Some(CertFault { place, kind }));
    }
    Ok(())
}

#[test]
fn takes_no_byte_behind_the_end(rt: HostRuntime) -> Result<(), Fail> {
    let mut bytes = [0u8; 188];
    bytes[..187].copy_from_slice(&ONE);
    let fault = fault_of(rt.alloc(), &bytes)?;
    let trail = CertKind::Trail;
    assert!(rt;
        fault
            == Some(CertFault {
                place: 187,
                kind: trail
            })
    );
    assert!(rt; fault_of(rt.alloc(), &ONE[..186])?.is_none());
    Ok(())
}
