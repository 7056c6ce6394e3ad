//! Rows of port files: what each is, fed whole, in pieces of 7 bytes and byte by byte.

ghost use Rattle.std.specs.Prelude.{◌<◌};

use gap_base::Market;
use gap_orlib::{PortFault, PortKind, PortStop, Reader};
use std::alloc::Global;
use std::test::Fail;

/// Reads the text in pieces of at most `size` bytes.
fn read(alloc: Global, text: &[u8], size: usize) -> Result<Market, PortStop>
    requires { 0 < size }
{
    let mut reader = Reader::new(alloc);
    for piece in text.chunks(size) {
        let _answer = reader.feed(piece);
    }
    reader.finish()
}

#[test]
fn first_faults(rt: HostRuntime) {
    let rows: [(&str, u64, PortKind); 21] = [
        ("", 0, PortKind::Short),
        ("257", 0, PortKind::Count),
        (" +1 ", 1, PortKind::Count),
        ("2.0", 0, PortKind::Count),
        ("2\n.001 -.1\n", 7, PortKind::Deviation),
        ("2\n.001 1.0000005\n", 7, PortKind::Range),
        ("2\n.001x .1\n", 2, PortKind::Numeral),
        ("2\n-1.0000005 .1\n", 2, PortKind::Range),
        ("2\n.001 .1\n.002", 14, PortKind::Short),
        ("2\n.001 .1\n.002 .2\n1 2 1.000001\n", 22, PortKind::Range),
        ("2\n.001 .1\n.002 .2\n1 2 1e41\n", 22, PortKind::Numeral),
        ("2\n.001 .1\n.002 .2\n1 3 0\n", 20, PortKind::Index),
        ("2\n.001 .1\n.002 .2\n0 2 0\n", 18, PortKind::Index),
        ("2\n.001 .1\n.002 .2\n1 1 .5\n", 22, PortKind::Diagonal),
        (
            "2\n.001 .1\n.002 .2\n",
            18,
            PortKind::Missing { i: 1, j: 2 },
        ),
        ("2\n.001 .1\n.002 .2\n1 2", 21, PortKind::Short),
        (
            "2\n.001 .1\n.002 .2\n1 2 0\n2 1 .5\n",
            28,
            PortKind::Conflict { i: 1, j: 2 },
        ),
        (
            "2\n.001 .1\n.002 .2\n1 2 0\n1 2 1e-6\n9 x",
            28,
            PortKind::Conflict { i: 1, j: 2 },
        ),
        (
            "3 0 0 0 0 0 0 2 1 0 3 2 0",
            25,
            PortKind::Missing { i: 1, j: 3 },
        ),
        ("3 0 0 0 0 0 0 2 1 0 3 2 0 1", 27, PortKind::Short),
        ("2 x 0 0 0 1", 2, PortKind::Numeral),
    ];
    for (text, place, kind) in rows {
        for size in [1usize, 7, 100] {
            let answer = read(rt.alloc(), text.as_bytes(), size);
            let Err(stop) = answer else {
                panic!(rt; "a market: {text}");
            };
            assert_eq!(rt;
                stop,
                PortStop::Fault(PortFault { place, kind }),
                "at {text}"
            );
        }
    }
}

/// The mean of the first asset, the deviation of the second and their correlation, and how many numbers were rounded; none
/// where there are more than two assets or fewer.
fn said(market: &Market) -> Option<(i32, u32, i32, u32)> {
    if market.n() != 2 {
        return None;
    }
    Some((
        market.mean(0),
        market.dev(1),
        market.rho(1, 0),
        market.rounded(),
    ))
}

#[test]
fn markets(rt: HostRuntime) -> Result<(), Fail> {
    let rows: [(&str, i32, u32); 5] = [
        ("2\n.001 .1\n.002 .2\n1 2 0\n", 0, 0),
        ("2\n.001 .1\n.002 .2\n1 2 0\n2 1 0\n", 0, 0),
        ("+02\t1e-3 .1\r\n.002 .2 2 +1 -.5", -500_000, 0),
        (
            "2 .0010000004 .1 .002 .2 1 2 -1 2 1 -1.0000004 1 1 1",
            -1_000_000,
            2,
        ),
        (
            "2 .001 .1 .002 .2 1 2 .0000005 2 2 1.0000001 2 1 .000001\n\x1a",
            1,
            2,
        ),
    ];
    for (text, rho, rounded) in rows {
        for size in [1usize, 7, 100] {
            let market = read(rt.alloc(), text.as_bytes(), size)?;
            let due = (1000, 200_000, rho, rounded);
            assert_eq!(rt; said(&market), Some(due), "at {text}");
        }
    }
    Ok(())
}

#[test]
fn too_long(rt: HostRuntime) -> Result<(), Fail> {
    let blanks = vec![in rt.alloc(); b' '; 65_536]?;
    let mut reader = Reader::new(rt.alloc());
    for _ in 0..256 {
        assert_eq!(rt; reader.feed(blanks.as_slice()), Ok(()));
    }
    let stop = PortStop::Fault(PortFault {
        place: 16_777_216,
        kind: PortKind::TooLong,
    });
    assert_eq!(rt; reader.feed(b"2"), Err(stop));
    assert_eq!(rt; reader.feed(b" "), Err(stop));
    let Err(last) = reader.finish() else {
        panic!(rt; "a market of too many bytes");
    };
    assert_eq!(rt; last, stop);
    Ok(())
}

/// A market of two assets that aren't correlated.
const A: [u8; 24] = *b"2\n.001 .1\n.002 .2\n1 2 0\n";

/// The same with an `x` in the byte at a place.
fn with_x(at: usize) -> [u8; 24] {
    let mut bytes = A;
    if at < 24 {
        bytes[at] = b'x';
    }
    bytes
}

/// Why bytes that come in pieces of at most `size` are no market; None where they are one.
fn stop_of(alloc: Global, bytes: &[u8], size: usize) -> Option<PortStop>
    requires { 0 < size }
{
    read(alloc, bytes, size).err()
}

/// This fault at this place.
fn fault(place: u64, kind: PortKind) -> Option<PortStop> {
    Some(PortStop::Fault(PortFault { place, kind }))
}

#[test]
fn each_cut_and_each_byte_replaced(rt: HostRuntime) {
    let missing = PortKind::Missing { i: 1, j: 2 };
    // what is wrong with the bytes before the place, and where; and what with an `x` in the byte there, and where
    let rows: [(u64, PortKind, u64, PortKind); 23] = [
        (0, PortKind::Short, 0, PortKind::Count),
        (1, PortKind::Short, 0, PortKind::Count),
        (2, PortKind::Short, 2, PortKind::Numeral),
        (2, PortKind::Numeral, 2, PortKind::Numeral),
        (4, PortKind::Short, 2, PortKind::Numeral),
        (5, PortKind::Short, 2, PortKind::Numeral),
        (6, PortKind::Short, 2, PortKind::Numeral),
        (7, PortKind::Short, 7, PortKind::Numeral),
        (7, PortKind::Numeral, 7, PortKind::Numeral),
        (9, PortKind::Short, 7, PortKind::Numeral),
        (10, PortKind::Short, 10, PortKind::Numeral),
        (10, PortKind::Numeral, 10, PortKind::Numeral),
        (12, PortKind::Short, 10, PortKind::Numeral),
        (13, PortKind::Short, 10, PortKind::Numeral),
        (14, PortKind::Short, 10, PortKind::Numeral),
        (15, PortKind::Short, 15, PortKind::Numeral),
        (15, PortKind::Numeral, 15, PortKind::Numeral),
        (17, missing, 15, PortKind::Numeral),
        (18, missing, 18, PortKind::Index),
        (19, PortKind::Short, 18, PortKind::Index),
        (20, PortKind::Short, 20, PortKind::Index),
        (21, PortKind::Short, 20, PortKind::Index),
        (22, PortKind::Short, 22, PortKind::Numeral),
    ];
    for at in 0..23usize {
        let (cut_at, cut, x_at, x) = rows[at];
        for size in [1usize, 7, 100] {
            assert_eq!(rt;
                stop_of(rt.alloc(), &A[..at], size),
                fault(cut_at, cut),
                "cut at {at}"
            );
            assert_eq!(rt;
                stop_of(rt.alloc(), &with_x(at), size),
                fault(x_at, x),
                "x at {at}"
            );
        }
    }
    for size in [1usize, 7, 100] {
        // the last line feed isn't needed, and an `x` in its place makes the last token `0x`
        assert_eq!(rt; stop_of(rt.alloc(), &A[..23], size), None);
        assert_eq!(rt;
            stop_of(rt.alloc(), &with_x(23), size),
            fault(22, PortKind::Numeral)
        );
        assert_eq!(rt; stop_of(rt.alloc(), &A, size), None);
    }
}
