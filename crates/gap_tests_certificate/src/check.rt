//! The worked certificate of two assets in both versions: whole, in pieces, cut and damaged.

ghost use Rattle.std.specs.Prelude.{◌<◌};

use gap_base::{Lots, OutOfMemory, Row, Weight};
use gap_check::{CertStop, Checker, Verdict};
use gap_instance::Broken;
use gap_model::{CertFault, CertKind, Outcome, Told};
use gap_samples::certificates::{ONE, TWO};
use std::alloc::Global;
use std::test::Fail;

/// The objective of the worked portfolio, 8 and 2 lots.
const EIGHTY: i128 = 800_000_000_000_000_000;

/// What a checker answers to bytes that come in pieces of at most `size`.
fn checked(alloc: Global, bytes: &[u8], size: usize) -> Result<Verdict, CertStop>
    requires { 0 < size }
{
    let mut checker = Checker::new(alloc);
    for piece in bytes.chunks(size) {
        checker.feed(piece)?;
    }
    checker.finish()
}

/// Why bytes that come in pieces of at most `size` are no certificate; None where they are one.
fn stop_of(alloc: Global, bytes: &[u8], size: usize) -> Option<CertStop>
    requires { 0 < size }
{
    checked(alloc, bytes, size).err()
}

/// The same, whole, in pieces of 7 and byte by byte; None where the three differ.
fn stop_always(alloc: Global, bytes: &[u8]) -> Option<Option<CertStop>> {
    let whole = stop_of(alloc, bytes, 1000);
    if stop_of(alloc, bytes, 7) == whole && stop_of(alloc, bytes, 1) == whole {
        Some(whole)
    } else {
        None
    }
}

/// This fault at this place, each time.
fn fault(place: u64, kind: CertKind) -> Option<Option<CertStop>> {
    Some(Some(CertStop::Fault(CertFault { place, kind })))
}

/// They are a certificate, each time.
const ACCEPTED: Option<Option<CertStop>> = Some(None);

/// Are these the lots 8 and 2?
fn is_eight_and_two(lots: &Lots) -> bool {
    lots.len() == 2 && lots.get(0) == 8 && lots.get(1) == 2
}

/// Is the worked section told: closed at this weight with this portfolio?
fn is_worked(told: &Told) -> bool {
    match &told.outcome {
        Outcome::Closed(best) => {
            told.weight == Weight { p: 1, q: 1 }
                && best.value == EIGHTY
                && is_eight_and_two(&best.lots)
        }
        _ => false,
    }
}

/// Is this all that the worked certificate tells?
fn is_right(verdict: &Verdict) -> bool {
    let inst = verdict.instance();
    let limits = (inst.n(), inst.lots(), inst.held(), inst.held_most());
    limits == (2, 10, 2, 2)
        && inst.turnover() == None
        && verdict.nodes() == 0
        && verdict.sections().len() == 1
        && verdict.sections().iter().all(is_worked)
}

#[test]
fn accepts_both_versions(rt: HostRuntime) -> Result<(), Fail> {
    for size in [1000, 7, 1] {
        let Ok(one) = checked(rt.alloc(), &ONE, size) else {
            assert!(rt; false, "version 1 in pieces of {size}");
            return Ok(());
        };
        assert!(rt; is_right(&one), "version 1 in pieces of {size}");
        let Ok(two) = checked(rt.alloc(), &TWO, size) else {
            assert!(rt; false, "version 2 in pieces of {size}");
            return Ok(());
        };
        assert!(rt; is_right(&two), "version 2 in pieces of {size}");
    }
    Ok(())
}

#[test]
fn each_cut_is_short_at_its_length(rt: HostRuntime) -> Result<(), Fail> {
    let mut length: u64 = 0;
    for size in 0..187usize {
        let stop = stop_always(rt.alloc(), &ONE[..size]);
        assert_eq!(rt; stop, fault(length, CertKind::Short));
        let stop = stop_always(rt.alloc(), &TWO[..size]);
        assert_eq!(rt; stop, fault(length, CertKind::Short));
        length = length.wrapping_add(1);
    }
    for size in 187..191usize {
        let stop = stop_always(rt.alloc(), &TWO[..size]);
        assert_eq!(rt; stop, fault(length, CertKind::Short));
        length = length.wrapping_add(1);
    }
    Ok(())
}

/// The worked certificate in version 1 with another byte at a place.
fn one_with(at: usize, byte: u8) -> [u8; 187] {
    let mut bytes = ONE;
    if at < 187 {
        bytes[at] = byte;
    }
    bytes
}

/// The worked certificate in version 2 with another byte at a place.
fn two_with(at: usize, byte: u8) -> [u8; 191] {
    let mut bytes = TWO;
    if at < 191 {
        bytes[at] = byte;
    }
    bytes
}

/// The first row of the worked shift, where R_11 is one too great.
const FIRST_ROW: Row = Row {
    row: 0,
    diagonal: -200_000_000_000_001,
    others: 0,
};

/// The objective of the worked portfolio, which is told one too great.
const RAISED: CertKind = CertKind::Objective {
    found: EIGHTY,
    claimed: 800_000_000_000_000_001,
};

/// What alpha, 256 too great, shows is below the objective.
const LOWERED: CertKind = CertKind::Weak {
    found: 799_999_999_999_999_968,
    claimed: EIGHTY,
};

/// One split more than the budget.
const ABOVE: CertKind = CertKind::Nodes {
    inner: 1,
    budget: 0,
};

#[test]
fn names_the_fault_of_a_damaged_byte(rt: HostRuntime) {
    let rows: [(usize, u8, Option<Option<CertStop>>); 14] = [
        (7, 0x33, fault(7, CertKind::Magic)),
        (9, 0x01, fault(8, CertKind::Range)),
        (58, 0x01, fault(51, CertKind::Shift(FIRST_ROW))),
        (110, 0x02, fault(111, CertKind::Range)),
        (116, 0x01, fault(115, CertKind::Order)),
        (118, 0x03, fault(111, CertKind::Portfolio(Broken::Lots))),
        (134, 0x01, fault(119, RAISED)),
        (136, 0x01, fault(136, CertKind::Count)),
        (136, 0x04, fault(136, ABOVE)),
        (150, 0x11, fault(145, CertKind::Range)),
        (165, 0x01, fault(183, LOWERED)),
        // theta falls by 8, and its 64th part rounded up stays
        (166, 0x01, ACCEPTED),
        (182, 0x01, fault(167, CertKind::Range)),
        (186, 0x00, fault(183, CertKind::Range)),
    ];
    for (at, byte, due) in rows {
        let stop = stop_always(rt.alloc(), &one_with(at, byte));
        assert_eq!(rt; stop, due, "byte {at}");
    }
}

#[test]
fn names_the_fault_of_a_damaged_byte_of_version_2(rt: HostRuntime) {
    let range = CertKind::Range;
    let rows: [(usize, u8, Option<Option<CertStop>>); 25] = [
        (7, 0x33, fault(7, CertKind::Magic)),
        (9, 0x01, fault(8, range)),
        // one asset at least may be held
        (13, 0x01, ACCEPTED),
        (15, 0x01, fault(14, range)),
        (15, 0x03, fault(14, range)),
        (30, 0x09, fault(113, CertKind::Portfolio(Broken::Least(0)))),
        (
            32,
            0x07,
            fault(113, CertKind::Portfolio(Broken::Greatest(0))),
        ),
        (60, 0x01, fault(53, CertKind::Shift(FIRST_ROW))),
        (112, 0x02, fault(113, range)),
        (112, 0x05, fault(112, range)),
        (114, 0x01, fault(113, range)),
        (114, 0x03, fault(113, range)),
        (120, 0x01, fault(119, CertKind::Order)),
        (122, 0x03, fault(113, CertKind::Portfolio(Broken::Lots))),
        (138, 0x01, fault(123, RAISED)),
        (139, 0x02, fault(139, range)),
        (140, 0x01, fault(140, CertKind::Count)),
        (140, 0x04, fault(140, ABOVE)),
        // there is no leaf whose witness could be repeated
        (140, 0x06, fault(140, range)),
        (140, 0x07, fault(140, range)),
        (154, 0x11, fault(149, range)),
        (169, 0x01, fault(187, LOWERED)),
        (170, 0x01, ACCEPTED),
        (186, 0x01, fault(171, range)),
        (190, 0x00, fault(187, range)),
    ];
    for (at, byte, due) in rows {
        let stop = stop_always(rt.alloc(), &two_with(at, byte));
        assert_eq!(rt; stop, due, "byte {at}");
    }
}

#[test]
fn reads_the_version_that_the_mark_says(rt: HostRuntime) -> Result<(), Fail> {
    // read as version 2, the greatest number held is 0
    let other = one_with(7, 0x32);
    let range = fault(14, CertKind::Range);
    assert_eq!(rt; stop_always(rt.alloc(), &other), range);
    assert_eq!(rt; stop_always(rt.alloc(), &other[..16]), range);
    assert_eq!(rt;
        stop_always(rt.alloc(), &other[..15]),
        fault(15, CertKind::Short)
    );
    // read as version 1, the budget is 2 * 2^24
    let other = two_with(7, 0x31);
    assert_eq!(rt; stop_always(rt.alloc(), &other), fault(15, CertKind::Range));
    Ok(())
}

/// Bytes with one byte 0 behind them.
fn and_zero(alloc: Global, bytes: &[u8]) -> Result<Vec<u8>, OutOfMemory> {
    let mut longer = Vec::new(alloc);
    longer.extend_from_slice(bytes)?;
    longer.push(0)?;
    Ok(longer)
}

#[test]
fn takes_no_byte_behind_the_end(rt: HostRuntime) -> Result<(), Fail> {
    let alloc = rt.alloc();
    let trail = CertKind::Trail;
    let one = and_zero(alloc, &ONE)?;
    assert_eq!(rt; stop_always(alloc, one.as_slice()), fault(187, trail));
    let two = and_zero(alloc, &TWO)?;
    assert_eq!(rt; stop_always(alloc, two.as_slice()), fault(191, trail));
    Ok(())
}

/// The worked certificate in version 2 up to its section's weight, with this budget.
fn opened(alloc: Global, budget: u8) -> Result<Vec<u8>, OutOfMemory> {
    let mut out = Vec::new(alloc);
    out.extend_from_slice(&TWO[..20])?;
    out.push(budget)?;
    out.extend_from_slice(&TWO[21..112])?;
    Ok(out)
}

/// The whole of it with this tree, in three pieces.
fn with_tree(alloc: Global, budget: u8, tree: [&[u8]; 3]) -> Result<Vec<u8>, OutOfMemory> {
    let mut out = opened(alloc, budget)?;
    out.extend_from_slice(&TWO[112..140])?;
    for piece in tree {
        out.extend_from_slice(piece)?;
    }
    out.extend_from_slice(b"END\n")?;
    Ok(out)
}

#[test]
fn names_the_fault_of_a_tree(rt: HostRuntime) -> Result<(), Fail> {
    let alloc = rt.alloc();
    let leaf = &TWO[140..187];
    let again = b"\x06".as_slice();
    let count = b"\x01".as_slice();
    // is the first asset held, and: has it one lot or more
    let held = b"\x04\x00\x01".as_slice();
    let cut = b"\x05\x00\x01\x00\x01".as_slice();
    let second = CertKind::Nodes {
        inner: 2,
        budget: 1,
    };
    let rows = [
        (1u8, [held, leaf, again], ACCEPTED),
        (1, [held, count, leaf], ACCEPTED),
        (1, [held, leaf, leaf], fault(190, CertKind::Range)),
        (1, [held, again, leaf], fault(143, CertKind::Range)),
        (1, [held, count, count], fault(144, CertKind::Count)),
        (1, [cut, leaf, again], fault(140, CertKind::Split)),
        (1, [held, held, leaf], fault(143, second)),
        (2, [held, held, leaf], fault(143, CertKind::Split)),
        (2, [held, count, held], fault(144, CertKind::Split)),
    ];
    for (budget, tree, due) in rows {
        let bytes = with_tree(alloc, budget, tree)?;
        assert_eq!(rt; stop_always(alloc, bytes.as_slice()), due);
    }
    Ok(())
}

#[test]
fn names_the_fault_of_a_section_without_lists(rt: HostRuntime) -> Result<(), Fail> {
    let alloc = rt.alloc();
    // a void leaf, alpha and tau
    let mut void = [0u8; 33];
    void[0] = 2;
    let rows = [
        (b"\x01".as_slice(), fault(113, CertKind::Count)),
        (void.as_slice(), fault(113, CertKind::Void { found: 0 })),
        (b"\x03".as_slice(), fault(113, CertKind::Range)),
        (b"\x04\x00\x01".as_slice(), fault(113, ABOVE)),
        (b"\x06".as_slice(), fault(113, CertKind::Range)),
    ];
    for (tree, due) in rows {
        let mut bytes = opened(alloc, 0)?;
        bytes.push(2)?;
        bytes.extend_from_slice(tree)?;
        bytes.extend_from_slice(b"END\n")?;
        assert_eq!(rt; stop_always(alloc, bytes.as_slice()), due);
    }
    Ok(())
}

/// The worked certificate in version 2 with a turnover limit.
fn with_turnover(alloc: Global, most: u8) -> Result<Vec<u8>, OutOfMemory> {
    let mut out = Vec::new(alloc);
    out.extend_from_slice(&TWO[..16])?;
    out.extend_from_slice(&[1, 0, 0, 0, most])?;
    out.extend_from_slice(&TWO[17..])?;
    Ok(out)
}

#[test]
fn judges_the_turnover(rt: HostRuntime) -> Result<(), Fail> {
    let alloc = rt.alloc();
    let turnover = CertKind::Portfolio(Broken::Turnover);
    let bytes = with_turnover(alloc, 10)?;
    assert_eq!(rt; stop_always(alloc, bytes.as_slice()), ACCEPTED);
    let bytes = with_turnover(alloc, 9)?;
    assert_eq!(rt; stop_always(alloc, bytes.as_slice()), fault(117, turnover));
    Ok(())
}

/// Puts behind a head of one held asset an open section: ten lots of the first asset, this bound, and the worked leaf.
fn put_open(out: &mut Vec<u8>, bound: i128) -> Result<(), OutOfMemory> {
    let objective: i128 = 1_000_000_000_000_000_000;
    out.extend_from_slice(&objective.to_be_bytes())?;
    out.extend_from_slice(&bound.to_be_bytes())?;
    out.push(0)?;
    out.extend_from_slice(&ONE[136..])?;
    Ok(())
}

/// The certificate in version 1, where one asset is held.
fn open_one(alloc: Global, bound: i128) -> Result<Vec<u8>, OutOfMemory> {
    let mut out = Vec::new(alloc);
    out.extend_from_slice(&ONE[..13])?;
    out.push(1)?;
    out.extend_from_slice(&ONE[14..108])?;
    out.extend_from_slice(&[1, 1, 3, 0, 1, 0, 10])?;
    put_open(&mut out, bound)?;
    Ok(out)
}

/// The same in version 2.
fn open_two(alloc: Global, bound: i128) -> Result<Vec<u8>, OutOfMemory> {
    let mut out = Vec::new(alloc);
    out.extend_from_slice(&TWO[..13])?;
    out.extend_from_slice(&[1, 0, 1])?;
    out.extend_from_slice(&TWO[16..110])?;
    out.extend_from_slice(&[1, 1, 3, 0, 1, 0, 1, 0, 10])?;
    put_open(&mut out, bound)?;
    Ok(out)
}

#[test]
fn a_bound_above_what_is_shown_is_weak(rt: HostRuntime) -> Result<(), Fail> {
    let alloc = rt.alloc();
    let weak = CertKind::Weak {
        found: EIGHTY,
        claimed: EIGHTY + 1,
    };
    let one = open_one(alloc, EIGHTY)?;
    let two = open_two(alloc, EIGHTY)?;
    assert_eq!(rt; (one.len(), two.len()), (199, 203));
    assert!(rt; checked(alloc, one.as_slice(), 7).is_ok());
    assert!(rt; checked(alloc, two.as_slice(), 7).is_ok());
    let one = open_one(alloc, EIGHTY + 1)?;
    let two = open_two(alloc, EIGHTY + 1)?;
    assert_eq!(rt; stop_always(alloc, one.as_slice()), fault(195, weak));
    assert_eq!(rt; stop_always(alloc, two.as_slice()), fault(199, weak));
    Ok(())
}

#[test]
fn an_open_section_is_below_its_objective(rt: HostRuntime) -> Result<(), Fail> {
    let alloc = rt.alloc();
    let objective: i128 = 1_000_000_000_000_000_000;
    let reached = CertKind::NotOpen {
        objective,
        bound: objective,
    };
    let one = open_one(alloc, objective)?;
    let two = open_two(alloc, objective)?;
    assert_eq!(rt; stop_always(alloc, one.as_slice()), fault(131, reached));
    assert_eq!(rt; stop_always(alloc, two.as_slice()), fault(135, reached));
    Ok(())
}

#[test]
fn an_open_section_spends_its_budget(rt: HostRuntime) -> Result<(), Fail> {
    let alloc = rt.alloc();
    let fewer = CertKind::Nodes {
        inner: 0,
        budget: 1,
    };
    let mut two = open_two(alloc, EIGHTY)?;
    if let Some(byte) = two.get_mut(20) {
        *byte = 1;
    }
    assert_eq!(rt; stop_always(alloc, two.as_slice()), fault(199, fewer));
    Ok(())
}

/// Puts a head of 10000 lots and 1000 splits, and a section of 1000 splits that has no portfolio and is told nothing of.
fn put_chain_opening(out: &mut Vec<u8>) -> Result<(), OutOfMemory> {
    let bound: i128 = -1_000_000_000_000_000_000_000_000_000_000_000_000;
    out.extend_from_slice(&TWO[..10])?;
    out.extend_from_slice(&[0x27, 0x10])?;
    out.extend_from_slice(&TWO[12..17])?;
    out.extend_from_slice(&[0, 0, 3, 0xe8])?;
    out.extend_from_slice(&TWO[21..31])?;
    out.extend_from_slice(&[0x27, 0x10])?;
    out.extend_from_slice(&TWO[33..45])?;
    out.extend_from_slice(&[0x27, 0x10])?;
    out.extend_from_slice(&TWO[47..110])?;
    out.extend_from_slice(&[1, 1, 4])?;
    out.extend_from_slice(&bound.to_be_bytes())?;
    out.push(0)?;
    // the first asset isn't held, or it is
    out.extend_from_slice(&[4, 0, 1])?;
    out.extend_from_slice(&TWO[140..187])?;
    Ok(())
}

/// Puts a cut of the first asset's lots.
fn put_cut(out: &mut Vec<u8>, at: u16) -> Result<(), OutOfMemory> {
    out.extend_from_slice(&[5, 0, 1])?;
    out.extend_from_slice(&at.to_be_bytes())?;
    Ok(())
}

/// A certificate whose tree is a chain of 1000 splits, each of the child above the cut before.
fn chain_above(alloc: Global) -> Result<Vec<u8>, OutOfMemory> {
    let mut out = Vec::new(alloc);
    put_chain_opening(&mut out)?;
    for at in 1..1000u16 {
        put_cut(&mut out, at)?;
        out.push(6)?;
    }
    out.push(6)?;
    out.extend_from_slice(b"END\n")?;
    Ok(out)
}

/// The same where each split is of the child up to the cut before.
fn chain_below(alloc: Global) -> Result<Vec<u8>, OutOfMemory> {
    let mut out = Vec::new(alloc);
    put_chain_opening(&mut out)?;
    for k in 1..1000u16 {
        put_cut(&mut out, 1000 - k)?;
    }
    for _ in 0..1000u16 {
        out.push(6)?;
    }
    out.extend_from_slice(b"END\n")?;
    Ok(out)
}

#[test]
fn accepts_a_chain_of_a_thousand_splits(rt: HostRuntime) -> Result<(), Fail> {
    let alloc = rt.alloc();
    let above = chain_above(alloc)?;
    assert_eq!(rt; checked(alloc, above.as_slice(), 7).err(), None);
    let below = chain_below(alloc)?;
    assert_eq!(rt; checked(alloc, below.as_slice(), 7).err(), None);
    Ok(())
}
