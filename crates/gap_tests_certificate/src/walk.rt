//! A chain of a thousand splits, whose parts are known beforehand.

ghost use Rattle.std.specs.Prelude.{◌≡◌};

use gap_base::{Lots, OutOfMemory};
use gap_box::{Cell, Part, Split};
use gap_judge::Walk;
use std::test::Fail;

/// Splits the next node, where that is lawful.
fn split_next(walk: &mut Walk, split: Split) -> Result<bool, OutOfMemory> {
    let lawful = match walk.part() {
        Some(part) => part.lawful(split),
        None => false,
    };
    if lawful {
        walk.split(split)?;
    }
    Ok(lawful)
}

/// Goes past a leaf, where there is one.
fn leave(walk: &mut Walk) -> bool {
    let there = walk.part().is_some();
    if there {
        walk.leaf();
    }
    there
}

/// The cell of the first asset in the next node's part.
fn first_cell(walk: &Walk) -> Option<Cell> {
    match walk.part() {
        Some(part) => {
            let _count = part.len();
            Some(part.cell(0))
        }
        None => None,
    }
}

#[test]
fn walks_a_chain_of_a_thousand_splits(rt: HostRuntime) -> Result<(), Fail> {
    let root = Part::root(&Lots::filled(2, 1), &Lots::filled(2, 10000));
    let mut walk = Walk::new(rt.alloc(), root);
    assert!(rt; !split_next(&mut walk, Split::Lots(0, 5))?);
    assert!(rt; split_next(&mut walk, Split::Held(0))?);
    assert!(rt; first_cell(&walk) == Some(Cell::Out));
    assert!(rt; leave(&mut walk));
    for t in 1..1001u16 {
        assert!(rt; split_next(&mut walk, Split::Lots(0, t))?);
        assert!(rt; first_cell(&walk) == Some(Cell::Held { l: t, u: t }));
        assert!(rt; leave(&mut walk));
        let rest = Cell::Held { l: t + 1, u: 10000 };
        assert!(rt; first_cell(&walk) == Some(rest));
    }
    assert!(rt; leave(&mut walk));
    assert!(rt; walk.part().is_none());
    assert!(rt; !leave(&mut walk));
    Ok(())
}

#[test]
fn comes_back_to_cells_above(rt: HostRuntime) -> Result<(), Fail> {
    let root = Part::root(&Lots::filled(2, 1), &Lots::filled(2, 9));
    let mut walk = Walk::new(rt.alloc(), root);
    assert!(rt; split_next(&mut walk, Split::Held(1))?);
    assert!(rt; split_next(&mut walk, Split::Held(0))?);
    assert!(rt; leave(&mut walk));
    assert!(rt; leave(&mut walk));
    assert!(rt; first_cell(&walk) == Some(Cell::Free { l: 1, u: 9 }));
    assert!(rt; leave(&mut walk));
    assert!(rt; walk.part().is_none());
    Ok(())
}
