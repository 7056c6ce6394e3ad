//! Worked rows of `dominant` and `form`.

ghost use Rattle.std.specs.Prelude.{◌≤◌, unsigned_abs};

use gap_base::{OutOfMemory, Row};
use gap_psd::{Shift, dominant, form};
use gap_samples::{even, placed};
use std::alloc::Global;
use std::test::Fail;

/// What a shift with `d` for each of three opposed assets is: its first row that isn't dominant, its form at one lot each,
/// and its total.
fn of_diagonal(alloc: Global, d: u64) -> Result<(Option<Row>, i128, i128), OutOfMemory>
    requires { d ≤ 1000000000000000000 }
{
    let inst = placed(alloc, even(alloc, 3, 100_000, -1_000_000)?)?;
    let mut shift = Shift::zero(alloc, 3)?;
    shift.set_d(0, i128::from(d));
    shift.set_d(1, i128::from(d));
    shift.set_d(2, i128::from(d));
    let row = dominant(&inst, &shift);
    Ok((row, form(&inst, &shift, &[1, 1, 1]), shift.total()))
}

#[test]
fn first_row_of_three_opposed_assets(rt: HostRuntime) -> Result<(), Fail> {
    let first = Row {
        row: 0,
        diagonal: 10_000_000_000_000_000_000_000_000_000,
        others: 20_000_000_000_000_000_000_000_000_000,
    };
    assert_eq!(rt;
        of_diagonal(rt.alloc(), 0)?,
        (Some(first), -30_000_000_000_000_000, 0)
    );
    assert_eq!(rt;
        of_diagonal(rt.alloc(), 10_000_000_000_000_000)?,
        (None, 0, 30_000_000_000_000_000)
    );
    Ok(())
}

/// The same of a shift whose factor has this first column for three assets that move as one: its row, its form at 80000,
/// -80000 and 0 lots, and the last number of the column.
fn of_column(alloc: Global, a: i64, b: i64, c: i64) -> Result<(Option<Row>, i128, i64), OutOfMemory>
    requires first { unsigned_abs a ≤ 1000000000000000 }
    requires second { unsigned_abs b ≤ 1000000000000000 }
    requires third { unsigned_abs c ≤ 1000000000000000 }
{
    let inst = placed(alloc, even(alloc, 3, 100_000, 1_000_000)?)?;
    let mut shift = Shift::zero(alloc, 3)?;
    shift.set_r(0, 0, a);
    shift.set_r(1, 0, b);
    shift.set_r(2, 0, c);
    let row = dominant(&inst, &shift);
    Ok((
        row,
        form(&inst, &shift, &[80_000, -80_000, 0]),
        shift.r(2, 0),
    ))
}

#[test]
fn a_factor_serves_without_a_diagonal(rt: HostRuntime) -> Result<(), Fail> {
    let one = 100_000_000_000_000;
    assert_eq!(rt; of_column(rt.alloc(), one, one, one)?, (None, 0, one));
    let second = Row {
        row: 0,
        diagonal: 0,
        others: 100_000_000_000_000,
    };
    assert_eq!(rt;
        of_column(rt.alloc(), one, one + 1, one)?,
        (Some(second), 0, one)
    );
    Ok(())
}
