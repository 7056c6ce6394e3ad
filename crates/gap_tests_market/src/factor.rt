//! Worked rows of `factor`.

use gap_base::{Market, OutOfMemory};
use gap_factor::factor;
use gap_psd::Shift;
use gap_samples::{even, placed};
use std::alloc::Global;
use std::test::Fail;

/// The shift of a market whose lots may be held in any way.
fn factored(alloc: Global, market: Market) -> Result<Shift, OutOfMemory> {
    factor(alloc, &placed(alloc, market)?)
}

/// R at a place, and -1 where it has none.
fn r_at(shift: &Shift, i: u16, j: u16) -> i64 {
    if i < shift.n() && j <= i {
        shift.r(i, j)
    } else {
        -1
    }
}

/// D of an asset, and -1 where there is none.
fn d_at(shift: &Shift, i: u16) -> i128 {
    if i < shift.n() { shift.d(i) } else { -1 }
}

#[test]
fn two_assets_apart_need_no_diagonal(rt: HostRuntime) -> Result<(), Fail> {
    let mut market = even(rt.alloc(), 2, 100_000, 0)?;
    market.set_dev(1, 200_000);
    let shift = factored(rt.alloc(), market)?;
    assert_eq!(rt;
        (shift.total(), r_at(&shift, 0, 0)),
        (0, 100_000_000_000_000)
    );
    assert_eq!(rt;
        (r_at(&shift, 1, 0), r_at(&shift, 1, 1)),
        (0, 200_000_000_000_000)
    );
    Ok(())
}

#[test]
fn no_factor_where_it_needs_more(rt: HostRuntime) -> Result<(), Fail> {
    let shift = factored(rt.alloc(), even(rt.alloc(), 3, 100_000, -1_000_000)?)?;
    assert_eq!(rt;
        (shift.total(), d_at(&shift, 1)),
        (30_000_000_000_000_000, 10_000_000_000_000_000)
    );
    assert_eq!(rt; r_at(&shift, 0, 0), 0);
    Ok(())
}

#[test]
fn one_leading_asset_leaves_nothing(rt: HostRuntime) -> Result<(), Fail> {
    let mut market = even(rt.alloc(), 5, 100_000, 360_000)?;
    market.set_rho(1, 0, 600_000);
    market.set_rho(2, 0, 600_000);
    market.set_rho(3, 0, 600_000);
    market.set_rho(4, 0, 600_000);
    let shift = factored(rt.alloc(), market)?;
    assert_eq!(rt; shift.total(), 0);
    assert_eq!(rt;
        (r_at(&shift, 4, 0), r_at(&shift, 4, 4)),
        (60_000_000_000_000, 80_000_000_000_000)
    );
    Ok(())
}

#[test]
fn columns_vanish_without_risk_of_their_own(rt: HostRuntime) -> Result<(), Fail> {
    let mut market = even(rt.alloc(), 3, 100_000, 1_000_000)?;
    market.set_dev(0, 0);
    let shift = factored(rt.alloc(), market)?;
    assert_eq!(rt; (shift.total(), r_at(&shift, 0, 0)), (0, 0));
    assert_eq!(rt;
        (r_at(&shift, 1, 1), r_at(&shift, 2, 1)),
        (100_000_000_000_000, 100_000_000_000_000)
    );
    assert_eq!(rt; r_at(&shift, 2, 2), 0);
    Ok(())
}

#[test]
fn the_greatest_values(rt: HostRuntime) -> Result<(), Fail> {
    let same = factored(rt.alloc(), even(rt.alloc(), 256, 1_000_000, 1_000_000)?)?;
    assert_eq!(rt;
        (same.total(), r_at(&same, 255, 0)),
        (0, 1_000_000_000_000_000)
    );
    let opposed = factored(rt.alloc(), even(rt.alloc(), 256, 1_000_000, -1_000_000)?)?;
    assert_eq!(rt; opposed.total(), 65_024_000_000_000_000_000_000);
    assert_eq!(rt; d_at(&opposed, 255), 254_000_000_000_000_000_000);
    Ok(())
}
