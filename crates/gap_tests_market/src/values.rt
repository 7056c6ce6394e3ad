//! A market keeps what is set; the text of a fraction; the 64th part.

use gap_base::{Market, ceil_div64, put_fraction, put_i128};
use std::test::Fail;

/// What a market of three assets says of those that are set, and none of another one: a mean, a deviation, the correlations
/// of two pairs and of an asset with itself, and how many numbers were rounded.
fn said(market: &Market) -> Option<(i32, u32, [i32; 3], u32)> {
    if market.n() != 3 {
        return None;
    }
    let pairs = [market.rho(2, 0), market.rho(1, 2), market.rho(1, 1)];
    Some((market.mean(2), market.dev(1), pairs, market.rounded()))
}

#[test]
fn keeps_what_is_set(rt: HostRuntime) -> Result<(), Fail> {
    let mut market = Market::new(rt.alloc(), 3)?;
    market.set_mean(2, -5);
    market.set_dev(1, 7);
    market.set_rho(0, 2, -1_000_000);
    market.add_rounded();
    let due = (-5, 7, [-1_000_000, 0, 1_000_000], 1);
    assert_eq!(rt; said(&market), Some(due));
    Ok(())
}

#[test]
fn appends_a_fraction(rt: HostRuntime) -> Result<(), Fail> {
    let mut out = Vec::new(rt.alloc());
    put_i128(&mut out, -17)?;
    put_fraction(&mut out, 0, 4_000_000_000_000_000_000_000)?;
    assert_eq!(rt; out.as_slice(), b"-170/4000000000000000000000".as_slice());
    Ok(())
}

#[test]
fn rounds_up(rt: HostRuntime) -> Result<(), Fail> {
    for (number, due) in [(128, 2), (129, 3), (-1, 0), (-65, -1)] {
        assert_eq!(rt; ceil_div64(number), due, "{number}");
    }
    Ok(())
}
