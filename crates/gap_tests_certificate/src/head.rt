//! A market said anew.

use gap_base::Market;
use gap_valid::said_anew;
use std::test::Fail;

#[test]
fn says_a_market_anew(rt: HostRuntime) -> Result<(), Fail> {
    let mut market = Market::new(rt.alloc(), 3)?;
    market.set_mean(1, -20);
    market.set_dev(2, 300);
    market.set_rho(2, 0, 4000);
    market.add_rounded();
    let said = said_anew(rt.alloc(), &market)?;
    assert_eq!(rt; said.n(), 3);
    assert_eq!(rt; said.mean(1), -20);
    assert_eq!(rt; said.dev(2), 300);
    assert_eq!(rt; said.rho(0, 2), 4000);
    assert_eq!(rt; said.rho(1, 2), 0);
    assert_eq!(rt; said.rounded(), 0);
    Ok(())
}
