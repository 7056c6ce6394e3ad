use gap_base::Market;
use gap_gen::demo_market;
use std::test::Fail;

/// The mean and the deviation of each of three assets, and none where there are more or fewer.
fn assets(market: &Market) -> Option<[(i32, u32); 3]> {
    if market.n() != 3 {
        return None;
    }
    Some([
        (market.mean(0), market.dev(0)),
        (market.mean(1), market.dev(1)),
        (market.mean(2), market.dev(2)),
    ])
}

/// The correlations of the first asset with the second and the third, of these two, and of the second with itself, and none
/// where there are more than three assets or fewer.
fn pairs(market: &Market) -> Option<[i32; 4]> {
    if market.n() != 3 {
        return None;
    }
    Some([
        market.rho(0, 1),
        market.rho(2, 0),
        market.rho(1, 2),
        market.rho(1, 1),
    ])
}

// The market of three assets for the number 7, computed apart by a program in Python after PCG's reference code.
#[test]
fn draws_a_market(rt: HostRuntime) -> Result<(), Fail> {
    let market = demo_market(rt.alloc(), 7, 3)?;
    assert_eq!(rt; market.rounded(), 0);
    let alone = [(404, 74_560), (2_921, 63_289), (401, 40_754)];
    assert_eq!(rt; assets(&market), Some(alone));
    assert_eq!(rt;
        pairs(&market),
        Some([293_964, 315_972, 338_283, 1_000_000])
    );
    Ok(())
}
