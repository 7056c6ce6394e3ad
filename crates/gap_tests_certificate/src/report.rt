use gap_base::{Lots, Weight};
use gap_model::{Best, FrontRow, Outcome, Told};
use gap_report::{front_line, lots_line, market_line, verdict_line, weight_line};
use std::test::Fail;

// What is told of the weight 1/2.
fn told(outcome: Outcome) -> Told {
    Told {
        weight: Weight { p: 1, q: 2 },
        outcome,
    }
}

// A portfolio of three assets, 4 lots of the first and 6 of the last, with this objective.
fn best(value: i128) -> Best {
    let mut lots = Lots::zeros(3);
    lots.set(0, 4);
    lots.set(2, 6);
    Best { lots, value }
}

#[test]
fn writes_the_market_and_the_lots(rt: HostRuntime) -> Result<(), Fail> {
    let mut out = Vec::new(rt.alloc());
    market_line(&mut out, 3, 0, 30_000_000_000_000_000)?;
    lots_line(&mut out, &best(0).lots)?;
    let wanted = b"assets 3 rounded 0 shift 30000000000000000\nlots 1:4 3:6\n";
    assert_eq!(rt; out.as_slice(), wanted.as_slice());
    Ok(())
}

#[test]
fn writes_each_outcome(rt: HostRuntime) -> Result<(), Fail> {
    let mut out = Vec::new(rt.alloc());
    weight_line(&mut out, 10, &told(Outcome::Closed(best(-7))), 3)?;
    weight_line(&mut out, 10, &told(Outcome::NoPortfolio), 0)?;
    let found = Outcome::Bounded {
        best: Some(best(8)),
        bound: -9,
    };
    weight_line(&mut out, 10, &told(found), 1)?;
    let none = Outcome::Bounded {
        best: None,
        bound: 5,
    };
    weight_line(&mut out, 10, &told(none), 100_000)?;
    let wanted =
        b"weight 1/2 closed nodes 3 objective -7/200000000000000000000 bound -7/200000000000000000000\n\
        weight 1/2 none nodes 0\n\
        weight 1/2 open nodes 1 objective 8/200000000000000000000 bound -9/200000000000000000000\n\
        weight 1/2 open nodes 100000 objective - bound 5/200000000000000000000\n";
    assert_eq!(rt; out.as_slice(), wanted.as_slice());
    Ok(())
}

#[test]
fn writes_verdicts(rt: HostRuntime) -> Result<(), Fail> {
    let mut out = Vec::new(rt.alloc());
    verdict_line(&mut out, 1, &told(Outcome::Closed(best(-7))))?;
    verdict_line(&mut out, 1, &told(Outcome::NoPortfolio))?;
    let wanted =
        b"weight 1/2 closed objective -7/2000000000000000000 bound -7/2000000000000000000\nweight 1/2 none\n";
    assert_eq!(rt; out.as_slice(), wanted.as_slice());
    Ok(())
}

#[test]
fn writes_rows_of_the_frontier(rt: HostRuntime) -> Result<(), Fail> {
    let mut out = Vec::new(rt.alloc());
    let row = FrontRow {
        weight: Weight { p: 1, q: 2 },
        risk: 700,
        ret: -40,
    };
    front_line(&mut out, 10, 1, &row, true)?;
    front_line(&mut out, 1, 101, &row, false)?;
    let wanted = b"row 1 weight 1/2 risk 700/100000000000000000000 return -40/10000000 efficient\n\
        row 101 weight 1/2 risk 700/1000000000000000000 return -40/1000000 dominated\n";
    assert_eq!(rt; out.as_slice(), wanted.as_slice());
    Ok(())
}
