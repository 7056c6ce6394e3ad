//! The first difference of a certificate and a job, with its line.

ghost use Rattle.std.specs.Prelude.{◌≡◌, ◌≤◌, IfOk, unsigned_abs};
ghost use Rattle.gap_instance.specs.Instances.{AreLimits};

use gap_base::{Job, Market, OutOfMemory, Weight, Weights};
use gap_instance::Instance;
use gap_model::{Outcome, Told};
use gap_samples::two;
use gap_verify::{Difference, Field, Said, first_difference};
use std::alloc::Global;
use std::test::Fail;

/// Ten lots in `fewest` to two assets, of the second no more than `most`, and one weight.
#[tactic(auto, using(gap_instance::proofs::LimitLaws::few_numbers))]
fn job(fewest: u16, most: u16, nodes: u32, weight: Weight) -> Job
    requires few { 1 ≤ fewest }
    requires many { fewest ≤ 2 }
    requires least { 1 ≤ most }
    requires greatest { most ≤ 10 }
    ensures { AreLimits 2 result.lots result.held result.held_most result.least result.greatest result.present
        result.turnover }
{
    let mut weights = Weights::new();
    weights.push(weight);
    Job {
        lots: 10,
        held: fewest,
        held_most: 2,
        least: two(1, 1),
        greatest: two(10, most),
        present: two(0, 0),
        turnover: None,
        weights,
        nodes,
        workers: 1,
    }
}

/// Two assets with this correlation.
fn market(alloc: Global, rho: i32) -> Result<Market, OutOfMemory>
    requires { unsigned_abs rho ≤ 1000000 }
    ensures { IfOk result (λ m. m.assets ≡ 2) }
{
    let mut market = Market::new(alloc, 2)?;
    market.set_rho(0, 1, rho);
    Ok(market)
}

/// The line of the first difference between a certificate of ten lots in two assets with the correlation 5, a budget of 7
/// and the weight 1/2, and another market and job.
fn line(alloc: Global, rho: i32, job: &Job) -> Result<String, OutOfMemory>
    requires small { unsigned_abs rho ≤ 1000000 }
    requires limits { AreLimits 2 job.now.lots job.now.held job.now.held_most job.now.least job.now.greatest
        job.now.present job.now.turnover }
{
    let found = Instance::new(alloc, market(alloc, 5)?, &self::job(2, 10, 7, HALF))?;
    let told = [Told {
        weight: HALF,
        outcome: Outcome::NoPortfolio,
    }];
    match first_difference(&found, 7, &told, &market(alloc, rho)?, job) {
        Some(difference) => difference.line(alloc),
        None => Ok(String::from_str(alloc, "none")?),
    }
}

const HALF: Weight = Weight { p: 1, q: 2 };

const WHOLE: Weight = Weight { p: 2, q: 2 };

#[test]
fn tells_the_first_difference(rt: HostRuntime) -> Result<(), Fail> {
    let alloc = rt.alloc();
    assert_eq!(rt; line(alloc, 5, &job(2, 10, 7, HALF))?.as_str(), "none");
    assert_eq!(rt;
        line(alloc, 6, &job(2, 9, 7, WHOLE))?.as_str(),
        "differs greatest 2 10 9\n"
    );
    assert_eq!(rt;
        line(alloc, 6, &job(1, 9, 8, HALF))?.as_str(),
        "differs held 2 1-2\n"
    );
    assert_eq!(rt;
        line(alloc, 6, &job(2, 9, 8, HALF))?.as_str(),
        "differs nodes 7 8\n"
    );
    assert_eq!(rt;
        line(alloc, -6, &job(2, 10, 7, WHOLE))?.as_str(),
        "differs correlation 1 2 5 -6\n"
    );
    assert_eq!(rt;
        line(alloc, 5, &job(2, 10, 7, WHOLE))?.as_str(),
        "differs weight 1 1/2 2/2\n"
    );
    Ok(())
}

#[test]
fn counts_the_weights(rt: HostRuntime) -> Result<(), Fail> {
    let alloc = rt.alloc();
    let asked = job(2, 10, 7, HALF);
    let found = Instance::new(alloc, market(alloc, 5)?, &asked)?;
    let first = first_difference(&found, 7, &[], &market(alloc, 5)?, &asked);
    let wanted = Difference {
        field: Field::Weights,
        found: Said::Number(0),
        wanted: Said::Number(1),
    };
    assert_eq!(rt; first, Some(wanted));
    assert_eq!(rt; wanted.line(alloc)?.as_str(), "differs weights 0 1\n");
    Ok(())
}

#[test]
fn prints_a_limit_that_is_absent(rt: HostRuntime) -> Result<(), Fail> {
    let difference = Difference {
        field: Field::Turnover,
        found: Said::Limit(None),
        wanted: Said::Limit(Some(3)),
    };
    assert_eq!(rt;
        difference.line(rt.alloc())?.as_str(),
        "differs turnover - 3\n"
    );
    Ok(())
}
