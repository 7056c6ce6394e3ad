//! The first field in which a certificate and a market with a job differ.

ghost use Rattle.std.specs.Prelude.{◌≡◌, ◌<◌, ◌+◌, suc, length, IfNone};
ghost use Rattle.gap_instance.specs.Instances.{AreLimits};
ghost use Rattle.gap_verify.specs.Differences.{compared, difference_at, first_in, difference_of};
ghost use Rattle.gap_verify.specs.Sides.{side_of_certificate, side_of_job, first_fields, asset_fields, row_fields, groups_below, weight_fields};

use crate::difference::{Difference, compared};
use crate::field::Field;
use crate::said::Said;
use gap_base::{Job, Market};
use gap_instance::Instance;
use gap_model::Told;

/// Two numbers said of a field.
fn numbers(field: Field, found: u32, wanted: u32) -> Option<Difference>
    ensures { result ≡ compared field (Said.Number found) (Said.Number wanted) }
{
    compared(
        field,
        Said::Number(u64::from(found)),
        Said::Number(u64::from(wanted)),
    )
}

/// Two small numbers said of a field.
fn small_numbers(field: Field, found: u16, wanted: u16) -> Option<Difference>
    ensures { result ≡ compared field (Said.Number found) (Said.Number wanted) }
{
    numbers(field, u32::from(found), u32::from(wanted))
}

/// What is compared: what a certificate says, and what a market and a job say.
#[derive(Drop)]
struct Sides<'a> {
    found: &'a Instance,
    nodes: u32,
    told: &'a [Told],
    market: &'a Market,
    job: &'a Job,
    ghost least: { length job.now.least ≡ market.now.assets },
    ghost greatest: { length job.now.greatest ≡ market.now.assets },
    ghost present: { length job.now.present ≡ market.now.assets },
}

impl Sides<'_> {
    /// The fields that say neither an asset nor a weight.
    fn first(&self) -> Option<Difference>
        ensures { result ≡ first_in
            (side_of_certificate self.now.found.now self.now.nodes self.now.told.now)
            (side_of_job self.now.market.now self.now.job.now)
            first_fields }
    {
        let job = self.job;
        let assets = small_numbers(Field::Assets, self.found.n(), self.market.n());
        let lots = small_numbers(Field::Lots, self.found.lots(), job.lots);
        let held = compared(
            Field::Held,
            Said::Range(self.found.held(), self.found.held_most()),
            Said::Range(job.held, job.held_most),
        );
        let turnover = compared(
            Field::Turnover,
            Said::Limit(self.found.turnover()),
            Said::Limit(job.turnover),
        );
        let nodes = numbers(Field::Nodes, self.nodes, job.nodes);
        assets.or(lots.or(held.or(turnover.or(nodes))))
    }

    /// The fields of asset `i`.
    fn asset(&self, i: u16) -> Option<Difference>
        requires same { self.now.found.now.market.assets ≡ self.now.market.now.assets }
        requires asset_in { i < self.now.market.now.assets }
        ensures { result ≡ first_in
            (side_of_certificate self.now.found.now self.now.nodes self.now.told.now)
            (side_of_job self.now.market.now self.now.job.now)
            (asset_fields i) }
    {
        let mean = compared(
            Field::Mean(i),
            Said::Signed(self.found.mean(i)),
            Said::Signed(self.market.mean(i)),
        );
        let deviation = numbers(Field::Deviation(i), self.found.dev(i), self.market.dev(i));
        let least = small_numbers(Field::Least(i), self.found.lo(i), self.job.least.get(i));
        let greatest = small_numbers(
            Field::Greatest(i),
            self.found.hi(i),
            self.job.greatest.get(i),
        );
        let present = small_numbers(
            Field::Present(i),
            self.found.present(i),
            self.job.present.get(i),
        );
        mean.or(deviation.or(least.or(greatest.or(present))))
    }

    /// The fields of all assets.
    fn assets(&self) -> Option<Difference>
        requires same { self.now.found.now.market.assets ≡ self.now.market.now.assets }
        ensures { result ≡ first_in
            (side_of_certificate self.now.found.now self.now.nodes self.now.told.now)
            (side_of_job self.now.market.now self.now.job.now)
            (groups_below asset_fields self.now.market.now.assets) }
    {
        for i in 0..self.market.n() {
            match self.asset(i) {
                Some(difference) => return Some(difference),
                None => {}
            }
        }
        None
    }

    /// The field of the pair of assets `i` and `j`.
    fn pair(&self, i: u16, j: u16) -> Option<Difference>
        requires same { self.now.found.now.market.assets ≡ self.now.market.now.assets }
        requires first_in { i < self.now.market.now.assets }
        requires second_in { j < self.now.market.now.assets }
        ensures { result ≡ difference_at
            (side_of_certificate self.now.found.now self.now.nodes self.now.told.now)
            (side_of_job self.now.market.now self.now.job.now)
            (Field.Correlation i j) }
    {
        compared(
            Field::Correlation(i, j),
            Said::Signed(self.found.rho(i, j)),
            Said::Signed(self.market.rho(i, j)),
        )
    }

    /// The fields of the pairs of asset `i` with each asset behind it.
    fn row(&self, i: u16) -> Option<Difference>
        requires same { self.now.found.now.market.assets ≡ self.now.market.now.assets }
        requires asset_in { i < self.now.market.now.assets }
        ensures { result ≡ first_in
            (side_of_certificate self.now.found.now self.now.nodes self.now.told.now)
            (side_of_job self.now.market.now self.now.job.now)
            (row_fields self.now.market.now.assets i) }
    {
        let n = self.market.n();
        for j in i + 1..n {
            match self.pair(i, j) {
                Some(difference) => return Some(difference),
                None => {}
            }
        }
        None
    }

    /// The fields of all pairs.
    fn pairs(&self) -> Option<Difference>
        requires same { self.now.found.now.market.assets ≡ self.now.market.now.assets }
        ensures { result ≡ first_in
            (side_of_certificate self.now.found.now self.now.nodes self.now.told.now)
            (side_of_job self.now.market.now self.now.job.now)
            (groups_below (row_fields self.now.market.now.assets) self.now.market.now.assets) }
    {
        for i in 0..self.market.n() {
            match self.row(i) {
                Some(difference) => return Some(difference),
                None => {}
            }
        }
        None
    }

    /// How many weights there are.
    fn count(&self) -> Option<Difference>
        ensures { result ≡ difference_at
            (side_of_certificate self.now.found.now self.now.nodes self.now.told.now)
            (side_of_job self.now.market.now self.now.job.now)
            Field.Weights }
    {
        compared(
            Field::Weights,
            Said::Number(self.told.len() as u64),
            Said::Number(u64::from(self.job.weights.len())),
        )
    }

    /// The field of the weight at place `k`.
    fn weight(&self, k: u8) -> Option<Difference>
        requires told_in { k < length self.now.told.now }
        requires weight_in { k < length self.now.job.now.weights }
        ensures { result ≡ difference_at
            (side_of_certificate self.now.found.now self.now.nodes self.now.told.now)
            (side_of_job self.now.market.now self.now.job.now)
            (Field.Weight k) }
    {
        compared(
            Field::Weight(k),
            Said::Fraction(self.told[usize::from(k)].weight),
            Said::Fraction(self.job.weights.get(k)),
        )
    }

    /// The fields of all weights.
    fn weights(&self) -> Option<Difference>
        requires { length self.now.told.now ≡ length self.now.job.now.weights }
        ensures { result ≡ first_in
            (side_of_certificate self.now.found.now self.now.nodes self.now.told.now)
            (side_of_job self.now.market.now self.now.job.now)
            (groups_below weight_fields (length self.now.job.now.weights)) }
    {
        for k in 0..self.job.weights.len() {
            match self.weight(k) {
                Some(difference) => return Some(difference),
                None => {}
            }
        }
        None
    }

    /// All fields in their order.
    fn all(&self) -> Option<Difference>
        ensures { result ≡ difference_of
            (side_of_certificate self.now.found.now self.now.nodes self.now.told.now)
            (side_of_job self.now.market.now self.now.job.now) }
    {
        match self.first() {
            Some(difference) => return Some(difference),
            None => {}
        }
        match self.assets() {
            Some(difference) => return Some(difference),
            None => {}
        }
        match self.pairs() {
            Some(difference) => return Some(difference),
            None => {}
        }
        match self.count() {
            Some(difference) => return Some(difference),
            None => {}
        }
        self.weights()
    }
}

/// The first field in which a certificate, by its instance, its budget and what it tells of each weight, differs from a
/// market and a job for it; `None` where they agree in all fields. In order: the number of assets, the lots, the held
/// range, the turnover, the budget; of each asset its mean, deviation, least, greatest and present lots; the correlations
/// of the pairs i < j by i and then j; the number of weights, and each weight. How many numerals were rounded and the
/// number of workers are not compared. Costs O(N * N + weights); takes no memory.
pub fn first_difference(
    found: &Instance,
    nodes: u32,
    told: &[Told],
    market: &Market,
    job: &Job,
) -> Option<Difference>
    requires { AreLimits market.now.assets job.now.lots job.now.held job.now.held_most job.now.least job.now.greatest
        job.now.present job.now.turnover }
    ensures { result ≡ difference_of (side_of_certificate found.now nodes told.now) (side_of_job market.now job.now) }
{
    let sides = Sides {
        found,
        nodes,
        told,
        market,
        job,
    };
    sides.all()
}
