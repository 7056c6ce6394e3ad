//! A market with the limits of a job.

ghost use Rattle.std.specs.Prelude.{◌≡◌, ℕ, ◌+◌, ◌*◌, ◌<◌, ◌≤◌, IfOk, IfSome, unsigned_abs, slice_index_or};
ghost use Rattle.gap_base.specs.Markets.{mean_of, deviation_of, rho_of};
ghost use Rattle.gap_instance.specs.Objective.{cov_of};
ghost use Rattle.gap_instance.specs.Instances.{InstanceValue, IsInstance, AreLimits, instance_of};

use crate::covariances::table_of;
use gap_base::{Job, Lots, Market, OutOfMemory};
use std::alloc::Global;
use std::marker::Model;

/// A market with the limits of a job. Places of assets count from 0.
///
/// Contracts see an instance as the record `InstanceValue`. It keeps the N * N covariances, so each reader costs O(1)
/// and takes no memory.
#[derive(Drop)]
pub struct Instance {
    market: Market,
    lots: u16,
    held: u16,
    held_most: u16,
    least: Lots,
    greatest: Lots,
    present: Lots,
    turnover: Option<u32>,
    covariances: Vec<i64>,
}

impl Model for Instance {
    ghost use Rattle.std.specs.Prelude.{◌≡◌};
    ghost use Rattle.gap_instance.specs.Instances.{InstanceValue};

    ghost Value = { InstanceValue };

    ghost view = { λ a. record {
      market = a.market;
      lots = a.lots;
      held = a.held;
      held_most = a.held_most;
      least = a.least;
      greatest = a.greatest;
      present = a.present;
      turnover = a.turnover;
    } };

    ghost use Rattle.gap_instance.specs.Tables.{IsKept};

    ghost invariant = { λ a. IsKept (record {
      market = a.market;
      lots = a.lots;
      held = a.held;
      held_most = a.held_most;
      least = a.least;
      greatest = a.greatest;
      present = a.present;
      turnover = a.turnover;
    }) a.covariances.items };
}

impl Instance {
    /// The instance of a market and the limits of a job for it; the weights, nodes and workers of the job are not
    /// used. It makes the table of covariances, which costs O(N * N), also of memory. After an error the market is
    /// gone.
    pub fn new(alloc: Global, market: Market, job: &Job) -> Result<Instance, OutOfMemory>
        requires { AreLimits market.assets job.now.lots job.now.held job.now.held_most job.now.least job.now.greatest
            job.now.present job.now.turnover }
        ensures { IfOk result (λ inst. inst ≡ instance_of market job.now) }
    {
        let covariances = table_of(alloc, &market)?;
        Ok(Instance {
            market,
            lots: job.lots,
            held: job.held,
            held_most: job.held_most,
            least: job.least.copy(),
            greatest: job.greatest.copy(),
            present: job.present.copy(),
            turnover: job.turnover,
            covariances,
        })
    }

    /// The number N of assets. Its contract also says all that holds of every instance.
    pub fn n(&self) -> u16
        ensures value { result ≡ self.now.market.assets }
        ensures few { 2 ≤ result }
        ensures many { result ≤ 256 }
        ensures instance { IsInstance self.now }
    {
        self.market.n()
    }

    /// The number L of lots to place.
    pub fn lots(&self) -> u16
        ensures value { result ≡ self.now.lots }
        ensures least { 1 ≤ result }
        ensures most { result ≤ 10000 }
    {
        self.lots
    }

    /// The least number K1 of assets to hold.
    pub fn held(&self) -> u16
        ensures value { result ≡ self.now.held }
        ensures least { 1 ≤ result }
        ensures most { result ≤ self.now.held_most }
        ensures inside { result ≤ self.now.market.assets }
    {
        self.held
    }

    /// The greatest number K2 of assets to hold.
    pub fn held_most(&self) -> u16
        ensures value { result ≡ self.now.held_most }
        ensures least { self.now.held ≤ result }
        ensures most { result ≤ self.now.market.assets }
    {
        self.held_most
    }

    /// The least lots of asset `i` where it is held.
    pub fn lo(&self, i: u16) -> u16
        requires { i < self.now.market.assets }
        ensures value { result ≡ slice_index_or self.now.least i 0 }
        ensures least { 1 ≤ result }
        ensures most { result ≤ self.now.lots }
    {
        self.least.get(i)
    }

    /// The greatest lots of asset `i`.
    pub fn hi(&self, i: u16) -> u16
        requires { i < self.now.market.assets }
        ensures value { result ≡ slice_index_or self.now.greatest i 0 }
        ensures least { 1 ≤ result }
        ensures most { result ≤ self.now.lots }
    {
        self.greatest.get(i)
    }

    /// The lots of asset `i` that are held at present.
    pub fn present(&self, i: u16) -> u16
        requires { i < self.now.market.assets }
        ensures value { result ≡ slice_index_or self.now.present i 0 }
        ensures most { result ≤ 10000 }
    {
        self.present.get(i)
    }

    /// The greatest turnover, where one is set.
    pub fn turnover(&self) -> Option<u32>
        ensures value { result ≡ self.now.turnover }
        ensures most { IfSome result (λ t. t ≤ 3000000) }
    {
        self.turnover
    }

    /// The mean return of asset `i`, in millionths.
    pub fn mean(&self, i: u16) -> i32
        requires { i < self.now.market.assets }
        ensures value { result ≡ mean_of self.now.market i }
        ensures small { unsigned_abs result ≤ 1000000 }
    {
        self.market.mean(i)
    }

    /// The standard deviation of the return of asset `i`, in millionths.
    pub fn dev(&self, i: u16) -> u32
        requires { i < self.now.market.assets }
        ensures value { result ≡ deviation_of self.now.market i }
        ensures small { result ≤ 1000000 }
    {
        self.market.dev(i)
    }

    /// The correlation of the returns of assets `i` and `j`, in millionths.
    pub fn rho(&self, i: u16, j: u16) -> i32
        requires row { i < self.now.market.assets }
        requires column { j < self.now.market.assets }
        ensures value { result ≡ rho_of self.now.market i j }
        ensures small { unsigned_abs result ≤ 1000000 }
        ensures symmetric { result ≡ rho_of self.now.market j i }
    {
        self.market.rho(i, j)
    }

    /// The covariance of the returns of assets `i` and `j`, in units of 10^-18. One read of the table.
    pub fn cov(&self, i: u16, j: u16) -> i64
        requires row { i < self.now.market.assets }
        requires column { j < self.now.market.assets }
        ensures value { result ≡ cov_of self.now.market i j }
        ensures small { unsigned_abs result ≤ 1000000000000000000 }
        ensures symmetric { result ≡ cov_of self.now.market j i }
    {
        self.covariances[usize::from(i) * usize::from(self.market.n()) + usize::from(j)]
    }
}
