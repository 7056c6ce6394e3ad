//! What a port file says of its assets: means, deviations and correlations, in millionths.

ghost use Rattle.std.specs.Prelude.{◌≡◌, ◌≢◌, ℕ, ◌+◌, ◌*◌, ◌^◌, ◌<◌, ◌≤◌, ◌⊎◌, IfOk};
ghost use Rattle.std.specs.Int.RustNames.{unsigned_abs};
ghost use Rattle.gap_base.specs.Markets.{mean_of, deviation_of, rho_of, fresh_market, with_mean, with_deviation, with_rho, with_one_more_rounded, IsMarket};

use crate::OutOfMemory;
use std::alloc::Global;
use std::marker::Model;

/// The mean return and the standard deviation of each of 2 to 256 assets and the correlation of each two of them, all
/// in millionths and at most 1000000 in size, and how many numerals of the file were rounded. Places count from 0.
///
/// Contracts see a market as the record `MarketValue`. It keeps N * N correlations, both ways round, so each reader
/// and each setter costs O(1) and takes no memory.
#[derive(Drop)]
pub struct Market {
    assets: u16,
    means: Vec<i32>,
    deviations: Vec<u32>,
    correlations: Vec<i32>,
    rounded: u32,
}

impl Model for Market {
    ghost use Rattle.gap_base.specs.Markets.{MarketValue, IsMarket};

    ghost Value = { MarketValue };

    ghost view = { λ a. record {
      assets = a.assets;
      means = a.means.items;
      deviations = a.deviations.items;
      correlations = a.correlations.items;
      rounded = a.rounded;
    } };

    ghost invariant = { λ a. IsMarket (record {
      assets = a.assets;
      means = a.means.items;
      deviations = a.deviations.items;
      correlations = a.correlations.items;
      rounded = a.rounded;
    }) };
}

impl Market {
    /// The market of `n` assets, 2 to 256, of which nothing is known: means, deviations and correlations are 0, each
    /// asset's correlation with itself is 1000000, and nothing was rounded. Costs O(n * n).
    pub fn new(alloc: Global, n: u16) -> Result<Market, OutOfMemory>
        requires few { 2 ≤ n }
        requires many { n ≤ 256 }
        ensures { IfOk result (λ m. m ≡ fresh_market n) }
    {
        let count = usize::from(n);
        let means = vec![in alloc; 0i32; count]?;
        let deviations = vec![in alloc; 0u32; count]?;
        let correlations = vec![in alloc; 0i32; count * count]?;
        Ok(Market {
            assets: n,
            means,
            deviations,
            correlations,
            rounded: 0,
        })
    }

    /// The number of assets. Its contract also says all that holds of every market: the lengths, the greatest sizes,
    /// and that the correlation of two assets is the same from either side.
    pub fn n(&self) -> u16
        ensures value { result ≡ self.now.assets }
        ensures few { 2 ≤ result }
        ensures many { result ≤ 256 }
        ensures market { IsMarket self.now }
    {
        self.assets
    }

    /// The mean return of asset `i`, in millionths.
    pub fn mean(&self, i: u16) -> i32
        requires { i < self.now.assets }
        ensures value { result ≡ mean_of self.now i }
        ensures size { unsigned_abs result ≤ 1000000 }
    {
        self.means[usize::from(i)]
    }

    /// The standard deviation of the return of asset `i`, in millionths.
    pub fn dev(&self, i: u16) -> u32
        requires { i < self.now.assets }
        ensures value { result ≡ deviation_of self.now i }
        ensures size { result ≤ 1000000 }
    {
        self.deviations[usize::from(i)]
    }

    /// The correlation of the returns of assets `i` and `j`, in millionths: 1000000 where they are one asset, and the
    /// same from either side.
    pub fn rho(&self, i: u16, j: u16) -> i32
        requires first_in { i < self.now.assets }
        requires second_in { j < self.now.assets }
        ensures value { result ≡ rho_of self.now i j }
        ensures size { unsigned_abs result ≤ 1000000 }
        ensures symmetric { result ≡ rho_of self.now j i }
    {
        if i == j {
            1_000_000
        } else {
            self.correlations[usize::from(i) * usize::from(self.assets) + usize::from(j)]
        }
    }

    /// How many numerals of the file were rounded.
    pub fn rounded(&self) -> u32
        ensures { result ≡ self.now.rounded }
    {
        self.rounded
    }

    /// Sets the mean return of asset `i` and nothing else.
    pub fn set_mean(&mut self, i: u16, v: i32)
        requires asset_in { i < self.old.assets }
        requires in_range { unsigned_abs v ≤ 1000000 }
        ensures { self.new ≡ with_mean self.old i v }
    {
        self.means[usize::from(i)] = v;
    }

    /// Sets the standard deviation of asset `i` and nothing else.
    pub fn set_dev(&mut self, i: u16, v: u32)
        requires asset_in { i < self.old.assets }
        requires in_range { v ≤ 1000000 }
        ensures { self.new ≡ with_deviation self.old i v }
    {
        self.deviations[usize::from(i)] = v;
    }

    /// Sets the correlation of the two assets `i` and `j`, both ways round, and nothing else.
    pub fn set_rho(&mut self, i: u16, j: u16, v: i32)
        requires first_in { i < self.old.assets }
        requires second_in { j < self.old.assets }
        requires two { i ≢ j }
        requires in_range { unsigned_abs v ≤ 1000000 }
        ensures value { self.new ≡ with_rho self.old i j v }
        ensures one_way { rho_of self.new i j ≡ v }
        ensures other_way { rho_of self.new j i ≡ v }
        ensures others { (a b : ℕ) → a < self.old.assets → b < self.old.assets → (a ≢ i) ⊎ (b ≢ j) → (a ≢ j) ⊎ (b ≢ i)
            → rho_of self.new a b ≡ rho_of self.old a b }
    {
        let count = usize::from(self.assets);
        let first = usize::from(i) * count + usize::from(j);
        let second = usize::from(j) * count + usize::from(i);
        self.correlations[first] = v;
        self.correlations[second] = v;
    }

    /// Counts one more rounded numeral.
    pub fn add_rounded(&mut self)
        requires { self.old.rounded + 1 < 2 ^ 32 }
        ensures { self.new ≡ with_one_more_rounded self.old }
    {
        self.rounded += 1;
    }
}
