//! The shift: a lower triangle R and a diagonal D, each number in its range.

ghost use Rattle.std.specs.Prelude.{◌≡◌, ℕ, ◌+◌, ◌*◌, ◌<◌, ◌≤◌, pos, ◌≤ℤ◌, IfOk, unsigned_abs};
ghost use Rattle.gap_psd.specs.Shifts.{r_of, d_of, zero_shift, with_r, with_d, total_of, IsShift};

use gap_base::OutOfMemory;
use std::alloc::Global;
use std::marker::Model;

/// A lower triangular matrix R of whole numbers of a size of at most 10^15 and numbers D in 0..10^21, for 2 to 256
/// assets. Places count from 0.
///
/// Contracts see a shift as the record `ShiftValue`. It keeps N * N numbers for R, so each reader and each setter
/// costs O(1), and none takes memory but `zero`.
#[derive(Drop)]
pub struct Shift {
    assets: u16,
    factor: Vec<i64>,
    diagonal: Vec<i128>,
}

impl Model for Shift {
    ghost use Rattle.gap_psd.specs.Shifts.{ShiftValue, IsShift};

    ghost Value = { ShiftValue };

    ghost view = { λ a. record {
      assets = a.assets;
      factor = a.factor.items;
      diagonal = a.diagonal.items;
    } };

    ghost invariant = { λ a. IsShift (record {
      assets = a.assets;
      factor = a.factor.items;
      diagonal = a.diagonal.items;
    }) };
}

impl Shift {
    /// The shift of `n` assets with R = 0 and D = 0. Costs O(N * N), which is also its memory.
    pub fn zero(alloc: Global, n: u16) -> Result<Shift, OutOfMemory>
        requires least { 2 ≤ n }
        requires most { n ≤ 256 }
        ensures { IfOk result (λ shift. shift ≡ zero_shift n) }
    {
        let count = usize::from(n);
        let factor = vec![in alloc; 0i64; count * count]?;
        let diagonal = vec![in alloc; 0i128; count]?;
        Ok(Shift {
            assets: n,
            factor,
            diagonal,
        })
    }

    /// The number N of assets. Its contract also says all that holds of every shift: the lengths and the ranges.
    pub fn n(&self) -> u16
        ensures value { result ≡ self.now.assets }
        ensures few { 2 ≤ result }
        ensures many { result ≤ 256 }
        ensures shift { IsShift self.now }
    {
        self.assets
    }

    /// R_ij.
    pub fn r(&self, i: u16, j: u16) -> i64
        requires row { i < self.now.assets }
        requires column { j ≤ i }
        ensures value { result ≡ r_of self.now i j }
        ensures small { unsigned_abs result ≤ 1000000000000000 }
    {
        self.factor[usize::from(i) * usize::from(self.assets) + usize::from(j)]
    }

    /// D_i.
    pub fn d(&self, i: u16) -> i128
        requires { i < self.now.assets }
        ensures value { result ≡ d_of self.now i }
        ensures small { unsigned_abs result ≤ 1000000000000000000000 }
        ensures sign { pos 0 ≤ℤ result }
    {
        self.diagonal[usize::from(i)]
    }

    /// Sets R_ij; every other number stays.
    pub fn set_r(&mut self, i: u16, j: u16, v: i64)
        requires row { i < self.old.assets }
        requires column { j ≤ i }
        requires small { unsigned_abs v ≤ 1000000000000000 }
        ensures { self.new ≡ with_r self.old i j v }
    {
        self.factor[usize::from(i) * usize::from(self.assets) + usize::from(j)] = v;
    }

    /// Sets D_i; every other number stays.
    pub fn set_d(&mut self, i: u16, v: i128)
        requires row { i < self.old.assets }
        requires small { unsigned_abs v ≤ 1000000000000000000000 }
        requires sign { pos 0 ≤ℤ v }
        ensures { self.new ≡ with_d self.old i v }
    {
        self.diagonal[usize::from(i)] = v;
    }

    /// The sum of D. Costs O(N).
    #[tactic(auto, using(gap_base::proofs::SumLaws::sum_steps))]
    pub fn total(&self) -> i128
        ensures value { result ≡ total_of self.now }
        ensures small { unsigned_abs result ≤ 256 * 1000000000000000000000 }
    {
        let mut sum: i128 = 0;
        for i in 0..self.assets {
            sum += self.d(i);
        }
        sum
    }
}
