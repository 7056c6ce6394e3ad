//! The quadratic form of a shifted table of covariances.

ghost use Rattle.std.specs.Prelude.{◌≡◌, ℕ, ◌+◌, ◌*◌, ◌<◌, ◌≤◌, pos, ◌*ℤ◌, ◌≤ℤ◌, length, unsigned_abs};
ghost use Rattle.gap_base.specs.Sums.{sum_below, at};
ghost use Rattle.gap_instance.specs.Objective.{cov_of};
ghost use Rattle.gap_psd.specs.Forms.{form};
ghost use Rattle.gap_psd.specs.Shifts.{shifted, IsDominantShift};

use crate::Shift;
use crate::dominance::entry_at;
use gap_instance::Instance;

/// An entry times a number of the list.
fn scaled(entry: i128, v: i64) -> i128
    requires first { unsigned_abs entry ≤ 1001000000000000000000 }
    requires second { unsigned_abs v ≤ 80000 }
    ensures value { result ≡ entry *ℤ v }
    ensures small { unsigned_abs result ≤ 80080000000000000000000000 }
{
    entry * i128::from(v)
}

/// The number at place `j` of the list.
fn number_at(v: &[i64], j: u16) -> i64
    requires within { j < length v.now }
    requires small { (k : ℕ) → k < length v.now → unsigned_abs (at v.now k) ≤ 80000 }
    ensures value { result ≡ at v.now j }
    ensures small { unsigned_abs result ≤ 80000 }
{
    v[usize::from(j)]
}

/// Row `i` of A times the list.
#[tactic(auto, using(gap_base::proofs::SumLaws::sum_steps))]
fn row_times(inst: &Instance, shift: &Shift, v: &[i64], i: u16) -> i128
    requires same { inst.now.market.assets ≡ shift.now.assets }
    requires numbers { length v.now ≡ shift.now.assets }
    requires small { (k : ℕ) → k < length v.now → unsigned_abs (at v.now k) ≤ 80000 }
    requires row { i < shift.now.assets }
    ensures value { result ≡ sum_below shift.now.assets (λ j. shifted (cov_of inst.now.market) shift.now i j *ℤ at v.now j) }
    ensures small { unsigned_abs result ≤ 256 * 80080000000000000000000000 }
{
    let mut sum: i128 = 0;
    for j in 0..shift.n() {
        sum += scaled(entry_at(inst, shift, i, j), number_at(v, j));
    }
    sum
}

/// A row's sum times a number of the list.
fn scaled_row(row: i128, v: i64) -> i128
    requires first { unsigned_abs row ≤ 256 * 80080000000000000000000000 }
    requires second { unsigned_abs v ≤ 80000 }
    ensures value { result ≡ row *ℤ v }
    ensures small { unsigned_abs result ≤ 1640038400000000000000000000000000 }
{
    row * i128::from(v)
}

/// `v' A v` with `A = C + diag(D)`: the sum of `A_ij v_i v_j` over all places, which for a dominant shift is not
/// negative. The shift and the list are ones of the instance's N, and no number of the list has a size above 80000.
///
/// Costs O(N * N) and takes no memory. Its size stays below 10^36.
#[tactic(auto, using(gap_base::proofs::SumLaws::sum_steps))]
pub fn form(inst: &Instance, shift: &Shift, v: &[i64]) -> i128
    requires same { inst.now.market.assets ≡ shift.now.assets }
    requires numbers { length v.now ≡ shift.now.assets }
    requires small { (k : ℕ) → k < length v.now → unsigned_abs (at v.now k) ≤ 80000 }
    ensures value { result ≡ form shift.now.assets (shifted (cov_of inst.now.market) shift.now) (at v.now) (at v.now) }
    ensures not_negative { IsDominantShift (cov_of inst.now.market) shift.now → pos 0 ≤ℤ result }
    ensures small { unsigned_abs result ≤ 256 * 1640038400000000000000000000000000 }
{
    let mut total: i128 = 0;
    for i in 0..inst.n() {
        total += scaled_row(row_times(inst, shift, v, i), number_at(v, i));
    }
    total
}
