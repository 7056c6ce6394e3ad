//! Whether a shift is dominant, from sums over whole rows.

ghost use Rattle.std.specs.Prelude.{◌≡◌, ℕ, ◌+◌, ◌*◌, ◌<◌, ◌≤◌, ◌==◌, if◌then◌else◌, pos, ◌*ℤ◌, ◌-ℤ◌, ◌≤ℤ◌, ◌↔◌, IfSome, IsNone, unsigned_abs};
ghost use Rattle.gap_base.specs.Sums.{abs_z, sum_below};
ghost use Rattle.gap_instance.specs.Objective.{cov_of};
ghost use Rattle.gap_psd.specs.Forms.{others, gram, IsSemi};
ghost use Rattle.gap_psd.specs.Shifts.{r_of, shifted, rest, IsDominantShift, IsFirstRow};

use crate::Shift;
use gap_base::Row;
use gap_instance::Instance;

/// The product of two entries of R.
fn times(a: i64, b: i64) -> i128
    requires first { unsigned_abs a ≤ 1000000000000000 }
    requires second { unsigned_abs b ≤ 1000000000000000 }
    ensures value { result ≡ a *ℤ b }
    ensures small { unsigned_abs result ≤ 1000000000000000000000000000000 }
{
    i128::from(a) * i128::from(b)
}

/// The product of the first `count` places of the rows `i` and `j` of R, neither of which goes past its diagonal. Costs
/// O(count) and takes no memory.
#[tactic(auto, using(gap_base::proofs::SumLaws::sum_steps))]
pub fn product_of_rows(shift: &Shift, i: u16, j: u16, count: u16) -> i128
    requires first { i < shift.now.assets }
    requires second { j < shift.now.assets }
    requires short_first { count ≤ i + 1 }
    requires short_second { count ≤ j + 1 }
    requires few { count ≤ 256 }
    ensures value { result ≡ sum_below count (λ k. r_of shift.now i k *ℤ r_of shift.now j k) }
    ensures small { unsigned_abs result ≤ 256 * 1000000000000000000000000000000 }
{
    let mut sum: i128 = 0;
    for k in 0..count {
        sum += times(shift.r(i, k), shift.r(j, k));
    }
    sum
}

/// An entry of R R'. Costs as many products as the lower of the two places.
#[tactic(auto, using(crate::proofs::ShiftLaws::gram_steps))]
fn gram_of(shift: &Shift, i: u16, j: u16) -> i128
    requires first { i < shift.now.assets }
    requires second { j < shift.now.assets }
    ensures value { result ≡ gram shift.now.assets (r_of shift.now) i j }
    ensures small { unsigned_abs result ≤ 256 * 1000000000000000000000000000000 }
{
    let _assets = shift.n();
    if i < j {
        product_of_rows(shift, i, j, i + 1)
    } else {
        product_of_rows(shift, i, j, j + 1)
    }
}

/// Entry `(i, j)` of `A = C + diag(D)`.
pub fn entry_at(inst: &Instance, shift: &Shift, i: u16, j: u16) -> i128
    requires same { inst.now.market.assets ≡ shift.now.assets }
    requires first { i < shift.now.assets }
    requires second { j < shift.now.assets }
    ensures value { result ≡ shifted (cov_of inst.now.market) shift.now i j }
    ensures small { unsigned_abs result ≤ 1001000000000000000000 }
{
    let entry = i128::from(inst.cov(i, j));
    if j == i { entry + shift.d(i) } else { entry }
}

/// What is left of 10^12 times an entry.
fn left_of(entry: i128, product: i128) -> i128
    requires entry { unsigned_abs entry ≤ 1001000000000000000000 }
    requires product { unsigned_abs product ≤ 256 * 1000000000000000000000000000000 }
    ensures value { result ≡ pos 1000000000000 *ℤ entry -ℤ product }
    ensures small { unsigned_abs result ≤ 1257000000000000000000000000000000 }
{
    1_000_000_000_000 * entry - product
}

/// Entry `(i, j)` of `E = 10^12 A - R R'`. Costs as many products as the lower of the two places.
fn rest_at(inst: &Instance, shift: &Shift, i: u16, j: u16) -> i128
    requires same { inst.now.market.assets ≡ shift.now.assets }
    requires first { i < shift.now.assets }
    requires second { j < shift.now.assets }
    ensures value { result ≡ rest (cov_of inst.now.market) shift.now i j }
    ensures small { unsigned_abs result ≤ 1257000000000000000000000000000000 }
{
    left_of(entry_at(inst, shift, i, j), gram_of(shift, i, j))
}

/// The size of an entry of E off the diagonal, and 0 on it.
fn off_size(inst: &Instance, shift: &Shift, i: u16, j: u16) -> i128
    requires same { inst.now.market.assets ≡ shift.now.assets }
    requires first { i < shift.now.assets }
    requires second { j < shift.now.assets }
    ensures value { result ≡ (if j == i then pos 0 else abs_z (rest (cov_of inst.now.market) shift.now i j)) }
    ensures small { unsigned_abs result ≤ 1257000000000000000000000000000000 }
{
    if j == i {
        0
    } else {
        rest_at(inst, shift, i, j).abs()
    }
}

/// The sum of the sizes of the entries of row `i` of E off the diagonal.
#[tactic(auto, using(gap_base::proofs::SumLaws::sum_steps), unfolding(crate::specs::Forms::others))]
fn others_of(inst: &Instance, shift: &Shift, i: u16) -> i128
    requires same { inst.now.market.assets ≡ shift.now.assets }
    requires row { i < shift.now.assets }
    ensures value { result ≡ others shift.now.assets (rest (cov_of inst.now.market) shift.now) i }
    ensures small { unsigned_abs result ≤ 256 * 1257000000000000000000000000000000 }
{
    let mut sum: i128 = 0;
    for j in 0..shift.n() {
        sum += off_size(inst, shift, i, j);
    }
    sum
}

/// Row `i` of `E = 10^12 (C + diag(D)) - R R'`: its entry on the diagonal and the sum of the sizes of the others. The
/// shift is one of the instance's N. Costs O(N * N) and takes no memory.
pub fn row_of(inst: &Instance, shift: &Shift, i: u16) -> Row
    requires same { inst.now.market.assets ≡ shift.now.assets }
    requires row { i < shift.now.assets }
    ensures place { result.row ≡ i }
    ensures diagonal_is { result.diagonal ≡ rest (cov_of inst.now.market) shift.now i i }
    ensures others_are { result.others ≡ others shift.now.assets (rest (cov_of inst.now.market) shift.now) i }
    ensures small_diagonal { unsigned_abs result.diagonal ≤ 1257000000000000000000000000000000 }
    ensures small_others { unsigned_abs result.others ≤ 256 * 1257000000000000000000000000000000 }
{
    Row {
        row: i,
        diagonal: rest_at(inst, shift, i, i),
        others: others_of(inst, shift, i),
    }
}

/// None where the shift is dominant for the instance, else the first row that isn't, with its entry on the diagonal and
/// the sum of the sizes of the others. The shift is one of the instance's N.
///
/// From None follows that `C + diag(D)` is semidefinite: `v' (C + diag(D)) v` is not negative, whatever N whole numbers
/// of either sign v has. Costs O(N * N * N) and takes no memory.
pub fn dominant(inst: &Instance, shift: &Shift) -> Option<Row>
    requires { inst.now.market.assets ≡ shift.now.assets }
    ensures none { IsNone result ↔ IsDominantShift (cov_of inst.now.market) shift.now }
    ensures first { IfSome result (λ told. IsFirstRow (cov_of inst.now.market) shift.now told) }
    ensures semidefinite { IsNone result → IsSemi shift.now.assets (shifted (cov_of inst.now.market) shift.now) }
{
    for i in 0..inst.n() {
        let told = row_of(inst, shift, i);
        if told.diagonal < told.others {
            return Some(told);
        }
    }
    None
}
