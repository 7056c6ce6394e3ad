//! The rounded factor, column by column.

ghost use Rattle.std.specs.Prelude.{◌≡◌, ℕ, ◌<◌, ◌≤◌, ◌↔◌, pos, ◌*ℤ◌, ◌-ℤ◌, ◌<ℤ◌, int_div, IsTrue, unsigned_abs};
ghost use Rattle.gap_instance.specs.Objective.{cov_of};
ghost use Rattle.gap_psd.specs.Shifts.{r_of};
ghost use Rattle.gap_psd.specs.Factors.{owed, wanted, whole_root, pivot_root, too_large, takes_column, IsRoundedColumn, IsRoundedFactor};
ghost use Rattle.gap_factor.specs.Columns.{SameBeside};

use gap_instance::Instance;
use gap_psd::{Shift, product_of_rows};

/// What is left of 10^12 times a covariance.
fn left_of(entry: i64, product: i128) -> i128
    requires entry { unsigned_abs entry ≤ 1000000000000000000 }
    requires product { unsigned_abs product ≤ 256000000000000000000000000000000 }
    ensures value { result ≡ pos 1000000000000 *ℤ entry -ℤ product }
    ensures small { unsigned_abs result ≤ 257000000000000000000000000000000 }
{
    1_000_000_000_000 * i128::from(entry) - product
}

/// What column `j` has to give in row `i` after the columns before it.
#[tactic(auto, unfolding(gap_psd::specs::Factors::owed))]
fn owed_at(inst: &Instance, shift: &Shift, j: u16, i: u16) -> i128
    requires same { inst.now.market.assets ≡ shift.now.assets }
    requires column { j ≤ i }
    requires row { i < shift.now.assets }
    ensures value { result ≡ owed (cov_of inst.now.market) (r_of shift.now) j i }
    ensures small { unsigned_abs result ≤ 257000000000000000000000000000000 }
{
    let _assets = shift.n();
    left_of(inst.cov(i, j), product_of_rows(shift, i, j, j))
}

/// What is owed, divided by the root and rounded toward zero.
fn quotient(owed: i128, root: i64) -> i128
    requires positive { pos 0 <ℤ root }
    requires small { unsigned_abs owed ≤ 257000000000000000000000000000000 }
    ensures value { result ≡ int_div owed root }
    ensures small { unsigned_abs result ≤ 257000000000000000000000000000000 }
{
    owed / i128::from(root)
}

/// The entry of column `j` in row `i`, where `root` is the whole root of what is owed on the diagonal.
#[tactic(auto, using(crate::proofs::FactorLaws::wanted_steps))]
fn wanted_at(inst: &Instance, shift: &Shift, j: u16, i: u16, root: i64) -> i128
    requires same { inst.now.market.assets ≡ shift.now.assets }
    requires column { j ≤ i }
    requires row { i < shift.now.assets }
    requires positive { pos 0 <ℤ root }
    requires root_is { root ≡ pos (pivot_root (cov_of inst.now.market) (r_of shift.now) j) }
    ensures value { result ≡ wanted (cov_of inst.now.market) (r_of shift.now) j i }
    ensures small { unsigned_abs result ≤ 257000000000000000000000000000000 }
{
    if i == j {
        i128::from(root)
    } else {
        quotient(owed_at(inst, shift, j, i), root)
    }
}

/// Is the size at most 10^15?
fn fits(entry: i128) -> bool
    ensures { IsTrue result ↔ (unsigned_abs entry ≤ 1000000000000000) }
{
    entry.unsigned_abs() <= 1_000_000_000_000_000
}

/// The whole square root of a positive number, rounded down.
fn root_of(pivot: i128) -> i64
    requires positive { pos 0 <ℤ pivot }
    requires small { unsigned_abs pivot ≤ 257000000000000000000000000000000 }
    ensures value { result ≡ pos (whole_root (unsigned_abs pivot)) }
    ensures positive { pos 0 <ℤ result }
{
    pivot.isqrt() as i64
}

/// Writes column `j` from the diagonal down, where `root` is the whole root of what is owed on the diagonal, and says
/// whether each entry fits; where one doesn't, it stops there.
fn fill_column(inst: &Instance, shift: &mut Shift, j: u16, root: i64) -> bool
    requires same { inst.now.market.assets ≡ shift.old.assets }
    requires column { j < shift.old.assets }
    requires positive { pos 0 <ℤ root }
    requires root_is { root ≡ pos (pivot_root (cov_of inst.now.market) (r_of shift.old) j) }
    ensures kept { SameBeside shift.old shift.new j }
    ensures filled { IsTrue result → (a : ℕ) → a < shift.old.assets
        → r_of shift.new a j ≡ wanted (cov_of inst.now.market) (r_of shift.old) j a }
    ensures fit { IsTrue result ↔ (too_large shift.old.assets (cov_of inst.now.market) (r_of shift.old) j ≡ 0) }
{
    for i in j..shift.n() {
        let entry = wanted_at(inst, shift, j, i, root);
        if !fits(entry) {
            return false;
        }
        shift.set_r(i, j, entry as i64);
    }
    true
}

/// Sets column `j` to zero.
pub fn clear_column(shift: &mut Shift, j: u16)
    requires { j < shift.old.assets }
    ensures kept { SameBeside shift.old shift.new j }
    ensures cleared { (a : ℕ) → a < shift.old.assets → r_of shift.new a j ≡ pos 0 }
{
    for i in j..shift.n() {
        shift.set_r(i, j, 0);
    }
}

/// Is anything owed?
fn is_owed(pivot: i128) -> bool
    ensures { IsTrue result ↔ (pos 0 <ℤ pivot) }
{
    0 < pivot
}

/// Writes column `j` where it is taken, and says whether it is.
fn try_column(inst: &Instance, shift: &mut Shift, j: u16) -> bool
    requires same { inst.now.market.assets ≡ shift.old.assets }
    requires column { j < shift.old.assets }
    ensures kept { SameBeside shift.old shift.new j }
    ensures filled { IsTrue result → (a : ℕ) → a < shift.old.assets
        → r_of shift.new a j ≡ wanted (cov_of inst.now.market) (r_of shift.old) j a }
    ensures taken { result ≡ takes_column shift.old.assets (cov_of inst.now.market) (r_of shift.old) j }
{
    let pivot = owed_at(inst, shift, j, j);
    if !is_owed(pivot) {
        return false;
    }
    fill_column(inst, shift, j, root_of(pivot))
}

/// Makes column `j` of the rounded factor after the columns before it.
fn make_column(inst: &Instance, shift: &mut Shift, j: u16)
    requires same { inst.now.market.assets ≡ shift.old.assets }
    requires column { j < shift.old.assets }
    ensures kept { SameBeside shift.old shift.new j }
    ensures rounded { IsRoundedColumn shift.old.assets (cov_of inst.now.market) (r_of shift.new) j }
{
    if !try_column(inst, shift, j) {
        clear_column(shift, j);
    }
}

/// Makes R the rounded factor of the instance's covariances; D stays. Costs O(N * N * N) and takes no memory.
pub fn make_factor(inst: &Instance, shift: &mut Shift)
    requires { inst.now.market.assets ≡ shift.old.assets }
    ensures assets { shift.new.assets ≡ shift.old.assets }
    ensures diagonal { shift.new.diagonal ≡ shift.old.diagonal }
    ensures rounded { IsRoundedFactor shift.old.assets (cov_of inst.now.market) (r_of shift.new) }
{
    for j in 0..shift.n() {
        make_column(inst, shift, j);
    }
}
