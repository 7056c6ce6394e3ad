//! The least diagonal where R is zero.

ghost use Rattle.std.specs.Prelude.{◌≡◌, ℕ, ◌+◌, ◌*◌, ◌<◌, ◌≤◌, ◌==◌, if◌then◌else◌, pos, ◌-ℤ◌, ◌≤ℤ◌, unsigned_abs};
ghost use Rattle.std.specs.Int.{int_max};
ghost use Rattle.gap_base.specs.Sums.{abs_z, sum_below};
ghost use Rattle.gap_instance.specs.Objective.{cov_of};
ghost use Rattle.gap_psd.specs.Forms.{others};
ghost use Rattle.gap_psd.specs.Shifts.{r_of, d_of};
ghost use Rattle.gap_factor.specs.Plain.{plain_of};

use crate::columns::clear_column;
use gap_instance::Instance;
use gap_psd::Shift;

/// The size of a covariance of two assets, and 0 for one asset.
fn off_size(inst: &Instance, i: u16, j: u16) -> i128
    requires first { i < inst.now.market.assets }
    requires second { j < inst.now.market.assets }
    ensures value { result ≡ (if j == i then pos 0 else abs_z (cov_of inst.now.market i j)) }
    ensures small { unsigned_abs result ≤ 1000000000000000000 }
{
    if j == i {
        0
    } else {
        i128::from(inst.cov(i, j)).abs()
    }
}

/// The sum of the sizes of the covariances of asset `i` with the others.
#[tactic(auto, using(gap_base::proofs::SumLaws::sum_steps), unfolding(gap_psd::specs::Forms::others))]
fn others_of(inst: &Instance, i: u16) -> i128
    requires { i < inst.now.market.assets }
    ensures value { result ≡ others inst.now.market.assets (cov_of inst.now.market) i }
    ensures small { unsigned_abs result ≤ 256 * 1000000000000000000 }
{
    let mut sum: i128 = 0;
    for j in 0..inst.n() {
        sum += off_size(inst, i, j);
    }
    sum
}

/// How far the first is above the second, and 0 where it isn't.
#[tactic(auto, using(crate::proofs::LeastLaws::max_steps))]
fn above(first: i128, second: i64) -> i128
    requires first { unsigned_abs first ≤ 256 * 1000000000000000000 }
    requires second { unsigned_abs second ≤ 1000000000000000000 }
    ensures value { result ≡ int_max (pos 0) (first -ℤ second) }
    ensures small { unsigned_abs result ≤ 257000000000000000000 }
    ensures sign { pos 0 ≤ℤ result }
{
    let over = first - i128::from(second);
    if over > 0 { over } else { 0 }
}

/// The least D_i where R is zero. Costs O(N).
fn plain_d(inst: &Instance, i: u16) -> i128
    requires { i < inst.now.market.assets }
    ensures value { result ≡ plain_of inst.now.market.assets (cov_of inst.now.market) i }
    ensures small { unsigned_abs result ≤ 257000000000000000000 }
    ensures sign { pos 0 ≤ℤ result }
{
    above(others_of(inst, i), inst.cov(i, i))
}

/// The sum of the least D where R is zero. Costs O(N * N) and takes no memory.
#[tactic(auto, using(gap_base::proofs::SumLaws::sum_steps))]
pub fn plain_total(inst: &Instance) -> i128
    ensures value { result ≡ sum_below inst.now.market.assets (plain_of inst.now.market.assets (cov_of inst.now.market)) }
    ensures small { unsigned_abs result ≤ 256 * 257000000000000000000 }
{
    let mut sum: i128 = 0;
    for i in 0..inst.n() {
        sum += plain_d(inst, i);
    }
    sum
}

/// Sets R to zero and D to the least for that. Costs O(N * N) and takes no memory.
pub fn set_plain(inst: &Instance, shift: &mut Shift)
    requires { inst.now.market.assets ≡ shift.old.assets }
    ensures assets { shift.new.assets ≡ shift.old.assets }
    ensures zero { (a b : ℕ) → a < shift.old.assets → b < shift.old.assets → r_of shift.new a b ≡ pos 0 }
    ensures plain { (k : ℕ) → k < shift.old.assets
        → d_of shift.new k ≡ plain_of shift.old.assets (cov_of inst.now.market) k }
{
    for i in 0..shift.n() {
        clear_column(shift, i);
        shift.set_d(i, plain_d(inst, i));
    }
}
