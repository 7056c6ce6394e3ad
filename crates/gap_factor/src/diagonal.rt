//! The least diagonal for a factor.

ghost use Rattle.std.specs.Prelude.{◌≡◌, ℕ, ℤ, ◌<◌, ◌≤◌, pos, ◌*ℤ◌, ◌≤ℤ◌, ◌<ℤ◌, IsTrue, IsFalse, unsigned_abs};
ghost use Rattle.gap_instance.specs.Objective.{cov_of};
ghost use Rattle.gap_psd.specs.Shifts.{r_of, d_of};
ghost use Rattle.gap_psd.specs.Factors.{IsLeastAt, AreLeast};
ghost use Rattle.gap_factor.specs.Diagonals.{IsLeastStep, IsTooMuch};

use gap_instance::Instance;
use gap_psd::{Shift, row_of};

/// The 10^12th part of a number, rounded up.
fn ceil_part(short: i128) -> i128
    requires { unsigned_abs short ≤ 323049000000000000000000000000000000 }
    ensures reached { short ≤ℤ (pos 1000000000000 *ℤ result) }
    ensures least { (e : ℤ) → short ≤ℤ (pos 1000000000000 *ℤ e) → result ≤ℤ e }
    ensures small { unsigned_abs result ≤ 323049000000000000000001 }
{
    let below = short.div_euclid(1_000_000_000_000);
    if below * 1_000_000_000_000 < short {
        below + 1
    } else {
        below
    }
}

/// The least whole number from 0 on whose 10^12-fold is at least `short`.
fn least_step(short: i128) -> i128
    requires { unsigned_abs short ≤ 323049000000000000000000000000000000 }
    ensures step { IsLeastStep short result }
    ensures small { unsigned_abs result ≤ 323049000000000000000001 }
{
    if short <= 0 { 0 } else { ceil_part(short) }
}

/// The least whole number from 0 on that makes row `i` dominant, where D_i is 0 so far.
fn least_d(inst: &Instance, shift: &Shift, i: u16) -> i128
    requires same { inst.now.market.assets ≡ shift.now.assets }
    requires row { i < shift.now.assets }
    requires none { d_of shift.now i ≡ pos 0 }
    ensures least { IsLeastAt shift.now.assets (cov_of inst.now.market) (r_of shift.now) i result }
    ensures small { unsigned_abs result ≤ 323049000000000000000001 }
{
    let told = row_of(inst, shift, i);
    least_step(told.others - told.diagonal)
}

/// Sets each D_i, which are 0 so far, to the least for R, and says whether each is at most 10^21; where one isn't, it
/// stops there. Costs O(N * N * N) and takes no memory.
pub fn set_diagonal(inst: &Instance, shift: &mut Shift) -> bool
    requires same { inst.now.market.assets ≡ shift.old.assets }
    requires none { (k : ℕ) → d_of shift.old k ≡ pos 0 }
    ensures assets { shift.new.assets ≡ shift.old.assets }
    ensures factor { shift.new.factor ≡ shift.old.factor }
    ensures least { IsTrue result → AreLeast shift.old.assets (cov_of inst.now.market) (r_of shift.old) (d_of shift.new) }
    ensures too_much { IsFalse result → IsTooMuch (cov_of inst.now.market) shift.old }
{
    for i in 0..shift.n() {
        let least = least_d(inst, shift, i);
        if least > 1_000_000_000_000_000_000_000 {
            return false;
        }
        shift.set_d(i, least);
    }
    true
}
