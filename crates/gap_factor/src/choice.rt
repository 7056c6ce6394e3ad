//! The choice between the rounded factor and none.

ghost use Rattle.std.specs.Prelude.{◌≡◌, ℕ, ℤ, ◌<◌, pos, ◌≤ℤ◌, ◌↔◌, IfOk, IsTrue, IsFalse};
ghost use Rattle.gap_base.specs.Sums.{sum_below};
ghost use Rattle.gap_instance.specs.Objective.{cov_of};
ghost use Rattle.gap_psd.specs.Shifts.{r_of, d_of, total_of, IsDominantShift};
ghost use Rattle.gap_psd.specs.Factors.{no_factor, AreLeast, IsRoundedFactor, IsAtMostRounded, IsBelowRounded, IsChosen};
ghost use Rattle.gap_factor.specs.Plain.{plain_of};

use crate::columns::make_factor;
use crate::diagonal::set_diagonal;
use crate::plain::{plain_total, set_plain};
use gap_base::OutOfMemory;
use gap_instance::Instance;
use gap_psd::Shift;
use std::alloc::Global;

/// Makes the rounded factor and its least diagonal, and says whether it is to be taken: no D_i is above 10^21, and the
/// total is at most the one where R is zero.
fn round(inst: &Instance, shift: &mut Shift) -> bool
    requires same { inst.now.market.assets ≡ shift.old.assets }
    requires none { (k : ℕ) → d_of shift.old k ≡ pos 0 }
    ensures assets { shift.new.assets ≡ shift.old.assets }
    ensures rounded { IsTrue result → IsRoundedFactor shift.new.assets (cov_of inst.now.market) (r_of shift.new) }
    ensures least { IsTrue result → AreLeast shift.new.assets (cov_of inst.now.market) (r_of shift.new) (d_of shift.new) }
    ensures at_most { IsTrue result
        → total_of shift.new ≤ℤ sum_below shift.new.assets (plain_of shift.new.assets (cov_of inst.now.market)) }
    ensures refused { IsFalse result
        → IsBelowRounded shift.new.assets (cov_of inst.now.market)
        (sum_below shift.new.assets (plain_of shift.new.assets (cov_of inst.now.market))) }
{
    make_factor(inst, shift);
    if !set_diagonal(inst, shift) {
        return false;
    }
    needs_no_more(inst, shift)
}

/// Is the total of the shift at most the one where R is zero?
fn needs_no_more(inst: &Instance, shift: &Shift) -> bool
    ensures { IsTrue result
        ↔ (total_of shift.now
        ≤ℤ sum_below inst.now.market.assets (plain_of inst.now.market.assets (cov_of inst.now.market))) }
{
    shift.total() <= plain_total(inst)
}

/// Makes the shift of the instance in place of one whose D is zero.
fn choose(inst: &Instance, shift: &mut Shift)
    requires same { inst.now.market.assets ≡ shift.old.assets }
    requires none { (k : ℕ) → d_of shift.old k ≡ pos 0 }
    ensures assets { shift.new.assets ≡ shift.old.assets }
    ensures least { AreLeast shift.new.assets (cov_of inst.now.market) (r_of shift.new) (d_of shift.new) }
    ensures plain { (D : ℕ → ℤ) → AreLeast shift.new.assets (cov_of inst.now.market) no_factor D
        → total_of shift.new ≤ℤ sum_below shift.new.assets D }
    ensures rounded { IsAtMostRounded shift.new.assets (cov_of inst.now.market) (total_of shift.new) }
    ensures chosen { IsChosen (cov_of inst.now.market) shift.new }
{
    if !round(inst, shift) {
        set_plain(inst, shift);
    }
}

/// The shift of the instance: the rounded factor of its covariances with the least diagonal for it, or R = 0 with the
/// least diagonal for that where the rounded factor asks for a D_i above 10^21 or for a greater total.
///
/// The shift is dominant, each D_i is the least for its R, and the total of D is at most the one that R = 0 needs, and
/// at most the one that the rounded factor needs where that asks for no D_i above 10^21. The rounded factor is made
/// column by column: on the diagonal stands the whole square root, rounded down, of what is owed there, below it what
/// is owed divided by that root and rounded toward zero, and a column is zero where what is owed on the diagonal isn't
/// positive or an entry has a size above 10^15.
///
/// Costs O(N * N * N), and its memory is that of the shift. `OutOfMemory` is its one error.
pub fn factor(alloc: Global, inst: &Instance) -> Result<Shift, OutOfMemory>
    ensures assets { IfOk result (λ shift. shift.assets ≡ inst.now.market.assets) }
    ensures dominant { IfOk result (λ shift. IsDominantShift (cov_of inst.now.market) shift) }
    ensures least { IfOk result (λ shift. AreLeast shift.assets (cov_of inst.now.market) (r_of shift) (d_of shift)) }
    ensures plain { IfOk result
        (λ shift. (D : ℕ → ℤ) → AreLeast shift.assets (cov_of inst.now.market) no_factor D
        → total_of shift ≤ℤ sum_below shift.assets D) }
    ensures rounded { IfOk result (λ shift. IsAtMostRounded shift.assets (cov_of inst.now.market) (total_of shift)) }
    ensures chosen { IfOk result (λ shift. IsChosen (cov_of inst.now.market) shift) }
{
    let mut shift = Shift::zero(alloc, inst.n())?;
    choose(inst, &mut shift);
    Ok(shift)
}
