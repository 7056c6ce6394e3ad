//! What the square of an asset's lots takes off.

ghost use Rattle.std.specs.Prelude.{◌≡◌, ℕ, ◌*◌, ◌<◌, ◌≤◌, length, ℤ, pos, ◌*ℤ◌, ◌≤ℤ◌, unsigned_abs};
ghost use Rattle.gap_base.specs.Sums.{at};
ghost use Rattle.gap_psd.specs.Shifts.{d_of};

use gap_base::Weight;
use gap_psd::Shift;

/// `64 p d`
fn bend(p: u8, d: i128) -> i128
    requires p { p ≤ 100 }
    requires d { unsigned_abs d ≤ 1000000000000000000000 }
    requires sign { pos 0 ≤ℤ d }
    ensures value { result ≡ pos (64 * p) *ℤ d }
    ensures small { unsigned_abs result ≤ 6400000000000000000000000 }
    ensures sign { pos 0 ≤ℤ result }
{
    i128::from(64 * u32::from(p)) * d
}

/// What the square of each asset's lots takes off under the weight. Costs O(N).
pub(crate) fn bends_of(shift: &Shift, weight: Weight) -> [i128; 256]
    requires p { weight.p ≤ 100 }
    ensures bends { (i : ℕ) → i < shift.now.assets → at result i ≡ pos (64 * weight.p) *ℤ d_of shift.now i }
    ensures small { (i : ℕ) → i < shift.now.assets → unsigned_abs (at result i) ≤ 6400000000000000000000000 }
    ensures signs { (i : ℕ) → i < shift.now.assets → pos 0 ≤ℤ at result i }
{
    let mut bends = [0; 256];
    for i in 0..shift.n() {
        let value = bend(weight.p, shift.d(i));
        let place = usize::from(i);
        bends[place] = value;
    }
    bends
}
