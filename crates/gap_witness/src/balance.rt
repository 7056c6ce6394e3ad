//! The point from which the rounds begin.

ghost use Rattle.std.specs.Prelude.{◌≡◌, ℕ, ◌+◌, ◌-◌, ◌*◌, ◌<◌, ◌≤◌, min, length, sum, slice_index_or};
ghost use Rattle.gap_witness.specs.Places.{table};
ghost use Rattle.gap_witness.specs.Points.{clamped, lower_end, upper_end, first_point};
ghost use Rattle.gap_witness.specs.Frames.{setting_in, choice_in};

use crate::frame::Frame;
use crate::range::{brought, lower, upper};
use crate::reading::budget;
use gap_base::Eighths;

/// The sum of the hint's eighths, each brought into its range.
fn total(frame: &Frame<'_>, hint: &Eighths) -> u32
    requires { length hint.now ≡ length frame.now.part.now }
    ensures value { result ≡ sum (table (length frame.now.part.now) (clamped (choice_in frame.now) hint.now)) }
    ensures most { result ≤ 256 * 80000 }
{
    let mut sum = 0;
    for i in 0..frame.part.len() {
        sum += brought(frame, hint, i);
    }
    sum
}

/// The hint in its ranges and, in rising asset number, raised or lowered to a sum of 8L eighths as far as these allow.
/// Two passes.
pub(crate) fn balanced_point(frame: &Frame<'_>, hint: &Eighths) -> Eighths
    requires { length hint.now ≡ length frame.now.part.now }
    ensures value { result ≡ first_point (setting_in frame.now) (choice_in frame.now) hint.now }
    ensures same { length result ≡ length frame.now.part.now }
    ensures most { (k : ℕ) → slice_index_or result k 0 ≤ 80000 }
{
    let budget = budget(frame);
    let sum = total(frame, hint);
    let mut missing = budget.saturating_sub(sum);
    let mut surplus = sum.saturating_sub(budget);
    let mut y = Eighths::zeros(frame.part.len());
    for i in 0..frame.part.len() {
        let v = brought(frame, hint, i);
        let above = upper(frame, i).saturating_sub(v);
        let below = v.saturating_sub(lower(frame, i));
        y.set(i, v + above.min(missing) - below.min(surplus));
        missing = missing.saturating_sub(above);
        surplus = surplus.saturating_sub(below);
    }
    y
}
