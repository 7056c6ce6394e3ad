//! How many assets to hold.

ghost use Rattle.std.specs.Prelude.{◌≡◌, ℕ, ◌≤◌, codes, IfOk};
ghost use Rattle.serde_json.specs.View.{view};
ghost use Rattle.serde_json.specs.Find.{get};
ghost use Rattle.gap_job.specs.Held.{bounds_of, held_within, held_of};

use crate::entry::{Two, two_numbers};
use crate::{JobFault, Key};
use serde_json::Value;

/// At least `fewest` and at most `most` assets.
#[derive(Clone, Copy)]
pub struct HeldRange {
    pub fewest: u16,
    pub most: u16,
}

// The two ends that a value says: a whole number is both, and a list of exactly two has one after the other.
fn bounds(value: &Value) -> Option<Two>
    ensures { result ≡ bounds_of (view value.now) }
{
    match value.as_u64() {
        Some(number) => Some(Two {
            first: number,
            second: number,
        }),
        None => two_numbers(value),
    }
}

// The range between two ends, if it isn't empty and is within 1 to n.
#[tactic(auto, unfolding(crate::specs::Held::held_within))]
fn within(n: u16, bounds: Option<Two>) -> Result<HeldRange, JobFault>
    requires { n ≤ 256 }
    ensures value { result ≡ held_within n bounds }
    ensures range { IfOk result (λ h. (1 ≤ h.fewest) × (h.fewest ≤ h.most) × (h.most ≤ n)) }
{
    let Some(ends) = bounds else {
        return Err(JobFault::Kind(Key::Held));
    };
    if ends.first < 1 || ends.second < ends.first || u64::from(n) < ends.second {
        return Err(JobFault::Range(Key::Held));
    }
    Ok(HeldRange {
        fewest: ends.first as u16,
        most: ends.second as u16,
    })
}

/// How many of `n` assets to hold, at the key `held`, which has to stand.
pub fn read_held(object: &Value, n: u16) -> Result<HeldRange, JobFault>
    requires { n ≤ 256 }
    ensures value { result ≡ held_of n (get (codes "held") (view object.now)) }
    ensures range { IfOk result (λ h. (1 ≤ h.fewest) × (h.fewest ≤ h.most) × (h.most ≤ n)) }
{
    match object.get("held") {
        None => within(n, None),
        Some(value) => within(n, bounds(value)),
    }
}
