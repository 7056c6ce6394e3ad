//! Whole numbers in a job.

ghost use Rattle.std.specs.Prelude.{◌≡◌, ℕ, ◌≤◌, IfOk, IfSome};
ghost use Rattle.std.specs.Option.{ForSome};
ghost use Rattle.serde_json.specs.View.{view};
ghost use Rattle.serde_json.specs.Find.{get, at};
ghost use Rattle.gap_job.specs.Numbers.{number_of, number_at, in_range, needed, number_or, number_if};

use crate::{JobFault, Key};
use serde_json::Value;

/// The whole number at place `i` of a list.
pub fn number_at(value: &Value, i: usize) -> Option<u64>
    ensures { result ≡ number_at i (view value.now) }
{
    value.get(i).and_then(Value::as_u64)
}

// The value, if it is a whole number from `low` to `high`.
#[tactic(auto, unfolding(crate::specs::Numbers::in_range))]
fn in_range(key: Key, low: u32, high: u32, value: &Value) -> Result<u32, JobFault>
    ensures value { result ≡ in_range key low high (number_of (view value.now)) }
    ensures range { IfOk result (λ v. (low ≤ v) × (v ≤ high)) }
{
    match value.as_u64() {
        None => Err(JobFault::Kind(key)),
        Some(v) if u64::from(low) <= v && v <= u64::from(high) => Ok(v as u32),
        Some(_) => Err(JobFault::Range(key)),
    }
}

/// The number at a key that has to stand.
pub fn needed(object: &Value, name: &str, key: Key, low: u32, high: u32) -> Result<u32, JobFault>
    ensures value { result ≡ needed key low high (get name.now (view object.now)) }
    ensures range { IfOk result (λ v. (low ≤ v) × (v ≤ high)) }
{
    match object.get(name) {
        None => Err(JobFault::Kind(key)),
        Some(value) => in_range(key, low, high, value),
    }
}

/// The number at a key, or `absent` where the key is.
pub fn number_or(
    object: &Value,
    name: &str,
    key: Key,
    low: u32,
    high: u32,
    absent: u32,
) -> Result<u32, JobFault>
    requires least { low ≤ absent }
    requires most { absent ≤ high }
    ensures value { result ≡ number_or key low high absent (get name.now (view object.now)) }
    ensures range { IfOk result (λ v. (low ≤ v) × (v ≤ high)) }
{
    match object.get(name) {
        None => Ok(absent),
        Some(value) => in_range(key, low, high, value),
    }
}

/// The number at a key, if it stands.
pub fn number_if(
    object: &Value,
    name: &str,
    key: Key,
    low: u32,
    high: u32,
) -> Result<Option<u32>, JobFault>
    ensures value { result ≡ number_if key low high (get name.now (view object.now)) }
    ensures range { IfOk result (λ o. ForSome o (λ v. (low ≤ v) × (v ≤ high))) }
{
    match object.get(name) {
        None => Ok(None),
        Some(value) => {
            let number = in_range(key, low, high, value)?;
            Ok(Some(number))
        }
    }
}
