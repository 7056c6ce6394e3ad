//! The weights.

ghost use Rattle.std.specs.Prelude.{◌≡◌, ℕ, ◌+◌, ◌<◌, ◌≤◌, length, fold, map, codes, [], Ok, Err, nat_le, ◌&&◌, if◌then◌else◌};
ghost use Rattle.serde_json.specs.View.{view};
ghost use Rattle.serde_json.specs.Find.{get};
ghost use Rattle.gap_job.specs.Entries.{two_of, weights_after, with_weight, weights_of};
ghost use Rattle.gap_job.specs.Answers.{Steps};

use crate::entry::two_numbers;
use crate::{JobFault, Key};
use gap_base::{Weight, Weights};
use serde_json::Value;

// Takes in one entry [p, q].
#[tactic(auto, unfolding(crate::specs::Entries::weights_after))]
fn take_entry(weights: &mut Weights, entry: &Value) -> Result<(), JobFault>
    requires { length weights.old < 101 }
    ensures more { result ≡ Ok tt → length weights.new ≡ length weights.old + 1 }
    ensures step { Steps result weights.new (weights_after weights.old (two_of (view entry.now))) }
{
    let Some(numbers) = two_numbers(entry) else {
        return Err(JobFault::Kind(Key::Weights));
    };
    if numbers.second < 1 || numbers.second > 100 || numbers.first > numbers.second {
        return Err(JobFault::Range(Key::Weights));
    }
    weights.push(Weight {
        p: numbers.first as u8,
        q: numbers.second as u8,
    });
    Ok(())
}

// Whether a job may have this many weights.
fn is_count(entries: usize) -> bool
    ensures { result ≡ (nat_le 1 entries && nat_le entries 101) }
{
    1 <= entries && entries <= 101
}

// Takes in the entries of a list, 1 to 101 of them.
fn take_entries(entries: &[Value]) -> Result<Weights, JobFault>
    ensures { result ≡ (if nat_le 1 (length entries.now)
        && nat_le (length entries.now) 101 then fold with_weight (Ok []) (map view entries.now) else Err
        (JobFault.Range Key.Weights)) }
{
    if !is_count(entries.len()) {
        return Err(JobFault::Range(Key::Weights));
    }
    let mut weights = Weights::new();
    for entry in entries {
        take_entry(&mut weights, entry)?;
    }
    Ok(weights)
}

/// The weights at the key `weights`: 1 to 101 of them. Costs O(entries).
#[tactic(auto, unfolding(crate::specs::Entries::weights_of))]
pub fn read_weights(object: &Value) -> Result<Weights, JobFault>
    ensures { result ≡ weights_of (get (codes "weights") (view object.now)) }
{
    match object.get("weights") {
        None => Err(JobFault::Kind(Key::Weights)),
        Some(value) => match value.as_array() {
            None => Err(JobFault::Kind(Key::Weights)),
            Some(list) => take_entries(list.as_slice()),
        },
    }
}
