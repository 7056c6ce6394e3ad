//! The job of a file.

ghost use Rattle.std.specs.Prelude.{◌≡◌, ℕ, ◌<◌, ◌≤◌, length, nat_lt, min, map, string_bytes, Some, None, Ok, Err, if◌then◌else◌, IfOk};
ghost use Rattle.std.specs.BTreeMap.{keys};
ghost use Rattle.serde_json.specs.Data.{Data};
ghost use Rattle.serde_json.specs.View.{view};
ghost use Rattle.serde_json.specs.Find.{as_object};
ghost use Rattle.gap_job.specs.Jobs.{is_known, first_unknown, job_of, job_of_object, reading, job_in};
ghost use Rattle.gap_job.specs.Answers.{Answers, ReadsText};
ghost use Rattle.gap_job.specs.Ranges.{IsJob};
ghost use Rattle.gap_job.specs.Words.{SaysJob};

use crate::held::read_held;
use crate::limits::read_limits;
use crate::number::{needed, number_if, number_or};
use crate::present::read_present;
use crate::weights::read_weights;
use crate::{JobFault, JobStop, Key};
use gap_base::Job;
use serde_json::{Map, Value};
use std::alloc::Global;

// The job of an object, or the first fault in the order of the keys.
#[tactic(auto, unfolding(crate::specs::Jobs::job_of))]
fn job_of(object: &Value, n: u16) -> Result<Job, JobFault>
    requires few { 2 ≤ n }
    requires many { n ≤ 256 }
    ensures job { result ≡ job_of n (view object.now) }
    ensures says { IfOk result (SaysJob n (view object.now)) }
    ensures ranges { IfOk result (IsJob n) }
{
    let lots = needed(object, "lots", Key::Lots, 1, 10_000)?;
    let held = read_held(object, n)?;
    let least = number_or(object, "least", Key::Least, 1, lots, 1)?;
    let greatest = number_or(object, "greatest", Key::Greatest, 1, lots, lots)?;
    let limits = read_limits(object, n, lots as u16, least as u16, greatest as u16)?;
    let present = read_present(object, n)?;
    let turnover = number_if(object, "turnover", Key::Turnover, 0, 3_000_000)?;
    let weights = read_weights(object)?;
    let nodes = number_or(object, "nodes", Key::Nodes, 0, 100_000, 1_000)?;
    let workers = number_or(object, "workers", Key::Workers, 1, 16, 1)?;
    Ok(Job {
        lots: lots as u16,
        held: held.fewest,
        held_most: held.most,
        least: limits.least,
        greatest: limits.greatest,
        present: present.lots,
        turnover,
        weights,
        nodes,
        workers: workers as u8,
    })
}

// Whether a job may have this key.
#[tactic(auto, unfolding(crate::specs::Jobs::is_known))]
fn is_known(name: &str) -> bool
    ensures { result ≡ is_known name.now }
{
    name == "lots"
        || name == "held"
        || name == "least"
        || name == "greatest"
        || name == "limits"
        || name == "present"
        || name == "turnover"
        || name == "weights"
        || name == "nodes"
        || name == "workers"
}

// The rank of the first key that no job has, among all keys in the order of their bytes.
fn first_unknown(members: &Map<String, Value>) -> Option<usize>
    ensures { result ≡ (if nat_lt (first_unknown (map string_bytes (keys members.now))) (length (keys members.now))
        then Some (first_unknown (map string_bytes (keys members.now))) else None) }
{
    members.keys().position(|name| !is_known(name.as_str()))
}

// The rank as a fault says it.
fn capped(rank: usize) -> u32
    ensures { result ≡ min rank 4294967295 }
{
    if rank < 4_294_967_295 {
        rank as u32
    } else {
        4_294_967_295
    }
}

// The job of a value, or its first fault.
#[tactic(auto, unfolding(crate::specs::Jobs::job_of_object))]
fn job_of_value(value: &Value, n: u16) -> Result<Job, JobFault>
    requires few { 2 ≤ n }
    requires many { n ≤ 256 }
    ensures job { result ≡ job_of_object n (view value.now) (as_object (view value.now)) }
    ensures says { IfOk result (SaysJob n (view value.now)) }
    ensures ranges { IfOk result (IsJob n) }
{
    let Some(members) = value.as_object() else {
        return Err(JobFault::NotObject);
    };
    match first_unknown(members) {
        Some(rank) => Err(JobFault::Unknown(capped(rank))),
        None => job_of(value, n),
    }
}

// The value of a JSON text.
#[tactic(auto, unfolding(crate::specs::Jobs::reading))]
fn parse(alloc: Global, bytes: &[u8]) -> Result<Value, JobStop>
    ensures { ReadsText (reading bytes.now) result }
{
    let Ok(text) = str::from_utf8(bytes) else {
        return Err(JobStop::Fault(JobFault::NotJson));
    };
    match Value::from_str(alloc, text) {
        Ok(value) => Ok(value),
        Err(error) if error.is_memory() => Err(JobStop::OutOfMemory),
        Err(_) => Err(JobStop::Fault(JobFault::NotJson)),
    }
}

// A job file has no more bytes than these.
const LONGEST: usize = 1_048_576;

/// The job of `n` assets, 2 to 256, that a file of these bytes says, exactly where there is one; else its first fault,
/// or want of memory. `NotJson` comes exactly where the bytes aren't UTF-8 or `serde_json` states no reading of them:
/// also where lists and objects nest more than 127 deep or a number is too great for a double. Of a key that stands
/// twice the last value is taken. Costs one pass over the bytes and O(n + entries).
#[tactic(auto, unfolding(crate::specs::Jobs::job_in))]
pub fn read_job(alloc: Global, bytes: &[u8], n: u16) -> Result<Job, JobStop>
    requires few { 2 ≤ n }
    requires many { n ≤ 256 }
    ensures job { Answers (job_in n bytes.now) result }
    ensures says { IfOk result (λ job. (d : Data) → reading bytes.now ≡ Some d → SaysJob n d job) }
    ensures ranges { IfOk result (IsJob n) }
{
    if bytes.len() > LONGEST {
        return Err(JobStop::Fault(JobFault::TooLong));
    }
    let value = parse(alloc, bytes)?;
    let job = job_of_value(&value, n)?;
    Ok(job)
}
