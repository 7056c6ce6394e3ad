//! The line of a job file that is refused.
ghost use Rattle.std.specs.Prelude.{◌≡◌, IfOk};
ghost use Rattle.std.specs.String.{string_bytes};
ghost use Rattle.gap_words.specs.Lines.{key_word, keyed_text, unknown_text, job_line};

use gap_base::OutOfMemory;
use gap_job::{JobFault, Key};
use std::alloc::Global;

/// The line of a fault of this kind at this key.
#[tactic(auto, unfolding(crate::specs::Lines::keyed_text))]
pub(crate) fn keyed_line(alloc: Global, kind: &str, key: &str) -> Result<String, OutOfMemory>
    ensures { IfOk result (λ line. string_bytes line ≡ keyed_text kind.now key.now) }
{
    Ok(format!(in alloc; "job {kind} {key}\n")?)
}

/// The line of a key that no job has, by its rank.
#[tactic(auto, unfolding(crate::specs::Lines::unknown_text))]
fn unknown_line(alloc: Global, rank: u32) -> Result<String, OutOfMemory>
    ensures { IfOk result (λ line. string_bytes line ≡ unknown_text rank) }
{
    Ok(format!(in alloc; "job Unknown {rank}\n")?)
}

/// A key as a job file writes it.
fn key_word(key: Key) -> &'static str
    ensures { result.now ≡ key_word key }
{
    match key {
        Key::Lots => "lots",
        Key::Held => "held",
        Key::Least => "least",
        Key::Greatest => "greatest",
        Key::Limits => "limits",
        Key::Present => "present",
        Key::Turnover => "turnover",
        Key::Weights => "weights",
        Key::Nodes => "nodes",
        Key::Workers => "workers",
    }
}

/// The line of a job file with this fault.
pub(crate) fn job_line(alloc: Global, fault: JobFault) -> Result<String, OutOfMemory>
    ensures { IfOk result (λ line. string_bytes line ≡ job_line fault) }
{
    match fault {
        JobFault::TooLong => Ok(String::from_str(alloc, "job TooLong\n")?),
        JobFault::NotJson => Ok(String::from_str(alloc, "job NotJson\n")?),
        JobFault::NotObject => Ok(String::from_str(alloc, "job NotObject\n")?),
        JobFault::Unknown(rank) => unknown_line(alloc, rank),
        JobFault::Kind(key) => keyed_line(alloc, "Kind", key_word(key)),
        JobFault::Range(key) => keyed_line(alloc, "Range", key_word(key)),
        JobFault::Asset(key) => keyed_line(alloc, "Asset", key_word(key)),
    }
}
