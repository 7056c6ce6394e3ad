//! The job of a job file.
ghost use Rattle.std.specs.Prelude.{◌≡◌, ◌<◌, ◌≤◌, length, IfOk};
ghost use Rattle.gap_job.specs.Ranges.{IsJob};
ghost use Rattle.gap_rule.specs.Rules.{job_ruling};
ghost use Rattle.gap_rule.specs.Steps.{IsLooked, TellsRuling, HaltCause, MayHalt, IsOfJob};

use crate::consumer::{Consumer, ReadStop};
use crate::reading::read_file;
use crate::stop::Halt;
use gap_base::Job;
use gap_files::Files;
use gap_job::{JobFault, JobStop, read_job};
use gap_words::Refusal;
use std::alloc::Global;

/// The most bytes of a job file.
const LONGEST: u64 = 1_048_576;

/// A file has more bytes than it may have.
#[derive(Clone, Copy)]
struct TooLong;

/// The bytes of a job file.
#[derive(Drop)]
struct JobFile {
    bytes: Vec<u8>,
}

impl Consumer for JobFile {
    type Made = JobFile;

    type Fault = TooLong;

    ghost use Rattle.std.specs.Prelude.{◌≡◌};
    ghost use Rattle.gap_rule.specs.Reading.{IsWithin};

    ghost MOST = { 1048576 };

    const MOST: u64 = LONGEST;

    ghost has_read = { λ file fed. file.bytes.items ≡ fed };

    ghost said = { IsWithin 1048576 };

    fn feed(&mut self, piece: &[u8]) -> Result<(), ReadStop<TooLong>> {
        if LONGEST < self.bytes.len() as u64 + piece.len() as u64 {
            return Err(ReadStop::Refused(TooLong));
        }
        match self.bytes.extend_from_slice(piece) {
            Ok(()) => Ok(()),
            Err(_) => Err(ReadStop::OutOfMemory),
        }
    }

    fn finish(self) -> Result<JobFile, ReadStop<TooLong>> {
        Ok(self)
    }
}

/// The job for `n` assets of the bytes of a job file.
fn job_of(alloc: Global, bytes: &[u8], n: u16) -> Result<Job, Halt>
    requires few { 2 ≤ n }
    requires many { n ≤ 256 }
    ensures tells { TellsRuling (λ r. r ≡ job_ruling n bytes.now) result }
    ensures calm { HaltCause ⊥ result }
    ensures halts { MayHalt IsOfJob result }
    ensures ranges { IfOk result (IsJob n) }
{
    match read_job(alloc, bytes, n) {
        Ok(job) => Ok(job),
        Err(JobStop::Fault(fault)) => Err(Halt::Refused(Refusal::Job(fault))),
        Err(JobStop::OutOfMemory) => Err(Halt::OutOfMemory),
    }
}

/// Reads the job for `n` assets of a job file. It keeps the bytes of the file, of which it reads at most 1048577.
pub(crate) fn read_job_for<F: Files>(
    alloc: Global,
    files: &mut F,
    name: &str,
    n: u16,
) -> Result<Job, Halt>
    requires few { 2 ≤ n }
    requires many { n ≤ 256 }
    ensures looked { IsLooked name.now (λ bytes r. r ≡ job_ruling n bytes) (F.files files.old) (F.files files.new) result }
    ensures halts { MayHalt IsOfJob result }
    ensures ranges { IfOk result (IsJob n) }
{
    let file = JobFile {
        bytes: Vec::new(alloc),
    };
    match read_file(alloc, files, name, file) {
        Ok(file) => job_of(alloc, &file.bytes, n),
        Err(ReadStop::Refused(_)) => Err(Halt::Refused(Refusal::Job(JobFault::TooLong))),
        Err(ReadStop::ReadFault) => Err(Halt::ReadFault),
        Err(ReadStop::OutOfMemory) => Err(Halt::OutOfMemory),
    }
}
