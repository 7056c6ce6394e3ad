//! Why a reading ends without a job.

use thiserror::Error;

/// The keys of a job, in the order in which they are judged.
#[derive(Clone, Copy, PartialEq, Eq, Debug)]
pub enum Key {
    Lots,
    Held,
    Least,
    Greatest,
    Limits,
    Present,
    Turnover,
    Weights,
    Nodes,
    Workers,
}

/// What is wrong with a job: the first fault in the order of these variants, and among keys in theirs.
#[derive(Clone, Copy, PartialEq, Eq, Debug)]
pub enum JobFault {
    /// The file has more than 1048576 bytes.
    TooLong,
    /// The bytes are no JSON text.
    NotJson,
    /// The JSON text is no object.
    NotObject,
    /// The object has a key that no job has; its rank among all keys in the order of their bytes, from 0.
    Unknown(u32),
    /// The value at the key, or an entry of it, is of the wrong kind, or a key that has to stand is absent.
    Kind(Key),
    /// A number at the key is out of its range, or its list has too few or too many entries.
    Range(Key),
    /// An entry at the key names no asset, or one that an earlier entry named.
    Asset(Key),
}

/// Why a reading ends without a job.
#[derive(Clone, Copy, PartialEq, Eq, Debug, Drop, Error)]
pub enum JobStop {
    /// The bytes are no job.
    #[error("the job file is at fault")]
    Fault(JobFault),
    /// Memory was refused.
    #[error("out of memory")]
    OutOfMemory,
}

impl From<JobFault> for JobStop {
    ghost use Rattle.std.specs.Prelude.{◌≡◌};
    ghost use Rattle.gap_job.specs.declared.fault.JobStop.TheVariants.{Fault};

    ghost from_gives = { λ fault stop. stop ≡ Fault fault };

    fn from(fault: JobFault) -> JobStop {
        JobStop::Fault(fault)
    }
}
