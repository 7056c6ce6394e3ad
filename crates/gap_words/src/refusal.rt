//! Refusals, each with its line and its exit status.
ghost use Rattle.std.specs.Prelude.{◌≡◌, IfOk};
ghost use Rattle.std.specs.String.{string_bytes};
ghost use Rattle.gap_words.specs.Refusals.{refusal_line, refusal_status};

use crate::cert_line::cert_line;
use crate::job_line::{job_line, keyed_line};
use crate::port_line::port_line;
use gap_base::OutOfMemory;
use gap_job::JobFault;
use gap_model::CertFault;
use gap_orlib::PortFault;
use gap_verify::Difference;
use std::alloc::Global;

/// Why nothing was done.
#[derive(Clone, Copy, PartialEq, Eq, Debug)]
pub enum Refusal {
    /// The words are in the form of no command.
    Words,
    /// The port file is no market.
    Port(PortFault),
    /// The job file is no job for the market.
    Job(JobFault),
    /// More assets are to be held than there are.
    HeldRange,
    /// The certificate isn't valid.
    Certificate(CertFault),
    /// The certificate isn't of the market and the job.
    Differs(Difference),
}

impl Refusal {
    /// The line that says why, with its line feed. One line of `docs/FORMATS.md`.
    pub fn line(self, alloc: Global) -> Result<String, OutOfMemory>
        ensures { IfOk result (λ line. string_bytes line ≡ refusal_line self) }
    {
        match self {
            Refusal::Words => Ok(String::from_str(
                alloc,
                "usage: portgap quick PORT HELD LOTS P Q NODES | solve PORT JOB CERT | check CERT | verify PORT JOB CERT | demo NUMBER N HELD LOTS NODES | upgrade CERT NEW\n",
            )?),
            Refusal::Port(fault) => port_line(alloc, fault),
            Refusal::Job(fault) => job_line(alloc, fault),
            Refusal::HeldRange => keyed_line(alloc, "Range", "held"),
            Refusal::Certificate(fault) => cert_line(alloc, fault),
            Refusal::Differs(difference) => difference.line(alloc),
        }
    }

    /// The exit status that it stands for.
    pub fn status(self) -> u8
        ensures { result ≡ refusal_status self }
    {
        match self {
            Refusal::Words => 2,
            Refusal::Port(_) => 5,
            Refusal::Job(_) | Refusal::HeldRange => 6,
            Refusal::Certificate(_) => 7,
            Refusal::Differs(_) => 8,
        }
    }
}
