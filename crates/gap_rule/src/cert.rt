//! The verdict of a certificate.
ghost use Rattle.std.specs.Prelude.{◌≡◌, IfOk};
ghost use Rattle.gap_rule.specs.Certificates.{WasAccepted, RulesCertificate};
ghost use Rattle.gap_rule.specs.Steps.{IsLooked, MayHalt, IsOfCertificate};

use crate::consumer::{Consumer, ReadStop};
use crate::reading::read_file;
use crate::stop::Halt;
use gap_check::{CertStop, Checker, Verdict};
use gap_files::Files;
use gap_model::CertFault;
use gap_words::Refusal;
use std::alloc::Global;

/// The most bytes of a certificate that are read; the longest valid one has fewer than a fiftieth of them.
const LONGEST: u64 = 1_099_511_627_775;

/// The checker of a certificate as a consumer of its bytes, and how many it took in.
#[derive(Drop)]
struct CertFile {
    checker: Checker,
    fed: u64,
}

impl Consumer for CertFile {
    type Made = Verdict;

    type Fault = CertFault;

    ghost use Rattle.gap_rule.specs.Certificates.{SaysCertificate, IsTakenIn};

    ghost MOST = { 1099511627775 };

    const MOST: u64 = LONGEST;

    ghost has_read = { λ file. IsTakenIn file.checker file.fed };

    ghost said = { SaysCertificate };

    fn feed(&mut self, piece: &[u8]) -> Result<(), ReadStop<CertFault>> {
        match self.checker.feed(piece) {
            Ok(()) => {}
            Err(CertStop::Fault(fault)) => return Err(ReadStop::Refused(fault)),
            Err(CertStop::OutOfMemory) => return Err(ReadStop::OutOfMemory),
        }
        let size = piece.len() as u64;
        if LONGEST < size || LONGEST - size < self.fed {
            return Err(ReadStop::OutOfMemory);
        }
        self.fed += size;
        Ok(())
    }

    fn finish(self) -> Result<Verdict, ReadStop<CertFault>> {
        match self.checker.finish() {
            Ok(verdict) => Ok(verdict),
            Err(CertStop::Fault(fault)) => Err(ReadStop::Refused(fault)),
            Err(CertStop::OutOfMemory) => Err(ReadStop::OutOfMemory),
        }
    }
}

/// Checks the certificate of a file, up to its first fault. One pass over its bytes, of which it keeps a piece; where it
/// would have to read more than 2^40 of them, which no certificate has, the answer is want of memory.
pub(crate) fn read_certificate<F: Files>(
    alloc: Global,
    files: &mut F,
    name: &str,
) -> Result<Verdict, Halt>
    ensures looked { IsLooked name.now RulesCertificate (F.files files.old) (F.files files.new) result }
    ensures halts { MayHalt IsOfCertificate result }
    ensures accepted { IfOk result WasAccepted }
{
    let file = CertFile {
        checker: Checker::new(alloc),
        fed: 0,
    };
    match read_file(alloc, files, name, file) {
        Ok(verdict) => Ok(verdict),
        Err(ReadStop::Refused(fault)) => Err(Halt::Refused(Refusal::Certificate(fault))),
        Err(ReadStop::ReadFault) => Err(Halt::ReadFault),
        Err(ReadStop::OutOfMemory) => Err(Halt::OutOfMemory),
    }
}
