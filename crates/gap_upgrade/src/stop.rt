//! Why an upgrade stopped.
ghost use Rattle.std.specs.Prelude.{◌≡◌};
ghost use Rattle.gap_upgrade.specs.Stops.{stopped_by};

use gap_base::OutOfMemory;
use gap_check::CertStop;
use gap_files::Halt;
use gap_model::CertFault;

/// Why an upgrade stopped.
#[derive(Clone, Copy, PartialEq, Eq, Debug)]
pub enum Stop {
    /// The bytes are no valid certificate.
    Refused(CertFault),
    /// The certificate's file couldn't be read.
    ReadFault,
    /// The new file or the sink couldn't be written to.
    WriteFault,
    /// Memory was refused.
    OutOfMemory,
}

/// What an upgrade ends with, by what a step that puts out ended with.
pub(crate) fn stopped(put: Result<(), Halt>) -> Result<(), Stop>
    ensures { result ≡ stopped_by put }
{
    match put {
        Ok(()) => Ok(()),
        Err(Halt::WriteFault) => Err(Stop::WriteFault),
        Err(Halt::OutOfMemory) => Err(Stop::OutOfMemory),
    }
}

impl From<OutOfMemory> for Stop {
    ghost use Rattle.std.specs.Prelude.{◌≡◌};
    ghost use Rattle.gap_upgrade.specs.declared.stop.Stop.TheVariants.{OutOfMemory as NoMemory};

    ghost from_gives = { λ _ stop. stop ≡ NoMemory };

    fn from(_refused: OutOfMemory) -> Stop {
        Stop::OutOfMemory
    }
}

impl From<CertStop> for Stop {
    ghost use Rattle.std.specs.Prelude.{◌≡◌};
    ghost use Rattle.gap_upgrade.specs.Stops.{refused_by};

    ghost from_gives = { λ stop gives. gives ≡ refused_by stop };

    fn from(stop: CertStop) -> Stop {
        match stop {
            CertStop::Fault(fault) => Stop::Refused(fault),
            CertStop::OutOfMemory => Stop::OutOfMemory,
        }
    }
}
