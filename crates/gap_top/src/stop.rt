//! Why a run ended before its work was done.
ghost use Rattle.std.specs.Prelude.{◌≡◌};
ghost use Rattle.gap_top.specs.Statuses.{status_number};

use gap_base::OutOfMemory;
use gap_words::Refusal;

/// Why a run ended before its work was done.
#[derive(Clone, Copy, PartialEq, Eq, Debug)]
pub enum Stop {
    /// What was asked for is refused.
    Refused(Refusal),
    /// A file couldn't be read.
    ReadFault,
    /// The sink couldn't be written to.
    WriteFault,
    /// Memory was refused.
    OutOfMemory,
}

/// The exit status of a run.
pub(crate) fn status_of(ended: Result<(), Stop>) -> u8
    ensures { result ≡ status_number ended }
{
    match ended {
        Ok(()) => 0,
        Err(Stop::Refused(refusal)) => refusal.status(),
        Err(Stop::ReadFault) => 3,
        Err(Stop::WriteFault) => 4,
        Err(Stop::OutOfMemory) => 1,
    }
}

impl From<OutOfMemory> for Stop {
    ghost use Rattle.std.specs.Prelude.{◌≡◌};
    ghost use Rattle.gap_top.specs.declared.stop.Stop.TheVariants.{OutOfMemory as NoMemory};

    ghost from_gives = { λ _ stop. stop ≡ NoMemory };

    fn from(_refused: OutOfMemory) -> Stop {
        Stop::OutOfMemory
    }
}
