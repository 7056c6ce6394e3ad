//! Why nothing is to be done.
ghost use Rattle.std.specs.Prelude.{◌≡◌};

use gap_base::OutOfMemory;
use gap_words::Refusal;

/// Why a ruling names nothing to be done.
#[derive(Clone, Copy, PartialEq, Eq, Debug)]
pub enum Halt {
    /// What was asked for is refused.
    Refused(Refusal),
    /// A file couldn't be read.
    ReadFault,
    /// Memory was refused.
    OutOfMemory,
}

impl From<OutOfMemory> for Halt {
    ghost use Rattle.std.specs.Prelude.{◌≡◌};
    ghost use Rattle.gap_rule.specs.declared.stop.Halt.TheVariants.{OutOfMemory as NoMemory};

    ghost from_gives = { λ _ halt. halt ≡ NoMemory };

    fn from(_refused: OutOfMemory) -> Halt {
        Halt::OutOfMemory
    }
}
