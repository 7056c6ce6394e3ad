//! Why a run stopped while it put out bytes.

use gap_base::OutOfMemory;

/// Why a run stopped while it put out bytes.
#[derive(Clone, Copy, PartialEq, Eq, Debug)]
pub enum Halt {
    /// The file or the sink couldn't be written to.
    WriteFault,
    /// Memory was refused.
    OutOfMemory,
}

impl From<OutOfMemory> for Halt {
    ghost use Rattle.std.specs.Prelude.{◌≡◌};
    ghost use Rattle.gap_files.specs.declared.halt.Halt.TheVariants.{OutOfMemory as NoMemory};

    ghost from_gives = { λ _ halt. halt ≡ NoMemory };

    fn from(_refused: OutOfMemory) -> Halt {
        Halt::OutOfMemory
    }
}
