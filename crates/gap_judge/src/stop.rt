//! Why a checker answers no verdict.

use gap_base::OutOfMemory;
use gap_model::CertFault;
use std::alloc::{AllocError, AllocFailed};
use thiserror::Error;

/// Why a checker answers no verdict.
#[derive(Clone, Copy, PartialEq, Eq, Debug, Drop, Error)]
pub enum CertStop {
    /// The bytes are no valid certificate.
    #[error("the certificate is at fault")]
    Fault(CertFault),
    /// Memory was refused.
    #[error("out of memory")]
    OutOfMemory,
}

impl From<OutOfMemory> for CertStop {
    ghost use Rattle.std.specs.Prelude.{◌≡◌};
    ghost use Rattle.gap_judge.specs.declared.stop.CertStop.TheVariants.{OutOfMemory as Refused};

    ghost from_gives = { λ _ e. e ≡ Refused };

    fn from(_refused: OutOfMemory) -> CertStop {
        CertStop::OutOfMemory
    }
}

impl From<AllocError> for CertStop {
    ghost use Rattle.std.specs.Prelude.{◌≡◌};
    ghost use Rattle.gap_judge.specs.declared.stop.CertStop.TheVariants.{OutOfMemory as Refused};

    ghost from_gives = { λ _ e. e ≡ Refused };

    fn from(_refused: AllocError) -> CertStop {
        CertStop::OutOfMemory
    }
}

impl<T: Drop> From<AllocFailed<T>> for CertStop {
    ghost use Rattle.std.specs.Prelude.{◌≡◌};
    ghost use Rattle.gap_judge.specs.declared.stop.CertStop.TheVariants.{OutOfMemory as Refused};

    ghost from_gives = { λ _ e. e ≡ Refused };

    fn from(_refused: AllocFailed<T>) -> CertStop {
        CertStop::OutOfMemory
    }
}
