//! Faults as answers.

ghost use Rattle.std.specs.Prelude.{◌≡◌, Err};

use crate::stop::CertStop;
use gap_model::{CertFault, CertKind};

/// A fault at a place.
pub(crate) fn fault<T>(place: u64, kind: CertKind) -> Result<T, CertStop>
    ensures { result ≡ Err (CertStop.Fault (record { place = place; kind = kind })) }
{
    Err(CertStop::Fault(CertFault { place, kind }))
}
