//! The certificate of one file, written in version 2 to another: read and checked while its items are appended, then the
//! report of what it tells, and the end mark last.
#![tactic(auto)]

ghost use Rattle.gap_upgrade.specs.Upgrading.{Upgrades};

mod closing;
mod copier;
mod copying;
mod laws;
mod pouring;
mod stop;

use crate::closing::close;
use crate::copying::copy;
pub use crate::laws::{upgrades_encode, upgrades_stop_in_fronts};
pub use crate::stop::Stop;
use crate::stop::stopped;
use gap_files::{Files, Sink, start};
use std::alloc::Global;

/// Writes the certificate of the file `cert` to the file `new` in version 2.
///
/// It does in this order: `new` is made empty; `cert` is read and checked, in pieces of 65536 bytes, while each of its
/// items but the end mark is appended to `new`; once the whole is accepted, the report of what it tells is written; and
/// last the end mark is appended. It keeps a piece of either file, an item, and what a checker keeps.
///
/// # Errors
/// `Refused` with the first fault of the bytes, which doesn't come where they encode a valid certificate. `ReadFault` only
/// where the count of read faults of `cert` rose. `WriteFault` only where the sink's count of faults rose, or the count of
/// write faults of `new`. `OutOfMemory`. Before the certificate was accepted nothing is written to the sink. What was put
/// out is a front of what is due; behind the start of `new` its bytes are a proper front of the certificate.
pub fn upgrade<F: Files, S: Sink>(
    alloc: Global,
    cert: &str,
    new: &str,
    files: &mut F,
    out: &mut S,
) -> Result<(), Stop>
    ensures { Upgrades cert.now new.now (F.files files.old) (S.sink out.old) (F.files files.new) (S.sink out.new) result }
{
    stopped(start(files, new))?;
    let verdict = copy(alloc, cert, new, files)?;
    stopped(close(alloc, &verdict, new, files, out))
}
