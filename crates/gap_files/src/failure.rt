//! Why a call on a file of the system failed, for a message.

use std::alloc::Global;
use std::fmt::{self, Display, Formatter};
use std::io;

/// A call that failed: the name of its file, and the system's reason. Displayed as both with a colon between.
#[derive(Drop)]
pub struct Failure {
    name: String,
    reason: io::Error,
}

impl Failure {
    /// A failure of a call on the file `name`; None where memory for the name is refused.
    pub(crate) fn of(alloc: Global, name: &str, reason: io::Error) -> Option<Failure> {
        match String::from_str(alloc, name) {
            Ok(name) => Some(Failure { name, reason }),
            Err(_) => None,
        }
    }
}

impl Display for Failure {
    fn fmt<W: fmt::Write>(&self, f: &mut Formatter<W>) -> fmt::Result {
        write!(f, "{}: {}", self.name, self.reason)
    }
}
