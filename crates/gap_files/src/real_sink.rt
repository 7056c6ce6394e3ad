//! Standard output, through std.
ghost use Rattle.std.specs.Prelude.{◌≡◌, None};

use crate::{Sink, Trouble};
use std::io;
use std::io::Print;

/// Standard output, reached through the runtime of `main`. What it takes isn't told: that it passes the bytes on is
/// not proved.
#[derive(Drop)]
pub struct RealSink<'a, R: Print> {
    rt: &'a R,
    faults: u64,
    failure: Option<io::Error>,
}

impl<'a, R: Print> RealSink<'a, R> {
    /// The standard output that `rt` reaches, with its count at 0.
    pub fn new(rt: &'a R) -> RealSink<'a, R>
        ensures { (⟦<RealSink<'a, R> as Sink>⟧.sink result).faults ≡ 0 }
    {
        RealSink {
            rt,
            faults: 0,
            failure: None,
        }
    }

    /// The system's reason for the last write that failed, for a message; None where none has.
    pub fn failure(&self) -> Option<&io::Error> {
        self.failure.as_ref()
    }

    // Writes until all is taken.
    fn write_all(&self, bytes: &[u8]) -> io::Result<()> {
        let mut done = 0;
        while done < bytes.len() {
            match self.rt.write_some(&bytes[done..])? {
                0 => return Err(io::Error::from(io::ErrorKind::WriteZero)),
                more => done += more,
            }
        }
        Ok(())
    }
}

impl<R: Print> Sink for RealSink<'_, R> {
    ghost sink = { λ sink. record { written = None; faults = sink.faults } };

    fn write(&mut self, bytes: &[u8]) -> Result<(), Trouble> {
        match self.write_all(bytes) {
            Ok(()) => Ok(()),
            Err(error) => {
                self.failure = Some(error);
                self.faults = self.faults.saturating_add(1);
                Err(Trouble::Failed)
            }
        }
    }
}
