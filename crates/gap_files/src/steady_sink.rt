//! A sink in memory that never fails.
ghost use Rattle.std.specs.Prelude.{Some, ◌≡◌, [], IsErrOf};
ghost use Rattle.gap_files.specs.Outside.{Writes};
ghost use Rattle.gap_files.specs.Sinks.{steadily_written_to, steady_sink_now};

use crate::{Sink, Trouble};
use std::alloc::Global;

/// The bytes written, in memory. No write fails, and its count of faults is always 0.
#[derive(Drop)]
pub struct SteadySink {
    bytes: Vec<u8>,
}

impl SteadySink {
    /// Nothing was written.
    pub fn new(alloc: Global) -> SteadySink
        ensures { steadily_written_to result ≡ [] }
    {
        SteadySink {
            bytes: Vec::new(alloc),
        }
    }

    /// The bytes written so far. It takes no memory.
    pub fn bytes(&self) -> &[u8]
        ensures { result.now ≡ steadily_written_to self.now }
    {
        self.bytes.as_slice()
    }
}

impl Sink for SteadySink {
    ghost sink = { steady_sink_now };

    fn write(&mut self, bytes: &[u8]) -> Result<(), Trouble>
        ensures bytes { Writes (Some (steadily_written_to self.old)) (Some (steadily_written_to self.new)) bytes.now result }

        // It never fails.
        ensures steady { ¬ (IsErrOf result Trouble.Failed) }
    {
        match self.bytes.extend_from_slice(bytes) {
            Ok(()) => Ok(()),
            Err(_) => Err(Trouble::OutOfMemory),
        }
    }
}
