//! A sink in memory, with writes that are to fail.
ghost use Rattle.std.specs.Prelude.{Some, ◌≡◌, ◌≤◌, ◌++◌, [], IsErrOf, OnOk, OnErr};
ghost use Rattle.gap_files.specs.Outside.{Counts, Writes};
ghost use Rattle.gap_files.specs.Plan.{next_call, IsToFail};
ghost use Rattle.gap_files.specs.Sinks.{written_to, writes_failed, writes_begun, writes_to_fail, sink_now};

use crate::plan::Plan;
use crate::{Sink, Trouble};
use std::alloc::Global;

/// The bytes written, in memory, and the numbers of the writes that are to fail.
#[derive(Drop)]
pub struct MemorySink {
    bytes: Vec<u8>,
    faults: u64,
    plan: Plan,
}

impl MemorySink {
    /// Nothing was written. The writes whose numbers, counted from 1, are in `fail` are to fail.
    pub fn new(alloc: Global, fail: Vec<u64>) -> MemorySink
        ensures bytes { written_to result ≡ [] }
        ensures faults { writes_failed result ≡ 0 }
        ensures calls { writes_begun result ≡ 0 }
        ensures fail { writes_to_fail result ≡ fail.items }
    {
        MemorySink {
            bytes: Vec::new(alloc),
            faults: 0,
            plan: Plan::new(fail),
        }
    }

    /// The bytes written so far. It takes no memory.
    pub fn bytes(&self) -> &[u8]
        ensures { result.now ≡ written_to self.now }
    {
        self.bytes.as_slice()
    }
}

impl Sink for MemorySink {
    ghost sink = { sink_now };

    fn write(&mut self, bytes: &[u8]) -> Result<(), Trouble>
        ensures bytes { Writes (Some (written_to self.old)) (Some (written_to self.new)) bytes.now result }
        ensures counted { Counts (writes_failed self.old) (writes_failed self.new) result }
        ensures later { writes_failed self.old ≤ writes_failed self.new }

        // It fails at the numbered writes alone, each time, and then writes nothing.
        ensures fails { IsErrOf result Trouble.Failed → IsToFail (writes_to_fail self.old) (writes_begun self.old) }
        ensures succeeds { OnOk result (¬ (IsToFail (writes_to_fail self.old) (writes_begun self.old))) }
        ensures refused { OnErr result (written_to self.new ≡ written_to self.old) }
        ensures calls { writes_begun self.new ≡ next_call (writes_begun self.old) }
        ensures fail { writes_to_fail self.new ≡ writes_to_fail self.old }
    {
        if self.plan.begin() {
            self.faults = self.faults.saturating_add(1);
            return Err(Trouble::Failed);
        }
        match self.bytes.extend_from_slice(bytes) {
            Ok(()) => Ok(()),
            Err(_) => Err(Trouble::OutOfMemory),
        }
    }
}
