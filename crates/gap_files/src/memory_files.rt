//! Files in memory, with calls that are to fail.
ghost use Rattle.std.specs.Prelude.{Some, None, ◌≡◌, ◌≤◌, ◌⊎◌, List, ℕ, length, IfOk, IfSome, IsErrOf, IsSome, OnOk, OnErr};
ghost use Rattle.std.specs.Option.{option_map};
ghost use Rattle.gap_files.specs.Outside.{Counts, NoneFell, SameElsewhere, SameEverywhere, ReadsAt, Starts, Appends, bytes_of};
ghost use Rattle.gap_files.specs.Plan.{next_call, IsToFail};
ghost use Rattle.gap_files.specs.Store.{Copies};
ghost use Rattle.gap_files.specs.Memory.{held_by, reads_failed, file_writes_failed, calls_begun, calls_to_fail, files_now};

use crate::plan::Plan;
use crate::store::{Store, copy_from};
use crate::{Files, Tally, Trouble};
use gap_base::OutOfMemory;
use std::alloc::Global;

/// Named contents in memory, and the numbers of the calls that are to fail, counted over reads, starts and appends. A read
/// of a missing file fails too, and nothing else does.
#[derive(Drop)]
pub struct MemoryFiles {
    store: Store,
    reads: Tally,
    writes: Tally,
    plan: Plan,
}

impl MemoryFiles {
    /// No files. The calls whose numbers, counted from 1, are in `fail` are to fail.
    pub fn new(alloc: Global, fail: Vec<u64>) -> MemoryFiles
        ensures files { (name : List ℕ) → held_by result name ≡ None }
        ensures faults { (name : List ℕ) → reads_failed result name ≡ 0 }
        ensures writes { (name : List ℕ) → file_writes_failed result name ≡ 0 }
        ensures calls { calls_begun result ≡ 0 }
        ensures fail { calls_to_fail result ≡ fail.items }
    {
        MemoryFiles {
            store: Store::new(alloc),
            reads: Tally::new(alloc),
            writes: Tally::new(alloc),
            plan: Plan::new(fail),
        }
    }

    /// Makes `bytes` the content of the file `name`. It counts as no call.
    ///
    /// # Errors
    /// `OutOfMemory`, after which every file is as before.
    pub fn put(&mut self, name: &str, bytes: &[u8]) -> Result<(), OutOfMemory>
        ensures put { OnOk result (held_by self.new name.now ≡ Some bytes.now) }
        ensures others { SameElsewhere name.now (held_by self.old) (held_by self.new) }
        ensures refused { OnErr result (SameEverywhere (held_by self.old) (held_by self.new)) }
        ensures faults { SameEverywhere (reads_failed self.old) (reads_failed self.new) }
        ensures writes { SameEverywhere (file_writes_failed self.old) (file_writes_failed self.new) }
        ensures calls { calls_begun self.new ≡ calls_begun self.old }
        ensures fail { calls_to_fail self.new ≡ calls_to_fail self.old }
    {
        self.store.put(name, bytes)
    }

    /// The content of the file `name`, None exactly where it is missing. It counts as no call and takes no memory.
    pub fn content(&self, name: &str) -> Option<&[u8]>
        ensures { option_map (λ bytes. bytes.now) result ≡ held_by self.now name.now }
    {
        self.store.content(name)
    }
}

impl Files for MemoryFiles {
    ghost files = { files_now };

    fn read_at(&mut self, name: &str, at: u64, buf: &mut [u8]) -> Result<usize, Trouble>
        ensures within { IfOk result (λ count. count ≤ length buf.new) }
        ensures bytes { IfOk result (ReadsAt (bytes_of (held_by self.old name.now)) at buf.new) }
        ensures contents { SameEverywhere (held_by self.old) (held_by self.new) }
        ensures counted { Counts (reads_failed self.old name.now) (reads_failed self.new name.now) result }
        ensures later { NoneFell (reads_failed self.old) (reads_failed self.new) }
        ensures others { SameElsewhere name.now (reads_failed self.old) (reads_failed self.new) }
        ensures writes { SameEverywhere (file_writes_failed self.old) (file_writes_failed self.new) }

        // As much is read as fits, and it fails only at a numbered call or a missing file, where it never succeeds.
        ensures copied { IfOk result
            (λ count. IfSome (held_by self.old name.now) (λ held. Copies held at buf.old buf.new count)) }
        ensures fails { IsErrOf result Trouble.Failed
            → IsToFail (calls_to_fail self.old) (calls_begun self.old) ⊎ (held_by self.old name.now ≡ None) }
        ensures succeeds { OnOk result
            (¬ (IsToFail (calls_to_fail self.old) (calls_begun self.old)) × IsSome (held_by self.old name.now)) }
        ensures calls { calls_begun self.new ≡ next_call (calls_begun self.old) }
        ensures fail { calls_to_fail self.new ≡ calls_to_fail self.old }
    {
        if self.plan.begin() {
            return Err(self.reads.fault(name));
        }
        match self.store.content(name) {
            Some(held) => Ok(copy_from(held, at, buf)),
            None => Err(self.reads.fault(name)),
        }
    }

    fn start(&mut self, name: &str) -> Result<(), Trouble>
        ensures bytes { Starts (Some (held_by self.old name.now)) (Some (held_by self.new name.now)) result }
        ensures contents { SameElsewhere name.now (files_now self.old).content (files_now self.new).content }
        ensures counted { Counts (file_writes_failed self.old name.now) (file_writes_failed self.new name.now) result }
        ensures later { NoneFell (file_writes_failed self.old) (file_writes_failed self.new) }
        ensures others { SameElsewhere name.now (file_writes_failed self.old) (file_writes_failed self.new) }
        ensures reads { SameEverywhere (reads_failed self.old) (reads_failed self.new) }

        // It fails at a numbered call alone, each time, and then changes no file.
        ensures fails { IsErrOf result Trouble.Failed → IsToFail (calls_to_fail self.old) (calls_begun self.old) }
        ensures succeeds { OnOk result (¬ (IsToFail (calls_to_fail self.old) (calls_begun self.old))) }
        ensures refused { OnErr result (SameEverywhere (held_by self.old) (held_by self.new)) }
        ensures calls { calls_begun self.new ≡ next_call (calls_begun self.old) }
        ensures fail { calls_to_fail self.new ≡ calls_to_fail self.old }
    {
        if self.plan.begin() {
            return Err(self.writes.fault(name));
        }
        match self.store.put(name, b"".as_slice()) {
            Ok(()) => Ok(()),
            Err(OutOfMemory) => Err(Trouble::OutOfMemory),
        }
    }

    fn append(&mut self, name: &str, bytes: &[u8]) -> Result<(), Trouble>
        ensures bytes { Appends (Some (held_by self.old name.now)) (Some (held_by self.new name.now)) bytes.now result }
        ensures contents { SameElsewhere name.now (files_now self.old).content (files_now self.new).content }
        ensures counted { Counts (file_writes_failed self.old name.now) (file_writes_failed self.new name.now) result }
        ensures later { NoneFell (file_writes_failed self.old) (file_writes_failed self.new) }
        ensures others { SameElsewhere name.now (file_writes_failed self.old) (file_writes_failed self.new) }
        ensures reads { SameEverywhere (reads_failed self.old) (reads_failed self.new) }

        // It fails at a numbered call alone, each time, and then appends nothing.
        ensures fails { IsErrOf result Trouble.Failed → IsToFail (calls_to_fail self.old) (calls_begun self.old) }
        ensures succeeds { OnOk result (¬ (IsToFail (calls_to_fail self.old) (calls_begun self.old))) }
        ensures refused { OnErr result (SameEverywhere (held_by self.old) (held_by self.new)) }
        ensures calls { calls_begun self.new ≡ next_call (calls_begun self.old) }
        ensures fail { calls_to_fail self.new ≡ calls_to_fail self.old }
    {
        if self.plan.begin() {
            return Err(self.writes.fault(name));
        }
        match self.store.append(name, bytes) {
            Ok(()) => Ok(()),
            Err(OutOfMemory) => Err(Trouble::OutOfMemory),
        }
    }
}
