//! Files in memory that never fail.
ghost use Rattle.std.specs.Prelude.{Some, None, ◌≡◌, ◌≤◌, ◌≢◌, List, [], ℕ, length, IfOk, IsErrOf, OnOk, OnErr};
ghost use Rattle.std.specs.Option.{option_map};
ghost use Rattle.gap_files.specs.Outside.{SameElsewhere, SameEverywhere, ReadsAt, Starts, Appends, bytes_of};
ghost use Rattle.gap_files.specs.Store.{Copies};
ghost use Rattle.gap_files.specs.Memory.{steadily_held_by, steady_files_now};

use crate::store::{Store, copy_from};
use crate::{Files, Trouble};
use gap_base::OutOfMemory;
use std::alloc::Global;

/// Named contents in memory. No call on them fails, and their counts of faults are always 0: a missing file reads as
/// an empty one.
#[derive(Drop)]
pub struct SteadyFiles {
    store: Store,
}

impl SteadyFiles {
    /// No files.
    pub fn new(alloc: Global) -> SteadyFiles
        ensures { (name : List ℕ) → steadily_held_by result name ≡ None }
    {
        SteadyFiles {
            store: Store::new(alloc),
        }
    }

    /// Makes `bytes` the content of the file `name`.
    ///
    /// # Errors
    /// `OutOfMemory`, after which every file is as before.
    pub fn put(&mut self, name: &str, bytes: &[u8]) -> Result<(), OutOfMemory>
        ensures put { OnOk result (steadily_held_by self.new name.now ≡ Some bytes.now) }
        ensures others { SameElsewhere name.now (steadily_held_by self.old) (steadily_held_by self.new) }
        ensures refused { OnErr result (SameEverywhere (steadily_held_by self.old) (steadily_held_by self.new)) }
    {
        self.store.put(name, bytes)
    }

    /// The content of the file `name`, None exactly where it is missing. It takes no memory.
    pub fn content(&self, name: &str) -> Option<&[u8]>
        ensures { option_map (λ bytes. bytes.now) result ≡ steadily_held_by self.now name.now }
    {
        self.store.content(name)
    }
}

impl Files for SteadyFiles {
    ghost files = { steady_files_now };

    fn read_at(&mut self, name: &str, at: u64, buf: &mut [u8]) -> Result<usize, Trouble>
        ensures within { IfOk result (λ count. count ≤ length buf.new) }
        ensures bytes { IfOk result (ReadsAt (bytes_of (steadily_held_by self.old name.now)) at buf.new) }
        ensures contents { SameEverywhere (steadily_held_by self.old) (steadily_held_by self.new) }

        // As much is read as fits, a missing file reads as an empty one, and it never fails.
        ensures copied { IfOk result (Copies (bytes_of (steadily_held_by self.old name.now)) at buf.old buf.new) }
        ensures steady { ¬ (IsErrOf result Trouble.Failed) }
    {
        match self.store.content(name) {
            Some(held) => Ok(copy_from(held, at, buf)),
            None => Ok(0),
        }
    }

    fn start(&mut self, name: &str) -> Result<(), Trouble>
        ensures bytes { Starts (Some (steadily_held_by self.old name.now)) (Some (steadily_held_by self.new name.now))
            result }
        ensures contents { SameElsewhere name.now (steady_files_now self.old).content (steady_files_now self.new).content }

        // It never fails, and where memory is refused no file changes.
        ensures steady { ¬ (IsErrOf result Trouble.Failed) }
        ensures refused { OnErr result (SameEverywhere (steadily_held_by self.old) (steadily_held_by self.new)) }
    {
        match self.store.put(name, b"".as_slice()) {
            Ok(()) => Ok(()),
            Err(OutOfMemory) => Err(Trouble::OutOfMemory),
        }
    }

    fn append(&mut self, name: &str, bytes: &[u8]) -> Result<(), Trouble>
        ensures bytes { Appends (Some (steadily_held_by self.old name.now))
            (Some (steadily_held_by self.new name.now)) bytes.now result }
        ensures contents { SameElsewhere name.now (steady_files_now self.old).content (steady_files_now self.new).content }

        // It never fails, and where memory is refused no file changes.
        ensures steady { ¬ (IsErrOf result Trouble.Failed) }
        ensures refused { OnErr result (SameEverywhere (steadily_held_by self.old) (steadily_held_by self.new)) }
    {
        match self.store.append(name, bytes) {
            Ok(()) => Ok(()),
            Err(OutOfMemory) => Err(Trouble::OutOfMemory),
        }
    }
}
