//! Names with a count each.
ghost use Rattle.std.specs.Prelude.{◌≡◌, ◌≤◌, OnOk, OnErr, List, ℕ};
ghost use Rattle.gap_files.specs.Outside.{one_more, Counted, NoneFell, SameElsewhere, SameEverywhere};
ghost use Rattle.gap_files.specs.Tally.{count_of};

use crate::Trouble;
use gap_base::OutOfMemory;
use std::alloc::Global;
use std::collections::BTreeMap;

/// A count for each name, from 0. A count stays at its last value, 2^64 - 1.
#[derive(Drop)]
pub struct Tally {
    alloc: Global,
    counts: BTreeMap<String, u64>,
}

impl Tally {
    /// A tally in which every name has the count 0. It takes no memory until a count is raised.
    pub fn new(alloc: Global) -> Tally
        ensures { (name : List ℕ) → count_of result name ≡ 0 }
    {
        Tally {
            alloc,
            counts: BTreeMap::new(alloc),
        }
    }

    /// Adds one to the count of `name`, at 2^64 - 1 nothing. One look-up and one change of a tree of the names.
    ///
    /// # Errors
    /// `OutOfMemory`, after which every count is as before.
    pub fn raise(&mut self, name: &str) -> Result<(), OutOfMemory>
        ensures raised { OnOk result (count_of self.new name.now ≡ one_more (count_of self.old name.now)) }
        ensures later { NoneFell (count_of self.old) (count_of self.new) }
        ensures others { SameElsewhere name.now (count_of self.old) (count_of self.new) }
        ensures refused { OnErr result (SameEverywhere (count_of self.old) (count_of self.new)) }
    {
        let raised = self.count(name).saturating_add(1);
        let Ok(key) = String::from_str(self.alloc, name) else {
            return Err(OutOfMemory);
        };
        match self.counts.insert(key, raised) {
            Ok(_) => Ok(()),
            Err(_) => Err(OutOfMemory),
        }
    }

    /// Counts a fault of `name`, and answers it as `Failed`; where memory for it is refused, that is the answer.
    pub(crate) fn fault(&mut self, name: &str) -> Trouble
        ensures counted { Counted (count_of self.old name.now) (count_of self.new name.now) result }
        ensures later { NoneFell (count_of self.old) (count_of self.new) }
        ensures others { SameElsewhere name.now (count_of self.old) (count_of self.new) }
    {
        match self.raise(name) {
            Ok(()) => Trouble::Failed,
            Err(OutOfMemory) => Trouble::OutOfMemory,
        }
    }

    /// The count of `name`. It takes no memory.
    pub fn count(&self, name: &str) -> u64
        ensures { result ≡ count_of self.now name.now }
    {
        match self.counts.get(name) {
            Some(count) => *count,
            None => 0,
        }
    }
}
