//! Contents in memory, by name.
ghost use Rattle.std.specs.Prelude.{Some, ◌≡◌, ◌++◌, List, ℕ, OnOk, OnErr};
ghost use Rattle.std.specs.Option.{option_map};
ghost use Rattle.gap_files.specs.Outside.{SameElsewhere, SameEverywhere, bytes_of};
ghost use Rattle.gap_files.specs.Store.{content_in, Copies};

use gap_base::OutOfMemory;
use std::alloc::Global;
use std::collections::BTreeMap;

/// A content for each name that has a file.
#[derive(Drop)]
pub(crate) struct Store {
    alloc: Global,
    held: BTreeMap<String, Vec<u8>>,
}

impl Store {
    pub(crate) fn new(alloc: Global) -> Store
        ensures { (name : List ℕ) → content_in result name ≡ None }
    {
        Store {
            alloc,
            held: BTreeMap::new(alloc),
        }
    }

    pub(crate) fn put(&mut self, name: &str, bytes: &[u8]) -> Result<(), OutOfMemory>
        ensures put { OnOk result (content_in self.new name.now ≡ Some bytes.now) }
        ensures others { SameElsewhere name.now (content_in self.old) (content_in self.new) }
        ensures refused { OnErr result (SameEverywhere (content_in self.old) (content_in self.new)) }
    {
        let Ok(key) = String::from_str(self.alloc, name) else {
            return Err(OutOfMemory);
        };
        let Ok(held) = Vec::from_slice(self.alloc, bytes) else {
            return Err(OutOfMemory);
        };
        match self.held.insert(key, held) {
            Ok(_) => Ok(()),
            Err(_) => Err(OutOfMemory),
        }
    }

    /// Writes the bytes behind those of a name, which has none where its file is missing.
    pub(crate) fn append(&mut self, name: &str, bytes: &[u8]) -> Result<(), OutOfMemory>
        ensures put { OnOk result
            (content_in self.new name.now ≡ Some (bytes_of (content_in self.old name.now) ++ bytes.now)) }
        ensures others { SameElsewhere name.now (content_in self.old) (content_in self.new) }
        ensures refused { OnErr result (SameEverywhere (content_in self.old) (content_in self.new)) }
    {
        match self.held.get_mut(name) {
            Some(held) => match held.extend_from_slice(bytes) {
                Ok(()) => Ok(()),
                Err(_) => Err(OutOfMemory),
            },
            None => self.put(name, bytes),
        }
    }

    pub(crate) fn content(&self, name: &str) -> Option<&[u8]>
        ensures { option_map (λ bytes. bytes.now) result ≡ content_in self.now name.now }
    {
        match self.held.get(name) {
            Some(held) => Some(held.as_slice()),
            None => None,
        }
    }
}

/// Copies what `held` has from `at` on into the front of `buf`, as much as fits, and answers how many bytes.
pub(crate) fn copy_from(held: &[u8], at: u64, buf: &mut [u8]) -> usize
    ensures { Copies held.now at buf.old buf.new result }
{
    let at = at as usize;
    if at >= held.len() {
        return 0;
    }
    let count = buf.len().min(held.len() - at);
    buf[..count].copy_from_slice(&held[at..at + count]);
    count
}
