//! The outside that the public call is tried over.

ghost use Rattle.std.specs.Prelude.{◌≡◌, ◌≢◌, Some, None, ℕ, List, IfOk};
ghost use Rattle.gap_files.specs.Memory.{steadily_held_by};

use gap_base::OutOfMemory;
use gap_files::SteadyFiles;
use std::alloc::Global;

/// Files that never fail, of which one has a content and all others are missing.
///
/// # Errors
/// `OutOfMemory`.
pub fn one_file(alloc: Global, name: &str, bytes: &[u8]) -> Result<SteadyFiles, OutOfMemory>
    ensures held { IfOk result (λ files. steadily_held_by files name.now ≡ Some bytes.now) }
    ensures others { IfOk result (λ files. (other : List ℕ) → other ≢ name.now → steadily_held_by files other ≡ None) }
{
    let mut files = SteadyFiles::new(alloc);
    files.put(name, bytes)?;
    Ok(files)
}
