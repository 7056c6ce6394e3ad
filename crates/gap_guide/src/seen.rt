//! The lists of a search that were seen before.

ghost use Rattle.std.specs.Prelude.{◌≡◌, ◌<◌, ◌≤◌, IfOk, IsTrue, length, nat_eq, vec_len};
ghost use Rattle.std.specs.Cmp.Lexicographic.{pointwise};
ghost use Rattle.std.specs.HashSet.{contains_by};

use gap_base::Lots;
use std::alloc::{AllocError, Global};
use std::collections::HashSet;

/// How many lists are kept at most.
const MOST: usize = 4096;

/// Is the list among those that were seen? If not it is put there where memory is given, some 2N + 50 bytes, after all
/// others were dropped where they are 4096. It is found by a hash and compared whole: this costs O(N).
pub fn was_seen(seen: &mut HashSet<Vec<u16>>, alloc: Global, list: &Lots) -> bool
    ensures seen { IsTrue result → IsTrue (contains_by (λ v. pointwise nat_eq list.now v.items) seen.old) }
{
    match numbers_of(alloc, list) {
        Ok(numbers) => meets_again(seen, numbers),
        Err(_) => false,
    }
}

/// Are the numbers among the lists that were seen? If not they are put there where memory is given, after the others were
/// dropped where there is no room.
fn meets_again(seen: &mut HashSet<Vec<u16>>, numbers: Vec<u16>) -> bool
    ensures seen { result ≡ contains_by (λ v. pointwise nat_eq numbers.items v.items) seen.old }
{
    if seen.len() < MOST {
        return matches!(seen.insert(numbers), Ok(false));
    }
    let found = seen.contains(numbers.as_slice());
    if !found {
        seen.clear();
        let _kept = seen.insert(numbers);
    }
    found
}

/// The numbers of a list.
fn numbers_of(alloc: Global, list: &Lots) -> Result<Vec<u16>, AllocError>
    ensures { IfOk result (λ v. v.items ≡ list.now) }
{
    let mut numbers = Vec::with_capacity(alloc, usize::from(list.len()))?;
    for i in 0..list.len() {
        numbers.push(list.get(i))?;
    }
    Ok(numbers)
}
