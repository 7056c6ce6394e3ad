//! The tangent point of a leaf from its entries.

ghost use Rattle.std.specs.Prelude.{◌≡◌, ℕ, ◌<◌, ◌≤◌, Some, length, slice_get};
ghost use Rattle.gap_base.specs.Lots.{lots_at};
ghost use Rattle.gap_model.specs.Leaves.{AreEntries, eighths_at};

use gap_base::Eighths;
use gap_model::Entry;

/// The entry at place `k`.
fn entry_at(entries: &[Entry], k: usize) -> Entry
    requires { k < length entries.now }
    ensures { slice_get entries.now k ≡ Some result }
{
    entries[k]
}

/// The list of `n` numbers of eighths that the entries give: 0 for an asset without an entry. Costs O(n), and takes no
/// memory.
pub fn point_from(n: u16, entries: &[Entry]) -> Eighths
    requires least { 2 ≤ n }
    requires most { n ≤ 256 }
    requires entries { AreEntries n entries.now }
    ensures count { length result ≡ n }
    ensures numbers { (i : ℕ) → i < n → lots_at result i ≡ eighths_at entries.now i }
{
    let mut y = Eighths::zeros(n);
    let mut left = entries.len();
    while left > 0 {
        left -= 1;
        let entry = entry_at(entries, left);
        y.set(entry.asset, entry.eighths);
    }
    y
}
