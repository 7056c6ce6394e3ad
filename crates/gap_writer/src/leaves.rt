//! The leaves of bounds as items.

ghost use Rattle.std.specs.Prelude.{◌≡◌, ℕ, ◌<◌, ◌≤◌, Some, length, slice_get};
ghost use Rattle.gap_base.specs.Lots.{lots_at};
ghost use Rattle.gap_cert.specs.Certificates.{leaf_field};
ghost use Rattle.gap_solved.specs.Solveds.{dense, cert_leaf_of};
ghost use Rattle.gap_writer.specs.Pieces.{entered};

use gap_base::{Eighths, Witness};
use gap_cert::Field;
use gap_model::{Entry, Leaf};

/// The entry at place `k`.
fn entry_at(entries: &[Entry], k: usize) -> Entry
    requires { k < length entries.now }
    ensures { slice_get entries.now k ≡ Some result }
{
    entries[k]
}

#[tactic(auto, using(crate::proofs::Entries::entry_put, crate::proofs::Entries::entry_none))]
/// Puts an entry's eighths at its asset; an entry of no asset changes nothing.
fn put_entry(y: &mut Eighths, entry: Entry)
    ensures count { length y.new ≡ length y.old }
    ensures numbers { (i : ℕ) → i < length y.old → lots_at y.new i ≡ entered entry i (lots_at y.old i) }
{
    if entry.asset < y.len() {
        y.set(entry.asset, entry.eighths);
    }
}

/// The eighths that entries give to each of `n` assets; where two name one asset, the first counts.
fn point_of(n: u16, entries: &[Entry]) -> Eighths
    requires least { 2 ≤ n }
    requires most { n ≤ 256 }
    ensures { result ≡ dense n entries.now }
{
    let mut y = Eighths::zeros(n);
    let mut left = entries.len();
    while left > 0 {
        left -= 1;
        let entry = entry_at(entries, left);
        put_entry(&mut y, entry);
    }
    y
}

/// A bound's leaf over `n` assets as an item.
pub fn field_of(n: u16, leaf: &Leaf<'_>) -> Field
    requires least { 2 ≤ n }
    requires most { n ≤ 256 }
    ensures { result ≡ leaf_field (cert_leaf_of n leaf.now) }
{
    match leaf {
        Leaf::Count => Field::CountLeaf,
        Leaf::Void { alpha, tau, .. } => Field::VoidLeaf {
            alpha: *alpha,
            tau: *tau,
        },
        Leaf::Tangent { y, alpha, tau, .. } => Field::TangentLeaf(Witness {
            y: point_of(n, y),
            alpha: *alpha,
            tau: *tau,
        }),
    }
}
