//! When a tangent leaf repeats the last one.

ghost use Rattle.std.specs.Prelude.{◌≡◌};
ghost use Rattle.gap_cert.specs.Fields.{same_numbers, same_witness, repeated};

use crate::field::Version;
use gap_base::{Eighths, Witness};

/// Is the witness that of the last tangent leaf, which version 2 doesn't spell again? One pass over its eighths.
pub fn is_repeated(version: Version, last: &Option<Witness>, w: &Witness) -> bool
    ensures { result ≡ repeated version last.now w.now }
{
    match (version, last) {
        (Version::Two, Some(last)) => is_same_witness(last, w),
        _ => false,
    }
}

/// Are the two witnesses the same? One pass over their eighths.
#[tactic(auto, unfolding(crate::specs::Fields::same_witness))]
fn is_same_witness(v: &Witness, w: &Witness) -> bool
    ensures { result ≡ same_witness v.now w.now }
{
    is_same_list(&v.y, &w.y) && (v.alpha == w.alpha && v.tau == w.tau)
}

/// Do the two lists have the same numbers?
#[tactic(auto, using(crate::proofs::SameLaws::different_lengths, crate::proofs::SameLaws::same_step, crate::proofs::SameLaws::same_differs, crate::proofs::SameLaws::same_end))]
fn is_same_list(x: &Eighths, y: &Eighths) -> bool
    ensures { result ≡ same_numbers x.now y.now }
{
    if x.len() != y.len() {
        return false;
    }
    for i in 0..x.len() {
        if x.get(i) != y.get(i) {
            return false;
        }
    }
    true
}
