//! A field in which two sides differ.

ghost use Rattle.std.specs.Prelude.{◌≡◌};
ghost use Rattle.gap_verify.specs.Differences.{compared};

use crate::field::Field;
use crate::said::{Said, same_said};

/// A field with what the certificate says of it and what the market or the job says, which differ.
#[derive(Clone, Copy, PartialEq, Eq, Debug)]
pub struct Difference {
    pub field: Field,
    pub found: Said,
    pub wanted: Said,
}

/// The difference of a field of which two things are said, if they differ.
#[tactic(auto, unfolding(crate::specs::Differences::compared))]
pub(crate) fn compared(field: Field, found: Said, wanted: Said) -> Option<Difference>
    ensures { result ≡ compared field found wanted }
{
    if same_said(found, wanted) {
        None
    } else {
        Some(Difference {
            field,
            found,
            wanted,
        })
    }
}
