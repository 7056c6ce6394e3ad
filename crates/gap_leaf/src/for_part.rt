//! The leaf of a part from a witness.

ghost use Rattle.std.specs.Prelude.{◌≡◌, IfOk};
ghost use Rattle.gap_box.specs.Parts.{IsWithin, root_cells};
ghost use Rattle.gap_tangent.specs.Seen.{setting_of};
ghost use Rattle.gap_leaf.specs.Finding.{IsWitness, IsLeafFor};

use crate::hinted::Hinted;
use bumpalo::Bump;
use gap_base::{OutOfMemory, Witness};
use gap_box::Part;
use gap_model::Leaf;
use gap_tangent::MeanVariance;

/// The leaf of a part from a witness, the hint. It is tight, shows no less than the hint, no less than its own point and the
/// tangent point from the hint do under any alpha, and Empty where a void leaf that is tried does. Its entries are placed in
/// the arena. Err comes where the arena is refused memory. `Hinted` keeps what the hint alone gives where parts vary.
pub fn witness_for<'a>(
    mv: &MeanVariance<'_>,
    part: &Part,
    hint: &Witness,
    arena: &'a Bump,
) -> Result<Leaf<'a>, OutOfMemory>
    requires within { IsWithin part.now
        (root_cells (setting_of mv.now).instance.least (setting_of mv.now).instance.greatest) }
    requires hint { IsWitness (setting_of mv.now) hint.now }
    ensures { IfOk result (IsLeafFor (setting_of mv.now) part.now hint.now) }
{
    Ok(Hinted::new(mv, hint).leaf(part, arena)?.leaf)
}
