//! What the rounds of a tangent point work on.

ghost use Rattle.std.specs.Prelude.{◌≡◌, ◌+◌, eqb, length};
ghost use Rattle.gap_box.specs.Parts.{helds, frees};
ghost use Rattle.gap_tangent.specs.Seen.{setting_of};

use gap_box::Part;
use gap_tangent::MeanVariance;

/// A bound and a part, and what the count says of its free cells: whether no more may be held than must be, and whether
/// all must be held that may be.
#[derive(Drop)]
pub(crate) struct Frame<'m> {
    pub(crate) mv: &'m MeanVariance<'m>,
    pub(crate) part: &'m Part,
    pub(crate) full: bool,
    pub(crate) needed: bool,
    pub ghost cells: { length part.now ≡ (setting_of mv.now).instance.market.assets },
    pub ghost full_is: { full ≡ eqb (helds part.now) (setting_of mv.now).instance.held_most },
    pub ghost needed_is: { needed ≡ eqb (helds part.now + frees part.now) (setting_of mv.now).instance.held },
}
