//! The bounds that a search can use.

ghost use Rattle.std.specs.Prelude.{◌≡◌, ℕ, ◌≤◌, true, length, slice_index_or, IsTrue};
ghost use Rattle.gap_box.specs.Parts.{IsWithin};
ghost use Rattle.gap_model.specs.Problems.{Problem, IsPart, IsBound};

use crate::leaf::Leaf;
use crate::shown::Shown;
use gap_base::Lots;
use gap_box::Part;

/// A bound over an instance: how many assets may be held, the root, which lists meet the limits, what they cost, and what
/// a leaf shows on a part. All that it means is one record, `problem`, which keeps the laws of bounds.
pub trait NodeBound: Drop {
    ghost problem: { Self → Problem };

    /// How many assets are held at least.
    fn held(&self) -> u16
        ensures { result ≡ (problem self.now).fewest };

    /// How many assets are held at most: no fewer than `held`.
    fn held_most(&self) -> u16
        ensures most { result ≡ (problem self.now).most }
        ensures range { (problem self.now).fewest ≤ (problem self.now).most };

    /// The part of all lists between the limits of the assets.
    fn root(&self) -> Part
        ensures { result ≡ (problem self.now).whole };

    /// Does the list meet the limits? Only lists of the root that hold from `held` to `held_most` assets do.
    fn keeps(&self, x: &Lots) -> bool
        ensures { result ≡ (problem self.now).meets x.now };

    /// What the list costs.
    fn value(&self, x: &Lots) -> i128
        requires same_length { length x.now ≡ length (problem self.now).whole }
        requires most { (i : ℕ) → slice_index_or x.now i 0 ≤ 10000 }
        ensures { result ≡ (problem self.now).cost x.now };

    /// What the leaf shows on the part.
    fn shown(&self, part: &Part, leaf: &Leaf<'_>) -> Shown
        requires within { IsWithin part.now (problem self.now).whole }
        requires in_range { (problem self.now).in_range leaf.now ≡ true }
        ensures { result ≡ (problem self.now).shows part.now leaf.now };

    ghost lawful: { (b : Self) → IsBound (problem b) };
}
