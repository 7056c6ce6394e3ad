//! Leaves with what they show.

ghost use Rattle.std.specs.Prelude.{◌≡◌, true};
ghost use Rattle.gap_box.specs.Parts.{IsWithin};
ghost use Rattle.gap_model.specs.Showing.{ShowsSo};

use crate::bound::NodeBound;
use crate::leaf::Leaf;
use crate::shown::Shown;
use gap_box::Part;

/// A leaf with what it shows of the part that it stands at.
#[derive(Clone, Copy)]
pub struct Placed<'a> {
    pub leaf: Leaf<'a>,
    pub shown: Shown,
}

/// A leaf with what the bound says that it shows of the part. It takes no memory, and costs what the bound asks.
pub fn placed_at<'a, B: NodeBound>(bound: &B, part: &Part, leaf: Leaf<'a>) -> Placed<'a>
    requires within { IsWithin part.now (B.problem bound.now).whole }
    requires in_range { (B.problem bound.now).in_range leaf ≡ true }
    ensures leaf { result.leaf ≡ leaf.entry }
    ensures shown { ShowsSo (B.problem bound.now) part.now result }
{
    Placed {
        leaf,
        shown: bound.shown(part, &leaf),
    }
}
