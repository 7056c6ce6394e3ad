//! The tangent point of a part.

ghost use Rattle.std.specs.Prelude.{◌≡◌, ◌+◌, ◌≤◌, length};
ghost use Rattle.gap_box.specs.Parts.{frees, IsWithin, root_cells};
ghost use Rattle.gap_model.specs.Leaves.{IsPoint};
ghost use Rattle.gap_tangent.specs.Seen.{setting_of};
ghost use Rattle.gap_witness.specs.Having.{HasTangentPoint};
ghost use Rattle.gap_witness.specs.Points.{choice_of, point};
ghost use Rattle.gap_witness.specs.Frames.{setting_in, choice_in};

use crate::balance::balanced_point;
use crate::frame::Frame;
use crate::rounds::walked;
use crate::splitting::may_be_held;
use gap_base::Eighths;
use gap_box::Part;
use gap_tangent::{MeanVariance, Point};

/// How many cells are free to be held or not.
fn free_cells(part: &Part) -> u16
    ensures count { result ≡ frees part.now }
    ensures most { result ≤ 256 }
{
    let mut free = 0;
    for i in 0..part.len() {
        if may_be_held(part.cell(i)) {
            free += 1;
        }
    }
    free
}

/// A bound and a part, with what the count says of its free cells.
fn frame_of<'m>(mv: &'m MeanVariance<'m>, part: &'m Part) -> Frame<'m>
    requires { length part.now ≡ (setting_of mv.now).instance.market.assets }
    ensures setting { setting_in result ≡ setting_of mv.now }
    ensures choice { choice_in result ≡ choice_of (setting_of mv.now) part.now }
    ensures part { result.part.now ≡ part.now }
{
    let held = part.held_cells();
    let all = held + free_cells(part);
    Frame {
        mv,
        part,
        full: held == mv.instance().held_most(),
        needed: all == mv.instance().held(),
    }
}

/// The tangent point of a part from a hint, with its gradients kept. `tangent_point` says what it is. A round costs O(N),
/// and the first point O(N) for each asset with eighths.
pub fn kept_tangent_point<'m>(mv: &'m MeanVariance<'m>, part: &'m Part, hint: &Eighths) -> Point<'m>
    requires within { IsWithin part.now
        (root_cells (setting_of mv.now).instance.least (setting_of mv.now).instance.greatest) }
    requires has { HasTangentPoint (setting_of mv.now) part.now }
    requires numbers { length hint.now ≡ (setting_of mv.now).instance.market.assets }
    ensures { result ≡ record {
      setting = setting_of mv.now;
      eighths = point (setting_of mv.now) (choice_of (setting_of mv.now) part.now) hint.now;
    } }
{
    let _assets = mv.instance().n();
    let _cells = part.len();
    let frame = frame_of(mv, part);
    let first = balanced_point(&frame, hint);
    walked(&frame, Point::at(mv, &first))
}

/// The tangent point of a part from a hint: the hint brought into the ranges of the part and to the budget, and then at
/// most 8N rounds, each of which moves eighths from the asset where they cost most to the one where they cost least. It is
/// in range. Costs O(N) a round, and O(N) for each asset with eighths; it takes no memory.
pub fn tangent_point(mv: &MeanVariance<'_>, part: &Part, hint: &Eighths) -> Eighths
    requires within { IsWithin part.now
        (root_cells (setting_of mv.now).instance.least (setting_of mv.now).instance.greatest) }
    requires has { HasTangentPoint (setting_of mv.now) part.now }
    requires numbers { length hint.now ≡ (setting_of mv.now).instance.market.assets }
    ensures value { result ≡ point (setting_of mv.now) (choice_of (setting_of mv.now) part.now) hint.now }
    ensures in_range { IsPoint (setting_of mv.now).instance result }
{
    kept_tangent_point(mv, part, hint).eighths().copy()
}
