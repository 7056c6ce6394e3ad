//! The ranges of a tangent point.

ghost use Rattle.std.specs.Prelude.{◌≡◌, ◌<◌, ◌≤◌, length, slice_index_or};
ghost use Rattle.gap_box.specs.Cells.{IsCell};
ghost use Rattle.gap_witness.specs.Points.{least_by, most_by, lower_end, upper_end, clamped};
ghost use Rattle.gap_witness.specs.Frames.{choice_in};

use crate::frame::Frame;
use gap_base::Eighths;
use gap_box::Cell;

/// The least number of lots of a cell.
fn least_of(cell: Cell, full: bool, needed: bool) -> u16
    requires { IsCell cell }
    ensures value { result ≡ least_by full needed cell }
    ensures most { result ≤ 10000 }
{
    match cell {
        Cell::Out => 0,
        Cell::Held { l, .. } => l,
        Cell::Free { l, .. } => { if full || !needed { 0 } else { l } }
    }
}

/// The greatest number of lots of a cell.
fn most_of(cell: Cell, full: bool) -> u16
    requires { IsCell cell }
    ensures value { result ≡ most_by full cell }
    ensures most { result ≤ 10000 }
{
    match cell {
        Cell::Out => 0,
        Cell::Held { u, .. } => u,
        Cell::Free { u, .. } => { if full { 0 } else { u } }
    }
}

/// The least number of eighths of asset `i`.
pub(crate) fn lower(frame: &Frame<'_>, i: u16) -> u32
    requires { i < length frame.now.part.now }
    ensures value { result ≡ lower_end (choice_in frame.now) i }
    ensures most { result ≤ 80000 }
{
    8 * u32::from(least_of(frame.part.cell(i), frame.full, frame.needed))
}

/// The greatest number of eighths of asset `i`.
pub(crate) fn upper(frame: &Frame<'_>, i: u16) -> u32
    requires { i < length frame.now.part.now }
    ensures value { result ≡ upper_end (choice_in frame.now) i }
    ensures most { result ≤ 80000 }
{
    8 * u32::from(most_of(frame.part.cell(i), frame.full))
}

/// The eighths of the hint of asset `i`, brought into its range.
pub(crate) fn brought(frame: &Frame<'_>, hint: &Eighths, i: u16) -> u32
    requires there { i < length frame.now.part.now }
    requires same { length hint.now ≡ length frame.now.part.now }
    ensures value { result ≡ clamped (choice_in frame.now) hint.now i }
    ensures most { result ≤ 80000 }
{
    hint.get(i).min(upper(frame, i)).max(lower(frame, i))
}
