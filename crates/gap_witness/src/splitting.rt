//! The split of a part.

ghost use Rattle.std.specs.Prelude.{◌≡◌, ℕ, ◌+◌, ◌-◌, ◌<◌, ◌≤◌, Bool, List, length, slice_index_or, IsTrue, Some, None, true, false};
ghost use Rattle.gap_base.specs.Lots.{lots_at};
ghost use Rattle.gap_box.specs.declared.cell.Cell.TheVariants.{Out};
ghost use Rattle.gap_box.specs.Cells.{IsCell, is_free};
ghost use Rattle.gap_box.specs.Parts.{can_meet, IsSingle};
ghost use Rattle.gap_box.specs.Splits.{width, IsWidest, is_settled, lawful_split, Cuts};
ghost use Rattle.gap_witness.specs.Places.{later, first_greatest, IsFirstGreatest};
ghost use Rattle.gap_witness.specs.Cutting.{cut_behind, IsSplitFor};

use gap_base::Eighths;
use gap_box::{Cell, Part, Split};

/// Is it free whether the asset of this cell is held?
pub(crate) fn may_be_held(cell: Cell) -> bool
    ensures { result ≡ is_free cell }
{
    matches!(cell, Cell::Free { .. })
}

/// How much a cell that must be held leaves open.
fn width_of(cell: Cell) -> u16
    requires { IsCell cell }
    ensures value { result ≡ width cell }
    ensures most { result ≤ 10000 }
{
    match cell {
        Cell::Held { l, u } => u - l,
        _ => 0,
    }
}

/// The number behind which a cell is cut.
fn cut_of(cell: Cell, eighths: u32) -> u16
    requires { IsCell cell }
    ensures { result ≡ cut_behind cell eighths }
{
    match cell {
        Cell::Held { l, u } => (eighths / 8).min(u32::from(u) - 1).max(u32::from(l)) as u16,
        _ => 0,
    }
}

/// Place `i` in place of the one found before, where it is free and has more eighths.
fn fuller(free: bool, y: &Eighths, i: u16, found: Option<u16>) -> Option<u16>
    requires there { i < length y.now }
    requires before { (k : ℕ) → found ≡ Some k → k < i }
    ensures { result ≡ later free (lots_at y.now) i found }
{
    if !free {
        return found;
    }
    match found {
        None => Some(i),
        Some(k) => {
            if y.get(k) < y.get(i) {
                Some(i)
            } else {
                Some(k)
            }
        }
    }
}

/// The first of the free cells with the most eighths.
fn fullest_free(part: &Part, y: &Eighths) -> Option<u16>
    requires { length y.now ≡ length part.now }
    ensures { result ≡ first_greatest (length part.now) (λ k. is_free (slice_index_or part.now k Out)) (lots_at y.now) }
{
    let mut found = None;
    for i in 0..part.len() {
        found = fuller(may_be_held(part.cell(i)), y, i, found);
    }
    found
}

/// The first of the widest cells that must be held.
fn widest(part: &Part) -> u16
    ensures widest { IsWidest part.now result }
    ensures there { result < length part.now }
{
    let mut found = 0;
    for i in 0..part.len() {
        if width_of(part.cell(found)) < width_of(part.cell(i)) {
            found = i;
        }
    }
    found
}

/// The free cell of which it is next to be settled whether it is held; None where that is settled of all assets.
fn unsettled(part: &Part, most: u16, y: &Eighths) -> Option<u16>
    requires { length y.now ≡ length part.now }
    ensures some { (i : ℕ) → result ≡ Some i
        → (is_settled part.now most ≡ false)
        × IsFirstGreatest (length part.now) (λ k. is_free (slice_index_or part.now k Out)) (lots_at y.now) i }
    ensures none { result ≡ None → is_settled part.now most ≡ true }
{
    if part.held_cells() == most {
        return None;
    }
    fullest_free(part, y)
}

/// The split of a part that can meet the count and has more than one list that does, by a point in eighths: the one
/// that cuts it. As long as fewer than `k2` cells must be held and one is free, it is whether the first of the free
/// cells with the most eighths is held; else the lots of the widest cell, behind its whole lots. Three passes; it takes
/// no memory.
pub fn split_for(part: &Part, k1: u16, k2: u16, y: &Eighths) -> Split
    requires range { k1 ≤ k2 }
    requires counted { can_meet part.now k1 k2 ≡ true }
    requires several { (x : List ℕ) → IsSingle part.now k1 k2 x → ⊥ }
    requires same { length y.now ≡ length part.now }
    ensures split { IsSplitFor part.now k2 y.now result }
    ensures lawful { IsTrue (lawful_split part.now result) }
    ensures cuts { Cuts part.now k2 result }
{
    // each cell is in range
    let _cells = part.len();
    match unsettled(part, k2, y) {
        Some(i) => Split::Held(i),
        None => {
            let i = widest(part);
            Split::Lots(i, cut_of(part.cell(i), y.get(i)))
        }
    }
}
