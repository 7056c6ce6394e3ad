//! Parts: lists of cells, one for each asset.

ghost use Rattle.std.specs.Prelude.{◌≡◌, ◌≢◌, cond, IsNone, IfSome, ℕ, ◌+◌, ◌<◌, ◌≤◌, ◌↔◌, Bool, Some, None, List, length, replicate, slice_get, slice_index_or, slice_set, IsTrue};
ghost use Rattle.gap_box.specs.declared.cell.Cell.TheVariants.{Out, Held, Free};
ghost use Rattle.gap_box.specs.declared.split.Side.TheVariants.{First, Second};
ghost use Rattle.gap_box.specs.Cells.{IsCell, AreCells, is_held, is_free};
ghost use Rattle.gap_box.specs.Parts.{in_part, indicator, points, helds, frees, can_meet, IsSingle, IsWithin, AreLimits, root_cell, root_cells};
ghost use Rattle.gap_box.specs.Splits.{lawful_split, can_cut, held_side, cut_side, child_cells};
ghost use Rattle.gap_box.specs.Only.{only_number, only_list};
ghost use Rattle.gap_box.specs.Narrow.{range_cell, held_narrow, cut_narrow, narrow_cell, asset_of, narrowed};

use crate::cell::Cell;
use crate::split::{Side, Split};
use gap_base::Lots;
use std::marker::Model;

/// A list of 2 to 256 cells, one for each asset, in a fixed array. Its calls take no memory.
#[derive(Drop, Debug)]
pub struct Part {
    count: u16,
    cells: [Cell; 256],
}

impl Model for Part {
    ghost use Rattle.std.specs.Prelude.{List, ◌≡◌, ◌≤◌, take, length};
    ghost use Rattle.gap_box.specs.declared.cell.Cell.{Cell};
    ghost use Rattle.gap_box.specs.Cells.{AreCells};

    ghost Value = { List Cell };

    ghost view = { λ p. take p.count p.cells };

    ghost invariant = { λ p. (2 ≤ p.count) × (p.count ≤ 256) × (length p.cells ≡ 256) × AreCells p.cells };
}

impl Part {
    /// The part of all lists of lots in which each asset has 0, or its least to its greatest number.
    /// An asset whose least is above its greatest has 0 alone. It costs one pass.
    pub fn root(lo: &Lots, hi: &Lots) -> Part
        requires same_length { length lo.now ≡ length hi.now }
        requires least { AreLimits lo.now }
        requires greatest { AreLimits hi.now }
        ensures cells { result ≡ root_cells lo.now hi.now }
        ensures valid { AreCells result }
    {
        let mut part = Part::all_out(lo.len());
        for i in 0..lo.len() {
            part.put(i, first_cell(lo.get(i), hi.get(i)));
        }
        part
    }

    /// How many cells there are, 2 to 256.
    pub fn len(&self) -> u16
        ensures length { result ≡ length self.now }
        ensures least { 2 ≤ length self.now }
        ensures most { length self.now ≤ 256 }
        ensures valid { AreCells self.now }
    {
        self.count
    }

    /// The cell at place `i`, counted from 0.
    pub fn cell(&self, i: u16) -> Cell
        requires { i < length self.now }
        ensures value { slice_get self.now i ≡ Some result }
        ensures or_out { result ≡ slice_index_or self.now i Out }
        ensures valid { IsCell result }
    {
        self.cells[usize::from(i)]
    }

    /// An equal part. It takes no memory.
    pub fn copy(&self) -> Part
        ensures { result ≡ self.now }
    {
        Part {
            count: self.count,
            cells: self.cells,
        }
    }

    /// Can the part be split so? By whether an asset is held exactly at a free cell, by an asset's lots exactly at a
    /// cell that must be held and whose range the number cuts. No split at a place beyond the part is lawful.
    pub fn lawful(&self, split: Split) -> bool
        ensures { result ≡ lawful_split self.now split }
    {
        match split {
            Split::Held(i) => i < self.count && cell_is_free(self.cell(i)),
            Split::Lots(i, t) => i < self.count && cell_can_cut(self.cell(i), t),
        }
    }

    /// A child of the part. Each list of the part is in exactly one of the two children, and their points add up.
    /// It costs one copy of the part.
    pub fn child(&self, split: Split, side: Side) -> Part
        requires { IsTrue (lawful_split self.now split) }
        ensures cells { result ≡ child_cells self.now split side }
        ensures valid { AreCells result }
        ensures once { (x : List ℕ)
            → indicator (in_part self.now x)
            ≡ indicator (in_part (child_cells self.now split First) x)
            + indicator (in_part (child_cells self.now split Second) x) }
        ensures sum { points self.now
            ≡ points (child_cells self.now split First) + points (child_cells self.now split Second) }
        ensures within { IsWithin result self.now }
    {
        // each cell is in range
        let _count = self.len();
        match split {
            Split::Held(i) => self.with(i, held_child(self.cell(i), side)),
            Split::Lots(i, t) => self.with(i, cut_child(self.cell(i), t, side)),
        }
    }

    /// Leaves of the part what a side of any split leaves: the child where the split is lawful, and else no list where
    /// nothing is left. Two of these may be done in either order. It costs one write.
    pub fn narrow(&mut self, split: Split, side: Side)
        ensures { self.new ≡ narrowed self.old split side }
    {
        let i = split_asset(split);
        if i < self.len() {
            let cell = narrow_cell(split, self.cell(i), side);
            self.put(i, cell);
        }
    }

    /// Does the part have a list that holds from `fewest` to `most` assets? It costs one pass.
    pub fn count_within(&self, fewest: u16, most: u16) -> bool
        requires { fewest ≤ most }
        ensures { result ≡ can_meet self.now fewest most }
    {
        let held = self.held_cells();
        held <= most && fewest <= held + self.free_cells()
    }

    /// Does the part have a list that holds exactly `k` assets? It costs one pass.
    pub fn count_possible(&self, k: u16) -> bool
        ensures { result ≡ can_meet self.now k k }
    {
        self.count_within(k, k)
    }

    /// The only list of the part that holds from `fewest` to `most` assets, exactly where there is just one. It costs
    /// two passes.
    pub fn single_within(&self, fewest: u16, most: u16) -> Option<Lots>
        requires { fewest ≤ most }
        ensures { (x : List ℕ) → (result ≡ Some x) ↔ IsSingle self.now fewest most x }
    {
        // each cell is in range
        let _count = self.len();
        let held = self.held_cells();
        let all = held + self.free_cells();
        match only_pick(fewest.max(held), most.min(all), held, all) {
            Some(free_held) => self.only_list(free_held),
            None => None,
        }
    }

    /// The only list of the part that holds exactly `k` assets, exactly where there is just one. It costs two passes.
    pub fn single(&self, k: u16) -> Option<Lots>
        ensures { (x : List ℕ) → (result ≡ Some x) ↔ IsSingle self.now k k x }
    {
        self.single_within(k, k)
    }

    /// How many cells must be held. It costs one pass.
    pub fn held_cells(&self) -> u16
        ensures count { result ≡ helds self.now }
        ensures most { result ≤ 256 }
    {
        let mut held = 0;
        for i in 0..self.count {
            if cell_is_held(self.cell(i)) {
                held += 1;
            }
        }
        held
    }

    /// How many cells are free to be held or not.
    fn free_cells(&self) -> u16
        ensures count { result ≡ frees self.now }
        ensures most { result ≤ 256 }
    {
        let mut free = 0;
        for i in 0..self.count {
            if cell_is_free(self.cell(i)) {
                free += 1;
            }
        }
        free
    }

    /// The list of the only numbers that the cells leave, where all free cells are held or all are not;
    /// None where one of them leaves more than one.
    fn only_list(&self, free_held: bool) -> Option<Lots>
        ensures { result ≡ only_list free_held self.now }
    {
        let mut x = Lots::zeros(self.len());
        for i in 0..self.len() {
            x.set(i, only_lots(self.cell(i), free_held)?);
        }
        Some(x)
    }

    /// The part of `n` cells that allow 0 alone.
    fn all_out(n: u16) -> Part
        requires least { 2 ≤ n }
        requires most { n ≤ 256 }
        ensures { result ≡ replicate n Out }
    {
        Part {
            count: n,
            cells: [Cell::Out; 256],
        }
    }

    /// Puts a cell at place `i`; every other cell stays. It costs one write.
    pub fn put(&mut self, i: u16, cell: Cell)
        requires there { i < length self.old }
        requires valid { IsCell cell }
        ensures { self.new ≡ slice_set self.old i cell }
    {
        self.cells[usize::from(i)] = cell;
    }

    /// The part with another cell at place `i`.
    fn with(&self, i: u16, cell: Cell) -> Part
        requires there { i < length self.now }
        requires valid { IsCell cell }
        ensures { result ≡ slice_set self.now i cell }
    {
        let mut part = self.copy();
        part.put(i, cell);
        part
    }
}

/// Where one number of held assets is left, from `low` to `high`, and leaves no choice between the assets that are free:
/// whether all of these are held, or none. `held` assets must be held, and `all` may be.
fn only_pick(low: u16, high: u16, held: u16, all: u16) -> Option<bool>
    ensures some { IfSome result (λ free_held. (low ≡ high) × (low ≡ cond free_held all held)) }
    ensures none { IsNone result → low ≡ high → (low ≢ held) × (low ≢ all) }
{
    if low != high {
        None
    } else if low == held {
        Some(false)
    } else if low == all {
        Some(true)
    } else {
        None
    }
}

/// The cell of an asset with these limits.
fn first_cell(least: u16, greatest: u16) -> Cell
    ensures { result ≡ root_cell least greatest }
{
    if greatest < least {
        Cell::Out
    } else {
        Cell::Free {
            l: least,
            u: greatest,
        }
    }
}

/// Must the asset of this cell be held?
fn cell_is_held(cell: Cell) -> bool
    ensures { result ≡ is_held cell }
{
    matches!(cell, Cell::Held { .. })
}

/// Is it free whether the asset of this cell is held?
fn cell_is_free(cell: Cell) -> bool
    ensures { result ≡ is_free cell }
{
    matches!(cell, Cell::Free { .. })
}

/// Can the cell's range be cut behind `t`?
fn cell_can_cut(cell: Cell, t: u16) -> bool
    ensures { result ≡ can_cut cell t }
{
    match cell {
        Cell::Held { l, u } => l <= t && t < u,
        _ => false,
    }
}

/// A free cell, made one that isn't held or one that must be.
fn held_child(cell: Cell, side: Side) -> Cell
    ensures { result ≡ held_side cell side }
{
    match (cell, side) {
        (Cell::Free { .. }, Side::First) => Cell::Out,
        (Cell::Free { l, u }, Side::Second) => Cell::Held { l, u },
        _ => cell,
    }
}

/// The part of a cell's range up to `t`, or above it.
fn cut_child(cell: Cell, t: u16, side: Side) -> Cell
    requires { IsTrue (can_cut cell t) }
    ensures { result ≡ cut_side t cell side }
{
    match (cell, side) {
        (Cell::Held { l, .. }, Side::First) => Cell::Held { l, u: t },
        (Cell::Held { u, .. }, Side::Second) => Cell::Held { l: t + 1, u },
        _ => cell,
    }
}

/// The only number that the cell leaves where it is held if free, or isn't; None where it leaves more.
fn only_lots(cell: Cell, free_held: bool) -> Option<u16>
    ensures { result ≡ only_number free_held cell }
{
    match cell {
        Cell::Out => Some(0),
        Cell::Held { l, u } => (l == u).then_some(l),
        Cell::Free { l, u } => {
            if free_held {
                (l == u).then_some(l)
            } else {
                Some(0)
            }
        }
    }
}

/// The asset that a split speaks of.
fn split_asset(split: Split) -> u16
    ensures { result ≡ asset_of split }
{
    match split {
        Split::Held(i) => i,
        Split::Lots(i, _) => i,
    }
}

/// What a side of a split leaves of a cell of its asset.
fn narrow_cell(split: Split, cell: Cell, side: Side) -> Cell
    requires { IsCell cell }
    ensures value { result ≡ narrow_cell split cell side }
    ensures valid { IsCell result }
{
    match split {
        Split::Held(_) => narrow_held(cell, side),
        Split::Lots(_, t) => narrow_lots(cell, t, side),
    }
}

/// What is left of a cell where its asset isn't held, or is.
fn narrow_held(cell: Cell, side: Side) -> Cell
    ensures { result ≡ held_narrow cell side }
{
    match (cell, side) {
        (Cell::Held { l, u }, Side::Second) => Cell::Held { l, u },
        (Cell::Free { l, u }, Side::Second) => Cell::Held { l, u },
        _ => Cell::Out,
    }
}

/// What is left of a cell where its asset is held with at most `t` lots, or with more.
fn narrow_lots(cell: Cell, t: u16, side: Side) -> Cell
    requires { IsCell cell }
    ensures { result ≡ cut_narrow t cell side }
{
    match cell {
        Cell::Out => Cell::Out,
        Cell::Held { l, u } => narrow_range(l, u, t, side),
        Cell::Free { l, u } => narrow_range(l, u, t, side),
    }
}

/// The part of a range up to `t`, or above it; `Out` where it is empty.
fn narrow_range(l: u16, u: u16, t: u16, side: Side) -> Cell
    requires { u ≤ 10000 }
    ensures { result ≡ cut_narrow t (Held l u) side }
{
    match side {
        Side::First => range_cell(l, u.min(t)),
        Side::Second => {
            if t < u {
                range_cell(l.max(t + 1), u)
            } else {
                Cell::Out
            }
        }
    }
}

/// The cell that must have `l` to `u` lots; `Out` where there is no such number.
fn range_cell(l: u16, u: u16) -> Cell
    ensures { result ≡ range_cell l u }
{
    if l <= u {
        Cell::Held { l, u }
    } else {
        Cell::Out
    }
}
