//! The lines of the frontier.
ghost use Rattle.std.specs.Prelude.{◌≡◌, ◌<◌, ℕ, List, length, slice_index, slice_get, Some};
ghost use Rattle.gap_files.specs.Outside.{FilesNow};
ghost use Rattle.gap_files.specs.Marks.{prints};
ghost use Rattle.gap_files.specs.Steps.{Step};
ghost use Rattle.gap_report.specs.Report.{front_line};
ghost use Rattle.gap_sweep.specs.Texts.{front_text, is_efficient};

use crate::carried::Carried;
use gap_files::{Halt, Sink, print};
use gap_model::{FrontRow, efficient};
use gap_report::front_line;
use std::alloc::Global;

/// Writes the line of a row.
fn print_row<S: Sink>(
    alloc: Global,
    lots: u16,
    number: u8,
    row: FrontRow,
    efficient: bool,
    out: &mut S,
) -> Result<(), Halt>
    ensures { (name : List ℕ) (files : FilesNow) → Step name files (S.sink out.old) files (S.sink out.new)
        (prints (front_line lots number row efficient)) result }
{
    let mut line = Vec::new(alloc);
    front_line(&mut line, lots, number, &row, efficient)?;
    print(out, &line)
}

/// The number of the weight whose row is at place `k`.
fn number_at(carried: &Carried, k: usize) -> u8
    requires { k < length carried.now.numbers.items }
    ensures { result ≡ slice_index carried.now.numbers.items k }
{
    carried.numbers[k]
}

/// The row at place `k`.
fn row_at(carried: &Carried, k: usize) -> FrontRow
    requires { k < length carried.now.rows.items }
    ensures { slice_get carried.now.rows.items k ≡ Some result }
{
    carried.rows[k]
}

/// Is this row, which is at place `k`, one that none of the rows dominates?
fn rank_of(carried: &Carried, k: usize, row: FrontRow) -> bool
    requires { slice_get carried.now.rows.items k ≡ Some row }
    ensures { result ≡ is_efficient carried.now.rows.items row }
{
    efficient(&carried.rows, k)
}

/// Writes the lines of all rows.
pub(crate) fn print_rows<S: Sink>(
    alloc: Global,
    lots: u16,
    carried: &Carried,
    out: &mut S,
) -> Result<(), Halt>
    requires { length carried.now.numbers.items ≡ length carried.now.rows.items }
    ensures { (name : List ℕ) (files : FilesNow) → Step name files (S.sink out.old) files (S.sink out.new)
        (prints (front_text lots carried.now.rows.items carried.now.numbers.items carried.now.rows.items)) result }
{
    for k in 0..carried.rows.len() {
        let row = row_at(carried, k);
        let rank = rank_of(carried, k, row);
        print_row(alloc, lots, number_at(carried, k), row, rank, out)?;
    }
    Ok(())
}
