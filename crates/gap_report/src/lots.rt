//! The line of the lots of a portfolio.

ghost use Rattle.std.specs.Prelude.{◌≡◌, ◌+◌, ◌++◌, IfOk, OnOk, OnErr};
ghost use Rattle.std.specs.String.{string_bytes};
ghost use Rattle.gap_report.specs.Report.{held_text, held_from, lots_line};

use gap_base::{Lots, OutOfMemory};
use std::alloc::Global;

// Appends the asset at place `i` with its lots, where it is held.
fn put_asset(alloc: Global, text: &mut String, i: u16, lots: u16) -> Result<(), OutOfMemory>
    ensures { OnOk result (string_bytes text.new ≡ string_bytes text.old ++ held_text (i + 1) lots) }
{
    if lots == 0 {
        return Ok(());
    }
    let number = u32::from(i) + 1;
    let entry = format!(in alloc; " {number}:{lots}")?;
    text.push_str(entry.as_str())?;
    Ok(())
}

// The held assets in rising order.
#[tactic(auto, unfolding(crate::specs::Report::held_from))]
fn held_assets(alloc: Global, lots: &Lots) -> Result<String, OutOfMemory>
    ensures { IfOk result (λ text. string_bytes text ≡ held_from 1 lots.now) }
{
    let mut text = String::new(alloc);
    for i in 0..lots.len() {
        put_asset(alloc, &mut text, i, lots.get(i))?;
    }
    Ok(text)
}

/// Appends the line of the held assets by number, counted from 1, each with its lots, as `lots 1:8 2:2`. After an error
/// `out` is unchanged. The cost is that of the digits and one pass.
#[tactic(auto, unfolding(crate::specs::Report::lots_line))]
pub fn lots_line(out: &mut Vec<u8>, x: &Lots) -> Result<(), OutOfMemory>
    ensures ok { OnOk result (out.new.items ≡ out.old.items ++ lots_line x.now) }
    ensures err { OnErr result (out.new.items ≡ out.old.items) }
{
    let alloc = *out.allocator();
    let held = held_assets(alloc, x)?;
    let line = format!(in alloc; "lots{held}\n")?;
    out.extend_from_slice(line.as_bytes())?;
    Ok(())
}
