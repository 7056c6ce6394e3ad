//! The lines of a frontier.

ghost use Rattle.std.specs.Prelude.{◌≡◌, ◌++◌, IfOk, OnOk, OnErr};
ghost use Rattle.std.specs.String.{string_bytes};
ghost use Rattle.gap_report.specs.Report.{risk_denominator, return_denominator, rank_word, row_text, fraction_text, front_line};

use gap_base::{OutOfMemory, Weight};
use gap_model::FrontRow;
use std::alloc::Global;

// The denominator of the risks that are printed.
fn risk_denominator(lots: u16) -> u128
    ensures { result ≡ risk_denominator lots }
{
    let square = u32::from(lots) * u32::from(lots);
    1_000_000_000_000_000_000 * u128::from(square)
}

// The denominator of the returns that are printed.
fn return_denominator(lots: u16) -> u128
    ensures { result ≡ return_denominator lots }
{
    1_000_000 * u128::from(lots)
}

// A row by its number and its weight.
#[tactic(auto, unfolding(crate::specs::Report::row_text))]
fn row_text(alloc: Global, k: u8, weight: Weight) -> Result<String, OutOfMemory>
    ensures { IfOk result (λ text. string_bytes text ≡ row_text k weight.p weight.q) }
{
    let Weight { p, q } = weight;
    Ok(format!(in alloc; "row {k} weight {p}/{q}")?)
}

// A number over a denominator.
#[tactic(auto, unfolding(crate::specs::Report::fraction_text))]
fn fraction_text(alloc: Global, number: i128, below: u128) -> Result<String, OutOfMemory>
    ensures { IfOk result (λ text. string_bytes text ≡ fraction_text number below) }
{
    Ok(format!(in alloc; "{number}/{below}")?)
}

// Whether a row is efficient, in one word.
fn rank_word(efficient: bool) -> &'static str
    ensures { result.now ≡ rank_word efficient }
{
    if efficient { "efficient" } else { "dominated" }
}

/// Appends the line of row `k`, counted from 1, of a frontier for a budget of `lots` lots, as
/// `row 1 weight 1/2 risk 3/7 return 2/5 efficient`. After an error `out` is unchanged. The cost is that of the digits.
#[tactic(auto, unfolding(crate::specs::Report::front_line))]
pub fn front_line(
    out: &mut Vec<u8>,
    lots: u16,
    k: u8,
    row: &FrontRow,
    efficient: bool,
) -> Result<(), OutOfMemory>
    ensures ok { OnOk result (out.new.items ≡ out.old.items ++ front_line lots k row.now efficient) }
    ensures err { OnErr result (out.new.items ≡ out.old.items) }
{
    let alloc = *out.allocator();
    let place = row_text(alloc, k, row.weight)?;
    let risk = fraction_text(alloc, row.risk, risk_denominator(lots))?;
    let ret = fraction_text(alloc, row.ret, return_denominator(lots))?;
    let rank = rank_word(efficient);
    let line = format!(in alloc; "{place} risk {risk} return {ret} {rank}\n")?;
    out.extend_from_slice(line.as_bytes())?;
    Ok(())
}
