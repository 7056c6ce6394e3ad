//! The lines of a weight.

ghost use Rattle.std.specs.Prelude.{◌≡◌, ◌++◌, IfOk, OnOk, OnErr};
ghost use Rattle.std.specs.String.{string_bytes};
ghost use Rattle.gap_report.specs.Report.{denominator, known_word, bounds_text, bound_text, numbers_text, weight_line, verdict_line};

use gap_base::{OutOfMemory, Weight};
use gap_model::{Outcome, Told};
use std::alloc::Global;

// The denominator of the objectives that are printed.
fn denominator(q: u8, lots: u16) -> u128
    ensures { result ≡ denominator q lots }
{
    let square = u32::from(lots) * u32::from(lots);
    let scale = u128::from(q) * 1_000_000_000_000_000_000;
    scale * u128::from(square)
}

// What is known of a weight, in one word.
fn known_word(outcome: &Outcome) -> &'static str
    ensures { result.now ≡ known_word outcome.now }
{
    match outcome {
        Outcome::Closed(_) => "closed",
        Outcome::NoPortfolio => "none",
        Outcome::Bounded { .. } => "open",
    }
}

// An objective and a bound.
#[tactic(auto, unfolding(crate::specs::Report::bounds_text))]
fn bounds_text(alloc: Global, value: i128, bound: i128, below: u128) -> Result<String, OutOfMemory>
    ensures { IfOk result (λ text. string_bytes text ≡ bounds_text value bound below) }
{
    Ok(format!(in alloc; " objective {value}/{below} bound {bound}/{below}")?)
}

// A bound where no portfolio was found.
#[tactic(auto, unfolding(crate::specs::Report::bound_text))]
fn bound_text(alloc: Global, bound: i128, below: u128) -> Result<String, OutOfMemory>
    ensures { IfOk result (λ text. string_bytes text ≡ bound_text bound below) }
{
    Ok(format!(in alloc; " objective - bound {bound}/{below}")?)
}

// The numbers of an outcome.
fn numbers_text(alloc: Global, outcome: &Outcome, below: u128) -> Result<String, OutOfMemory>
    ensures { IfOk result (λ text. string_bytes text ≡ numbers_text outcome.now below) }
{
    match outcome {
        Outcome::Closed(best) => bounds_text(alloc, best.value, best.value, below),
        Outcome::NoPortfolio => Ok(String::new(alloc)),
        Outcome::Bounded {
            best: Some(best),
            bound,
        } => bounds_text(alloc, best.value, *bound, below),
        Outcome::Bounded { best: None, bound } => bound_text(alloc, *bound, below),
    }
}

/// Appends the line of what is known of a weight for a budget of `lots` lots, with the number of split nodes, as
/// `weight 1/2 closed nodes 0 objective 3/7 bound 3/7`. After an error `out` is unchanged. The cost is that of the
/// digits.
#[tactic(auto, unfolding(crate::specs::Report::weight_line))]
pub fn weight_line(out: &mut Vec<u8>, lots: u16, told: &Told, inner: u32) -> Result<(), OutOfMemory>
    ensures ok { OnOk result (out.new.items ≡ out.old.items ++ weight_line lots told.now inner) }
    ensures err { OnErr result (out.new.items ≡ out.old.items) }
{
    let alloc = *out.allocator();
    let Weight { p, q } = told.weight;
    let known = known_word(&told.outcome);
    let numbers = numbers_text(alloc, &told.outcome, denominator(q, lots))?;
    let line = format!(in alloc; "weight {p}/{q} {known} nodes {inner}{numbers}\n")?;
    out.extend_from_slice(line.as_bytes())?;
    Ok(())
}

/// Appends the same line without the number of split nodes: what a certificate says of a weight. After an error `out`
/// is unchanged. The cost is that of the digits.
#[tactic(auto, unfolding(crate::specs::Report::verdict_line))]
pub fn verdict_line(out: &mut Vec<u8>, lots: u16, told: &Told) -> Result<(), OutOfMemory>
    ensures ok { OnOk result (out.new.items ≡ out.old.items ++ verdict_line lots told.now) }
    ensures err { OnErr result (out.new.items ≡ out.old.items) }
{
    let alloc = *out.allocator();
    let Weight { p, q } = told.weight;
    let known = known_word(&told.outcome);
    let numbers = numbers_text(alloc, &told.outcome, denominator(q, lots))?;
    let line = format!(in alloc; "weight {p}/{q} {known}{numbers}\n")?;
    out.extend_from_slice(line.as_bytes())?;
    Ok(())
}
