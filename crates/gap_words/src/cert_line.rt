//! The line of a certificate that is refused.
ghost use Rattle.std.specs.Prelude.{◌≡◌, IfOk};
ghost use Rattle.std.specs.String.{string_bytes};
ghost use Rattle.gap_words.specs.CertLines.{number_text, numbers_text, counts_text, row_text, asset_text, broken_text, cert_text, cert_word, cert_fields, cert_line};

use gap_base::{OutOfMemory, Row};
use gap_instance::Broken;
use gap_model::{CertFault, CertKind};
use std::alloc::Global;

/// Two numbers, each behind a space.
#[tactic(auto, unfolding(crate::specs::CertLines::numbers_text))]
fn numbers_text(alloc: Global, first: i128, second: i128) -> Result<String, OutOfMemory>
    ensures { IfOk result (λ text. string_bytes text ≡ numbers_text first second) }
{
    Ok(format!(in alloc; " {first} {second}")?)
}

/// Two counts, each behind a space.
#[tactic(auto, unfolding(crate::specs::CertLines::counts_text))]
fn counts_text(alloc: Global, first: u32, second: u32) -> Result<String, OutOfMemory>
    ensures { IfOk result (λ text. string_bytes text ≡ counts_text first second) }
{
    Ok(format!(in alloc; " {first} {second}")?)
}

/// A row of the shift by its number, from 1, with its two sums.
#[tactic(auto, unfolding(crate::specs::CertLines::row_text))]
fn row_text(alloc: Global, row: Row) -> Result<String, OutOfMemory>
    ensures { IfOk result (λ text. string_bytes text ≡ row_text row) }
{
    let number = u32::from(row.row) + 1;
    let Row {
        diagonal,
        others,
        ..
    } = row;
    Ok(format!(in alloc; " {number} {diagonal} {others}")?)
}

/// A limit of an asset by its number, from 1.
#[tactic(auto, unfolding(crate::specs::CertLines::asset_text))]
fn asset_text(alloc: Global, limit: &str, asset: u16) -> Result<String, OutOfMemory>
    ensures { IfOk result (λ text. string_bytes text ≡ asset_text limit.now asset) }
{
    let number = u32::from(asset) + 1;
    Ok(format!(in alloc; " {limit} {number}")?)
}

/// The limit that a portfolio breaks.
fn broken_text(alloc: Global, broken: Broken) -> Result<String, OutOfMemory>
    ensures { IfOk result (λ text. string_bytes text ≡ broken_text broken) }
{
    match broken {
        Broken::Length => Ok(String::from_str(alloc, " Length")?),
        Broken::Lots => Ok(String::from_str(alloc, " Lots")?),
        Broken::Held => Ok(String::from_str(alloc, " Held")?),
        Broken::Least(asset) => asset_text(alloc, "Least", asset),
        Broken::Greatest(asset) => asset_text(alloc, "Greatest", asset),
        Broken::Turnover => Ok(String::from_str(alloc, " Turnover")?),
    }
}

/// The word of a kind of fault.
fn cert_word(kind: CertKind) -> &'static str
    ensures { result.now ≡ cert_word kind }
{
    match kind {
        CertKind::Magic => "Magic",
        CertKind::Short => "Short",
        CertKind::Trail => "Trail",
        CertKind::Range => "Range",
        CertKind::Order => "Order",
        CertKind::Shift(_) => "Shift",
        CertKind::Split => "Split",
        CertKind::Count => "Count",
        CertKind::Void { .. } => "Void",
        CertKind::Weak { .. } => "Weak",
        CertKind::Portfolio(_) => "Portfolio",
        CertKind::Objective { .. } => "Objective",
        CertKind::NotOpen { .. } => "NotOpen",
        CertKind::Nodes { .. } => "Nodes",
    }
}

/// One number behind a space.
#[tactic(auto, unfolding(crate::specs::CertLines::number_text))]
fn number_text(alloc: Global, number: i128) -> Result<String, OutOfMemory>
    ensures { IfOk result (λ text. string_bytes text ≡ number_text number) }
{
    Ok(format!(in alloc; " {number}")?)
}

/// The fields of a kind of fault.
fn cert_fields(alloc: Global, kind: CertKind) -> Result<String, OutOfMemory>
    ensures { IfOk result (λ text. string_bytes text ≡ cert_fields kind) }
{
    match kind {
        CertKind::Shift(row) => row_text(alloc, row),
        CertKind::Void { found } => number_text(alloc, found),
        CertKind::Weak { found, claimed } => numbers_text(alloc, found, claimed),
        CertKind::Portfolio(broken) => broken_text(alloc, broken),
        CertKind::Objective { found, claimed } => numbers_text(alloc, found, claimed),
        CertKind::NotOpen { objective, bound } => numbers_text(alloc, objective, bound),
        CertKind::Nodes { inner, budget } => counts_text(alloc, inner, budget),
        _ => Ok(String::new(alloc)),
    }
}

/// The line of a kind, a place and fields.
#[tactic(auto, unfolding(crate::specs::CertLines::cert_text))]
fn cert_text(alloc: Global, kind: &str, place: u64, fields: &str) -> Result<String, OutOfMemory>
    ensures { IfOk result (λ line. string_bytes line ≡ cert_text kind.now place fields.now) }
{
    Ok(format!(in alloc; "certificate {kind} {place}{fields}\n")?)
}

/// The line of a certificate with this fault.
pub(crate) fn cert_line(alloc: Global, fault: CertFault) -> Result<String, OutOfMemory>
    ensures { IfOk result (λ line. string_bytes line ≡ cert_line fault) }
{
    let fields = cert_fields(alloc, fault.kind)?;
    cert_text(alloc, cert_word(fault.kind), fault.place, fields.as_str())
}
