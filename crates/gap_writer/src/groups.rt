//! The bytes of items, appended to bytes. Where memory is refused, some of them may have been appended.

ghost use Rattle.std.specs.Prelude.{◌≡◌, ℕ, ◌+◌, ◌<◌, ◌++◌, OnOk, Option};
ghost use Rattle.gap_base.specs.declared.witness.Witness.{Witness};
ghost use Rattle.gap_box.specs.Narrow.{asset_of};
ghost use Rattle.gap_cert.specs.declared.field.Version.TheVariants.{Two};
ghost use Rattle.gap_cert.specs.Bytes.{be, signed_be};
ghost use Rattle.gap_cert.specs.Certificates.{claim_of, claim_number, opening_fields, last_behind, spelled};
ghost use Rattle.gap_cert.specs.Contexts.{IsFieldIn};
ghost use Rattle.gap_cert.specs.Fields.{mark_bytes, mark, version_byte, split_bytes, bytes_of, witness_bytes, turnover_bytes};
ghost use Rattle.gap_cert.specs.declared.field.Field.TheVariants as field;
ghost use Rattle.gap_writer.specs.Pieces.{start_bytes, best_bytes, claim_bytes};

use crate::numbers::{
    put_i32, put_i64, put_i128, put_lots, put_overall, put_turnover, put_u8, put_u16, put_u32,
    put_witness,
};
use gap_base::{OutOfMemory, Weight, Witness};
use gap_box::Split;
use gap_cert::{Field, Version, is_repeated};
use gap_model::{Best, Outcome, SectionHead};

/// The first bytes of a certificate.
fn put_mark(out: &mut Vec<u8>) -> Result<(), OutOfMemory>
    ensures { OnOk result (out.new.items ≡ out.old.items ++ (mark_bytes mark ++ be 1 (version_byte Two))) }
{
    out.extend_from_slice(b"GAPCERT2")?;
    Ok(())
}

/// The limits of a head behind the number of assets.
#[tactic(auto, using(std::proofs::lemmas::List::append_assoc))]
fn put_limits(
    out: &mut Vec<u8>,
    lots: u16,
    held: u16,
    held_most: u16,
    turnover: Option<u32>,
    nodes: u32,
) -> Result<(), OutOfMemory>
    ensures { OnOk result
        (out.new.items ≡ out.old.items
        ++ (be 2 lots ++ be 2 held ++ be 2 held_most ++ turnover_bytes turnover ++ be 4 nodes)) }
{
    put_u16(out, lots)?;
    put_u16(out, held)?;
    put_u16(out, held_most)?;
    put_turnover(out, turnover)?;
    put_u32(out, nodes)?;
    Ok(())
}

/// What is said of an asset.
#[tactic(auto, using(std::proofs::lemmas::List::append_assoc))]
pub fn put_asset(
    out: &mut Vec<u8>,
    mean: i32,
    dev: u32,
    least: u16,
    greatest: u16,
    present: u16,
) -> Result<(), OutOfMemory>
    ensures { OnOk result
        (out.new.items ≡ out.old.items ++ (signed_be 4 mean ++ be 4 dev ++ be 2 least ++ be 2 greatest ++ be 2 present)) }
{
    put_i32(out, mean)?;
    put_u32(out, dev)?;
    put_u16(out, least)?;
    put_u16(out, greatest)?;
    put_u16(out, present)?;
    Ok(())
}

/// The weight of a section and the number of its outcome.
#[tactic(auto, using(std::proofs::lemmas::List::append_assoc))]
fn put_start(out: &mut Vec<u8>, p: u8, q: u8, outcome: u8) -> Result<(), OutOfMemory>
    ensures { OnOk result (out.new.items ≡ out.old.items ++ (be 1 p ++ be 1 q ++ be 1 outcome)) }
{
    put_u8(out, p)?;
    put_u8(out, q)?;
    put_u8(out, outcome)?;
    Ok(())
}

/// A leaf of the terms with alpha and tau alone.
#[tactic(auto, using(std::proofs::lemmas::List::append_assoc))]
fn put_void(out: &mut Vec<u8>, alpha: i128, tau: i128) -> Result<(), OutOfMemory>
    ensures { OnOk result (out.new.items ≡ out.old.items ++ (be 1 2 ++ signed_be 16 alpha ++ signed_be 16 tau)) }
{
    put_u8(out, 2)?;
    put_i128(out, alpha)?;
    put_i128(out, tau)?;
    Ok(())
}

/// A leaf with a tangent point: one byte where its witness is that of the last one.
#[tactic(auto, using(std::proofs::lemmas::List::append_assoc))]
fn put_tangent(out: &mut Vec<u8>, last: &Option<Witness>, w: &Witness) -> Result<(), OutOfMemory>
    ensures { OnOk result (out.new.items ≡ out.old.items ++ bytes_of Two last.now (field.TangentLeaf w.now)) }
{
    if is_repeated(Version::Two, last, w) {
        put_u8(out, 6)?;
    } else {
        put_u8(out, 3)?;
        put_witness(out, w)?;
    }
    Ok(())
}

/// A split.
#[tactic(auto, using(std::proofs::lemmas::List::append_assoc))]
fn put_split(out: &mut Vec<u8>, split: Split) -> Result<(), OutOfMemory>
    requires { asset_of split < 256 }
    ensures { OnOk result (out.new.items ≡ out.old.items ++ split_bytes split) }
{
    match split {
        Split::Held(i) => {
            put_u8(out, 4)?;
            put_u16(out, i + 1)?;
        }
        Split::Lots(i, t) => {
            put_u8(out, 5)?;
            put_u16(out, i + 1)?;
            put_u16(out, t)?;
        }
    }
    Ok(())
}

/// An item, by the witness of the last tangent leaf before it.
#[tactic(auto, using(std::proofs::lemmas::List::append_assoc))]
pub fn put_field(
    out: &mut Vec<u8>,
    last: &Option<Witness>,
    field: &Field,
) -> Result<(), OutOfMemory>
    requires { IsFieldIn field.now }
    ensures { OnOk result (out.new.items ≡ out.old.items ++ bytes_of Two last.now field.now) }
{
    match field {
        Field::Head {
            n,
            lots,
            held,
            held_most,
            turnover,
            nodes,
        } => {
            put_mark(out)?;
            put_u16(out, *n)?;
            put_limits(out, *lots, *held, *held_most, *turnover, *nodes)?;
        }
        Field::Asset {
            mean,
            dev,
            least,
            greatest,
            present,
        } => put_asset(out, *mean, *dev, *least, *greatest, *present)?,
        Field::Correlation { rho } => put_i32(out, *rho)?,
        Field::FactorEntry { r } => put_i64(out, *r)?,
        Field::ShiftEntry { d } => put_i128(out, *d)?,
        Field::Sections { count } => put_u8(out, *count)?,
        Field::SectionStart { p, q, outcome } => put_start(out, *p, *q, *outcome)?,
        Field::Portfolio(x) => put_lots(out, x)?,
        Field::Objective(value) => put_i128(out, *value)?,
        Field::Bound(value) => put_i128(out, *value)?,
        Field::Overall(w) => put_overall(out, w)?,
        Field::CountLeaf => put_u8(out, 1)?,
        Field::VoidLeaf { alpha, tau } => put_void(out, *alpha, *tau)?,
        Field::TangentLeaf(w) => put_tangent(out, last, w)?,
        Field::Split(split) => put_split(out, *split)?,
        Field::End => put_u32(out, 1_162_757_130)?,
    }
    Ok(())
}

/// Goes behind an item: keeps the witness of the last tangent leaf of a section's tree.
pub fn go_behind(last: &mut Option<Witness>, field: &Field)
    ensures { last.new ≡ last_behind last.old field.now }
{
    match field {
        Field::TangentLeaf(w) => *last = Some(w.copy()),
        Field::SectionStart { .. } => *last = None,
        _ => {}
    }
}

/// A portfolio and its objective.
#[tactic(auto, using(std::proofs::lemmas::List::append_assoc))]
fn put_best(out: &mut Vec<u8>, best: &Best) -> Result<(), OutOfMemory>
    ensures { OnOk result (out.new.items ≡ out.old.items ++ best_bytes best.now) }
{
    put_lots(out, &best.lots)?;
    put_i128(out, best.value)?;
    Ok(())
}

/// What is claimed, behind the number of the outcome.
#[tactic(auto, using(std::proofs::lemmas::List::append_assoc))]
fn put_claim(
    out: &mut Vec<u8>,
    outcome: &Outcome,
    overall: &Option<Witness>,
) -> Result<(), OutOfMemory>
    ensures { OnOk result (out.new.items ≡ out.old.items ++ claim_bytes (claim_of outcome.now overall.now)) }
{
    match outcome {
        Outcome::Closed(best) => {
            put_best(out, best)?;
            put_overall(out, overall)?;
        }
        Outcome::NoPortfolio => {}
        Outcome::Bounded {
            best: Some(best),
            bound,
        } => {
            put_best(out, best)?;
            put_i128(out, *bound)?;
            put_overall(out, overall)?;
        }
        Outcome::Bounded { best: None, bound } => {
            put_i128(out, *bound)?;
            put_overall(out, overall)?;
        }
    }
    Ok(())
}

/// The number of an outcome: 1 closed, 2 none, 3 open, 4 open without a portfolio.
fn number_of(outcome: &Outcome) -> u8
    ensures { (overall : Option Witness) → result ≡ claim_number (claim_of outcome.now overall) }
{
    match outcome {
        Outcome::Closed(_) => 1,
        Outcome::NoPortfolio => 2,
        Outcome::Bounded { best: Some(_), .. } => 3,
        Outcome::Bounded { best: None, .. } => 4,
    }
}

/// What a section says before its tree.
pub fn put_opening(out: &mut Vec<u8>, part: &SectionHead) -> Result<(), OutOfMemory>
    ensures { OnOk result
        ((last : Option Witness)
        → out.new.items ≡ out.old.items
        ++ spelled Two last (opening_fields part.now.weight (claim_of part.now.outcome part.now.overall))) }
{
    put_start(out, part.weight.p, part.weight.q, number_of(&part.outcome))?;
    put_claim(out, &part.outcome, &part.overall)?;
    Ok(())
}
