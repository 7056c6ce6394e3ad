//! Numbers, entries and witnesses, appended to bytes. Where memory is refused, some of the bytes may have been appended.

ghost use Rattle.std.specs.Prelude.{◌≡◌, ◌+◌, ◌<◌, ◌≤◌, ◌++◌, length, OnOk};
ghost use Rattle.gap_box.specs.Parts.{held_count};
ghost use Rattle.gap_cert.specs.Bytes.{be, signed_be};
ghost use Rattle.gap_cert.specs.Fields.{entry_bytes, witness_bytes, turnover_bytes, overall_bytes};
ghost use Rattle.gap_writer.specs.Pieces.{one_entry, one_held};

use gap_base::{Eighths, Lots, OutOfMemory, Witness};

/// A number of one byte.
pub fn put_u8(out: &mut Vec<u8>, v: u8) -> Result<(), OutOfMemory>
    ensures { OnOk result (out.new.items ≡ out.old.items ++ be 1 v) }
{
    out.push(v)?;
    Ok(())
}

/// A number of two bytes.
pub fn put_u16(out: &mut Vec<u8>, v: u16) -> Result<(), OutOfMemory>
    ensures { OnOk result (out.new.items ≡ out.old.items ++ be 2 v) }
{
    out.extend_from_slice(&v.to_be_bytes())?;
    Ok(())
}

/// A number of four bytes.
pub fn put_u32(out: &mut Vec<u8>, v: u32) -> Result<(), OutOfMemory>
    ensures { OnOk result (out.new.items ≡ out.old.items ++ be 4 v) }
{
    out.extend_from_slice(&v.to_be_bytes())?;
    Ok(())
}

/// A signed number of four bytes.
pub fn put_i32(out: &mut Vec<u8>, v: i32) -> Result<(), OutOfMemory>
    ensures { OnOk result (out.new.items ≡ out.old.items ++ signed_be 4 v) }
{
    out.extend_from_slice(&v.to_be_bytes())?;
    Ok(())
}

/// A signed number of eight bytes.
pub fn put_i64(out: &mut Vec<u8>, v: i64) -> Result<(), OutOfMemory>
    ensures { OnOk result (out.new.items ≡ out.old.items ++ signed_be 8 v) }
{
    out.extend_from_slice(&v.to_be_bytes())?;
    Ok(())
}

/// A signed number of sixteen bytes.
pub fn put_i128(out: &mut Vec<u8>, v: i128) -> Result<(), OutOfMemory>
    ensures { OnOk result (out.new.items ≡ out.old.items ++ signed_be 16 v) }
{
    out.extend_from_slice(&v.to_be_bytes())?;
    Ok(())
}

/// A limit on turnover, where there is one, behind the flag that says so.
#[tactic(auto, using(std::proofs::lemmas::List::append_assoc))]
pub fn put_turnover(out: &mut Vec<u8>, turnover: Option<u32>) -> Result<(), OutOfMemory>
    ensures { OnOk result (out.new.items ≡ out.old.items ++ turnover_bytes turnover) }
{
    match turnover {
        None => put_u8(out, 0)?,
        Some(t) => {
            put_u8(out, 1)?;
            put_u32(out, t)?;
        }
    }
    Ok(())
}

/// 1 where a number is positive.
fn one_held(v: u32) -> u16
    ensures value { result ≡ one_held v }
    ensures small { result ≤ 1 }
{
    if v > 0 { 1 } else { 0 }
}

/// How many assets a list of lots holds.
#[tactic(auto, using(crate::proofs::Spelled::count_step, crate::proofs::Spelled::count_end))]
fn lots_held(x: &Lots) -> u16
    ensures { result ≡ held_count x.now }
{
    let mut count: u16 = 0;
    for i in 0..x.len() {
        count += one_held(u32::from(x.get(i)));
    }
    count
}

/// How many assets have eighths.
#[tactic(auto, using(crate::proofs::Spelled::count_step, crate::proofs::Spelled::count_end))]
fn eighths_held(y: &Eighths) -> u16
    ensures { result ≡ held_count y.now }
{
    let mut count: u16 = 0;
    for i in 0..y.len() {
        count += one_held(y.get(i));
    }
    count
}

/// An entry of a portfolio, where the asset has lots.
#[tactic(auto, using(std::proofs::lemmas::List::append_assoc))]
fn put_lots_entry(out: &mut Vec<u8>, i: u16, v: u16) -> Result<(), OutOfMemory>
    requires { i < 256 }
    ensures { OnOk result (out.new.items ≡ out.old.items ++ one_entry 2 (i + 1) v) }
{
    if v > 0 {
        put_u16(out, i + 1)?;
        put_u16(out, v)?;
    }
    Ok(())
}

/// An entry of a witness, where the asset has eighths.
#[tactic(auto, using(std::proofs::lemmas::List::append_assoc))]
fn put_eighths_entry(out: &mut Vec<u8>, i: u16, v: u32) -> Result<(), OutOfMemory>
    requires { i < 256 }
    ensures { OnOk result (out.new.items ≡ out.old.items ++ one_entry 4 (i + 1) v) }
{
    if v > 0 {
        put_u16(out, i + 1)?;
        put_u32(out, v)?;
    }
    Ok(())
}

/// The entries of a portfolio.
#[tactic(auto, using(crate::proofs::Spelled::entries_on, crate::proofs::Spelled::entries_over))]
fn put_lots_entries(out: &mut Vec<u8>, x: &Lots) -> Result<(), OutOfMemory>
    ensures { OnOk result (out.new.items ≡ out.old.items ++ entry_bytes 2 1 x.now) }
{
    for i in 0..x.len() {
        put_lots_entry(out, i, x.get(i))?;
    }
    Ok(())
}

/// The entries of a witness.
#[tactic(auto, using(crate::proofs::Spelled::entries_on, crate::proofs::Spelled::entries_over))]
fn put_eighths_entries(out: &mut Vec<u8>, y: &Eighths) -> Result<(), OutOfMemory>
    ensures { OnOk result (out.new.items ≡ out.old.items ++ entry_bytes 4 1 y.now) }
{
    for i in 0..y.len() {
        put_eighths_entry(out, i, y.get(i))?;
    }
    Ok(())
}

/// A portfolio: how many entries it has, and its entries.
#[tactic(auto, using(std::proofs::lemmas::List::append_assoc))]
pub fn put_lots(out: &mut Vec<u8>, x: &Lots) -> Result<(), OutOfMemory>
    ensures { OnOk result (out.new.items ≡ out.old.items ++ (be 2 (held_count x.now) ++ entry_bytes 2 1 x.now)) }
{
    put_u16(out, lots_held(x))?;
    put_lots_entries(out, x)?;
    Ok(())
}

/// A witness: how many entries it has, its entries, and its multipliers.
#[tactic(auto, using(std::proofs::lemmas::List::append_assoc))]
pub fn put_witness(out: &mut Vec<u8>, w: &Witness) -> Result<(), OutOfMemory>
    ensures { OnOk result (out.new.items ≡ out.old.items ++ witness_bytes w.now) }
{
    put_u16(out, eighths_held(&w.y))?;
    put_eighths_entries(out, &w.y)?;
    put_i128(out, w.alpha)?;
    put_i128(out, w.tau)?;
    Ok(())
}

/// A witness for the whole root, where there is one, behind the flag that says so.
#[tactic(auto, using(std::proofs::lemmas::List::append_assoc))]
pub fn put_overall(out: &mut Vec<u8>, overall: &Option<Witness>) -> Result<(), OutOfMemory>
    ensures { OnOk result (out.new.items ≡ out.old.items ++ overall_bytes overall.now) }
{
    match overall {
        None => put_u8(out, 0)?,
        Some(w) => {
            put_u8(out, 1)?;
            put_witness(out, w)?;
        }
    }
    Ok(())
}
