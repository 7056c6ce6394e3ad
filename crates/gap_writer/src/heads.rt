//! The bytes of a head, appended to bytes. Where memory is refused, some of them may have been appended.

ghost use Rattle.std.specs.Prelude.{◌≡◌, ℕ, suc, ◌-◌, ◌<◌, ◌∷◌, [], ◌++◌, map, OnOk, Option};
ghost use Rattle.std.specs.List.{range_with_len};
ghost use Rattle.gap_base.specs.Markets.{rho_of};
ghost use Rattle.gap_base.specs.declared.witness.Witness.{Witness};
ghost use Rattle.gap_psd.specs.Shifts.{r_of};
ghost use Rattle.gap_cert.specs.declared.field.Field.TheVariants as field;
ghost use Rattle.gap_cert.specs.declared.field.Version.TheVariants.{Two};
ghost use Rattle.gap_cert.specs.Certificates.{head_fields, spelled};
ghost use Rattle.gap_valid.specs.HeadOf.{asset_line, pairs_below, rows_below, head_of};
ghost use Rattle.gap_writer.specs.HeadBytes.{line_bytes, lines_bytes, numbers_bytes};

use crate::groups::{put_asset, put_field};
use crate::numbers::{put_i32, put_i64, put_i128, put_u8};
use gap_base::OutOfMemory;
use gap_cert::Field;
use gap_instance::Instance;
use gap_psd::Shift;

/// What is said of asset `i`.
fn put_line(out: &mut Vec<u8>, inst: &Instance, i: u16) -> Result<(), OutOfMemory>
    requires { i < inst.now.market.assets }
    ensures { OnOk result (out.new.items ≡ out.old.items ++ line_bytes (asset_line inst.now i)) }
{
    put_asset(
        out,
        inst.mean(i),
        inst.dev(i),
        inst.lo(i),
        inst.hi(i),
        inst.present(i),
    )?;
    Ok(())
}

/// What is said of each asset.
fn put_lines(out: &mut Vec<u8>, inst: &Instance) -> Result<(), OutOfMemory>
    ensures { OnOk result
        (out.new.items ≡ out.old.items
        ++ lines_bytes (map (asset_line inst.now) (range_with_len 0 inst.now.market.assets))) }
{
    for i in 0..inst.n() {
        put_line(out, inst, i)?;
    }
    Ok(())
}

/// The correlations of asset `i` with those behind it.
fn put_pairs(out: &mut Vec<u8>, inst: &Instance, i: u16) -> Result<(), OutOfMemory>
    requires { i < inst.now.market.assets }
    ensures { OnOk result
        (out.new.items ≡ out.old.items
        ++ numbers_bytes 4 (map (rho_of inst.now.market i) (range_with_len (suc i) (inst.now.market.assets - suc i)))) }
{
    let n = inst.n();
    for j in i + 1..n {
        put_i32(out, inst.rho(i, j))?;
    }
    Ok(())
}

/// The correlations of all pairs.
fn put_correlations(out: &mut Vec<u8>, inst: &Instance) -> Result<(), OutOfMemory>
    ensures { OnOk result
        (out.new.items ≡ out.old.items
        ++ numbers_bytes 4 (pairs_below inst.now.market.assets (rho_of inst.now.market) inst.now.market.assets)) }
{
    for i in 0..inst.n() {
        put_pairs(out, inst, i)?;
    }
    Ok(())
}

/// Row `i` of the triangle.
fn put_row(out: &mut Vec<u8>, shift: &Shift, i: u16) -> Result<(), OutOfMemory>
    requires { i < shift.now.assets }
    ensures { OnOk result
        (out.new.items ≡ out.old.items ++ numbers_bytes 8 (map (r_of shift.now i) (range_with_len 0 (suc i)))) }
{
    // there are at most 256 rows
    let _rows = shift.n();
    for k in 0..i + 1 {
        put_i64(out, shift.r(i, k))?;
    }
    Ok(())
}

/// The triangle.
fn put_rows(out: &mut Vec<u8>, shift: &Shift) -> Result<(), OutOfMemory>
    ensures { OnOk result (out.new.items ≡ out.old.items ++ numbers_bytes 8 (rows_below (r_of shift.now) shift.now.assets)) }
{
    for i in 0..shift.n() {
        put_row(out, shift, i)?;
    }
    Ok(())
}

/// The diagonal.
fn put_diagonal(out: &mut Vec<u8>, shift: &Shift) -> Result<(), OutOfMemory>
    ensures { OnOk result (out.new.items ≡ out.old.items ++ numbers_bytes 16 shift.now.diagonal) }
{
    for i in 0..shift.n() {
        put_i128(out, shift.d(i))?;
    }
    Ok(())
}

/// A head and the number of sections behind it.
pub fn put_head(
    out: &mut Vec<u8>,
    inst: &Instance,
    shift: &Shift,
    nodes: u32,
    sections: u8,
) -> Result<(), OutOfMemory>
    requires { shift.now.assets ≡ inst.now.market.assets }
    ensures { OnOk result
        ((last : Option Witness)
        → out.new.items ≡ out.old.items
        ++ spelled Two last (head_fields (head_of inst.now shift.now nodes) ++ field.Sections sections ∷ [])) }
{
    let first = Field::Head {
        n: inst.n(),
        lots: inst.lots(),
        held: inst.held(),
        held_most: inst.held_most(),
        turnover: inst.turnover(),
        nodes,
    };
    put_field(out, &None, &first)?;
    put_lines(out, inst)?;
    put_correlations(out, inst)?;
    put_rows(out, shift)?;
    put_diagonal(out, shift)?;
    put_u8(out, sections)?;
    Ok(())
}
