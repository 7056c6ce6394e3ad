//! The line of the market.

ghost use Rattle.std.specs.Prelude.{◌≡◌, ◌++◌, OnOk, OnErr};
ghost use Rattle.gap_report.specs.Report.{market_line};

use gap_base::OutOfMemory;

/// Appends the line of a market of `n` assets with this many rounded numerals and this total of its shift, as
/// `assets 2 rounded 0 shift 0`. After an error `out` is unchanged. The cost is that of the digits.
#[tactic(auto, unfolding(crate::specs::Report::market_line))]
pub fn market_line(out: &mut Vec<u8>, n: u16, rounded: u32, shift: i128) -> Result<(), OutOfMemory>
    ensures ok { OnOk result (out.new.items ≡ out.old.items ++ market_line n rounded shift) }
    ensures err { OnErr result (out.new.items ≡ out.old.items) }
{
    let line = format!(in *out.allocator(); "assets {n} rounded {rounded} shift {shift}\n")?;
    out.extend_from_slice(line.as_bytes())?;
    Ok(())
}
