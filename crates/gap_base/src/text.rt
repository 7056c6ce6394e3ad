//! The decimal text of whole numbers, appended to a list of bytes.

ghost use Rattle.std.specs.Prelude.{◌≡◌, ◌++◌, ◌∷◌, OnOk, OnErr};
ghost use Rattle.std.specs.Fmt.{signed_decimal};

use crate::OutOfMemory;
use itoa::Buffer;

/// Appends the decimal text of `v`, as `-17` or `0`. After an error `out` is unchanged. The cost is that of the
/// digits.
pub fn put_i128(out: &mut Vec<u8>, v: i128) -> Result<(), OutOfMemory>
    ensures ok { OnOk result (out.new.items ≡ out.old.items ++ signed_decimal v) }
    ensures err { OnErr result (out.new.items ≡ out.old.items) }
{
    let mut digits = Buffer::new();
    out.extend_from_slice(digits.format(v).as_bytes())?;
    Ok(())
}

/// Appends `num/den`, both in decimal digits with a bar (`/`) between them. Nothing is reduced. After an error `out`
/// is unchanged. The cost is that of the digits.
pub fn put_fraction(out: &mut Vec<u8>, num: i128, den: i128) -> Result<(), OutOfMemory>
    ensures ok { OnOk result (out.new.items ≡ out.old.items ++ (signed_decimal num ++ 47 ∷ signed_decimal den)) }
    ensures err { OnErr result (out.new.items ≡ out.old.items) }
{
    let mut upper = Buffer::new();
    let mut lower = Buffer::new();
    let above = upper.format(num).as_bytes();
    let below = lower.format(den).as_bytes();
    out.reserve(above.len() + 1 + below.len())?;
    out.extend_from_slice(above)?;
    out.push(b'/')?;
    out.extend_from_slice(below)?;
    Ok(())
}
