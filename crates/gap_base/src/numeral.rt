//! Decimal numerals, read as whole numbers of millionths.

ghost use Rattle.std.specs.Prelude.{◌≡◌, ◌↔◌, ℕ, ◌+◌, ◌*◌, ◌%◌, ◌^◌, ◌==◌, ◌<◌, ◌≤◌, ◌++◌, ◌-◌, fold, min, if◌then◌else◌};
ghost use Rattle.gap_base.specs.Numerals.{signed_size, capped, rounded_quotient, valued, numeral_of, AreDigits, Parts};
ghost use Rattle.gap_base.specs.Spellings.{Spells};
ghost use Rattle.gap_base.specs.NumeralViews.{parts_view};

use crate::numeral_fault::{NumeralFault, Rounded};
use crate::numeral_pieces::Pieces;
use crate::numeral_split::parts_of;

/// The greatest size that a value is given with: 10^30.
const GREATEST: u128 = 1_000_000_000_000_000_000_000_000_000_000;

/// The number that `digits` write behind `from`, or 10^30 where that is less.
fn number_up_to(from: u128, digits: &[u8]) -> u128
    requires { from ≤ 10 ^ 30 }
    ensures { result ≡ min (10 ^ 30) (fold (λ n d. n * 10 + (d - 48)) from digits.now) }
{
    let mut number = from;
    for digit in digits {
        let next = number * 10 + (*digit).saturating_sub(48) as u128;
        number = next.min(GREATEST);
    }
    number
}

/// `size` times 10 to `k`, exact as long as it is at most 10^30.
fn times(size: u128, k: u128) -> u128
    requires { size ≤ 10 ^ 30 }
    ensures same { min (10 ^ 30 + 1) result ≡ min (10 ^ 30 + 1) (size * 10 ^ k) }
{
    let mut product = size;
    for _ in 0..k {
        if product <= GREATEST {
            product *= 10;
        }
    }
    product
}

/// A size of millionths with its sign, cut off at 10^30.
#[tactic(auto, unfolding(crate::specs::Numerals::capped))]
fn capped(negative: bool, size: u128, exact: bool) -> Rounded
    ensures { result ≡ capped negative size exact }
{
    if size > GREATEST {
        return Rounded {
            value: signed(negative, GREATEST),
            exact: false,
        };
    }
    Rounded {
        value: signed(negative, size),
        exact,
    }
}

/// A size with its sign.
fn signed(negative: bool, size: u128) -> i128
    requires { size ≤ 10 ^ 30 }
    ensures { result ≡ signed_size negative size }
{
    let value = size as i128;
    if negative { -value } else { value }
}

/// `size` over 10 to `k`, rounded and cut off.
fn over(negative: bool, size: u128, k: u128) -> Rounded
    requires { size < 10 ^ 30 }
    ensures { result ≡ rounded_quotient negative size (10 ^ k) }
{
    if k > 31 {
        return capped(negative, 0, size == 0);
    }
    let divisor = 10u128.pow(k as u32);
    capped(
        negative,
        (2 * size + divisor) / (2 * divisor),
        size % divisor == 0,
    )
}

/// `size` times 10 to `up`, over 10 to `down`, rounded and cut off.
fn scaled(negative: bool, size: u128, up: u128, down: u128) -> Rounded
    requires { size < 10 ^ 30 }
    ensures { result ≡ rounded_quotient negative (size * 10 ^ up) (10 ^ down) }
{
    if down <= up {
        return capped(negative, times(size, up - down), true);
    }
    over(negative, size, down - up)
}

/// The power of 10 over the fraction line, where the exponent isn't below 0, and 6.
fn up(lowers: bool, power: u128) -> u128
    requires { power ≤ 40 }
    ensures { result ≡ 6 + (if lowers then 0 else power) }
{
    if lowers { 6 } else { 6 + power }
}

/// The power of 10 under the fraction line: the digits behind the point, and an exponent below 0.
fn down(digits: usize, lowers: bool, power: u128) -> u128
    requires { power ≤ 40 }
    ensures { result ≡ digits + (if lowers then power else 0) }
{
    if lowers {
        digits as u128 + power
    } else {
        digits as u128
    }
}

/// What the parts of a numeral say.
#[tactic(auto, unfolding(crate::specs::Numerals::valued))]
fn valued(p: &Pieces<'_>) -> Result<Rounded, NumeralFault>
    ensures { AreDigits (p.now.whole.now ++ p.now.fraction.now) → result ≡ valued (parts_view p.now) }
{
    let size = number_up_to(number_up_to(0, p.whole), p.fraction);
    if size >= GREATEST {
        return Err(NumeralFault::TooManyDigits);
    }
    let power = number_up_to(0, p.power.digits);
    if power > 40 {
        return Err(NumeralFault::Exponent);
    }
    let over_line = up(p.power.lowers, power);
    let under_line = down(p.fraction.len(), p.power.lowers, power);
    Ok(scaled(p.negative, size, over_line, under_line))
}

/// The value of a decimal numeral in millionths: an optional sign; digits, or digits, a point and
/// digits, where one of both groups may be missing; an optional `e` or `E` with an optional sign and
/// digits; at most 64 bytes. The value is rounded to the nearest millionth, a half away from zero,
/// and a size above 10^30 is answered as 10^30.
///
/// Which text spells which sign, digits and exponent is said by `Spells`; the value is a quotient of whole numbers of
/// these parts that is rounded once.
///
/// Cost: one pass over the token, and at most 46 multiplications.
///
/// # Errors
/// `Shape` where the token isn't of that form; `TooManyDigits` where the digits of both groups
/// without leading zeros are more than 30; `Exponent` where the exponent is outside -40..40.
#[tactic(auto, unfolding(crate::specs::Numerals::numeral_of))]
pub fn read_numeral(token: &[u8]) -> Result<Rounded, NumeralFault>
    ensures value { result ≡ numeral_of token.now }
    ensures shape { (result ≡ Err NumeralFault.Shape) ↔ ((parts : Parts) → Spells token.now parts → ⊥) }
    ensures spelled { (parts : Parts) → Spells token.now parts → result ≡ valued parts }
{
    match parts_of(token) {
        Some(p) => valued(&p),
        None => Err(NumeralFault::Shape),
    }
}
