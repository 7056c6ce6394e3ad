//! The text of a numeral, cut into its sign, its digits, its point and its exponent.

ghost use Rattle.std.specs.Prelude.{◌≡◌, ℕ, ◌+◌, ◌==◌, true, take_while, drop, ◌++◌, length};
ghost use Rattle.std.specs.Char.{is_ascii_digit};
ghost use Rattle.std.specs.List.{prefix_len, list_all};
ghost use Rattle.std.specs.Option.{option_map};
ghost use Rattle.gap_base.specs.Numerals.{without_sign, digits_of, after_digits, after_point, is_number, power_of, assembled, unsigned_parts, parts_of};
ghost use Rattle.gap_base.specs.NumeralViews.{parts_if, power_if, text_if};

use crate::numeral_pieces::{Exponential, Pieces};

/// Whether the text begins with a minus, and the text without its sign.
fn without_sign(text: &[u8]) -> (bool, &[u8])
    ensures minus { result.0 ≡ (without_sign text.now).0 }
    ensures rest { result.1.now ≡ (without_sign text.now).1 }
{
    match text {
        [b'+', rest @ ..] => (false, rest),
        [b'-', rest @ ..] => (true, rest),
        _ => (false, text),
    }
}

/// How many digits the text begins with.
fn digit_count(text: &[u8]) -> usize
    ensures { result ≡ length (digits_of text.now) }
{
    text.iter().take_while(|b| b.is_ascii_digit()).count()
}

/// The digits that the text begins with, and what follows them.
fn split_digits(text: &[u8]) -> (&[u8], &[u8])
    ensures digits { result.0.now ≡ digits_of text.now }
    ensures rest { result.1.now ≡ after_digits text.now }
{
    let n = digit_count(text);
    (&text[..n], &text[n..])
}

/// The text behind the point that the text begins with, if it does.
fn after_point(text: &[u8]) -> Option<&[u8]>
    ensures { text_if result ≡ after_point text.now }
{
    match text {
        [b'.', rest @ ..] => Some(rest),
        _ => None,
    }
}

/// Whether all bytes are digits.
fn all_digits(text: &[u8]) -> bool
    ensures { result ≡ list_all is_ascii_digit text.now }
{
    text.iter().all(|b| b.is_ascii_digit())
}

/// Whether the text is one digit or more.
fn is_number(text: &[u8]) -> bool
    ensures { result ≡ is_number text.now }
{
    !text.is_empty() && all_digits(text)
}

/// The exponent that the text is, if it is one or nothing at all.
#[tactic(auto, unfolding(crate::specs::Numerals::power_of))]
fn exponent(text: &[u8]) -> Option<Exponential<'_>>
    ensures { power_if result ≡ power_of text.now }
{
    match text {
        [] => Some(Exponential {
            lowers: false,
            digits: text,
        }),
        [b'e' | b'E', rest @ ..] => {
            let (lowers, digits) = without_sign(rest);
            if is_number(digits) {
                Some(Exponential { lowers, digits })
            } else {
                None
            }
        }
        _ => None,
    }
}

/// The parts, where a digit stands before or after the point.
#[tactic(auto, unfolding(crate::specs::Numerals::assembled))]
fn assembled<'a>(
    negative: bool,
    whole: &'a [u8],
    fraction: &'a [u8],
    rest: &'a [u8],
) -> Option<Pieces<'a>>
    ensures { parts_if result ≡ assembled negative whole.now fraction.now rest.now }
{
    if whole.is_empty() && fraction.is_empty() {
        return None;
    }
    match exponent(rest) {
        Some(power) => Some(Pieces {
            negative,
            whole,
            fraction,
            power,
        }),
        None => None,
    }
}

/// The parts of a text behind its sign.
#[tactic(auto, unfolding(crate::specs::Numerals::unsigned_parts))]
fn unsigned_parts(negative: bool, text: &[u8]) -> Option<Pieces<'_>>
    ensures { parts_if result ≡ unsigned_parts negative text.now }
{
    let (whole, behind) = split_digits(text);
    match after_point(behind) {
        Some(rest) => {
            let (fraction, tail) = split_digits(rest);
            assembled(negative, whole, fraction, tail)
        }
        None => assembled(negative, whole, &[], behind),
    }
}

/// The parts of a numeral's text, if it is of at most 64 bytes and has the form of one.
#[tactic(auto, unfolding(crate::specs::Numerals::parts_of))]
pub fn parts_of(text: &[u8]) -> Option<Pieces<'_>>
    ensures { parts_if result ≡ parts_of text.now }
{
    if text.len() > 64 {
        return None;
    }
    let (negative, rest) = without_sign(text);
    unsigned_parts(negative, rest)
}
