//! Whole tokens: numbers without a point.

ghost use Rattle.std.specs.Prelude.{◌≡◌, ℕ, ◌+◌, ◌-◌, ◌*◌, ◌≤◌, fold, min, IfSome};
ghost use Rattle.std.specs.List.{list_all};
ghost use Rattle.std.specs.Char.{is_ascii_digit};
ghost use Rattle.gap_base.specs.Numerals.{is_number, number_of};
ghost use Rattle.gap_orlib.specs.Sheets.{without_plus, whole_in};

/// A number above all that a whole token may be.
const MORE: u16 = 1000;

/// The text without the plus that it may begin with.
fn without_plus(text: &[u8]) -> &[u8]
    ensures { result.now ≡ without_plus text.now }
{
    match text {
        [b'+', rest @ ..] => rest,
        _ => text,
    }
}

/// Whether all bytes are digits.
fn all_digits(text: &[u8]) -> bool
    ensures { result ≡ list_all is_ascii_digit text.now }
{
    text.iter().all(|b| b.is_ascii_digit())
}

/// Whether the text is one digit or more.
fn is_number(text: &[u8]) -> bool
    ensures { result ≡ is_number text.now }
{
    !text.is_empty() && all_digits(text)
}

/// The number that the digits write, or 1000 where that is less.
fn number_up_to(digits: &[u8]) -> u16
    ensures { result ≡ min 1000 (number_of digits.now) }
{
    let mut number = 0u16;
    for digit in digits {
        let next = number * 10 + (*digit).saturating_sub(48) as u16;
        number = next.min(MORE);
    }
    number
}

/// The number of a whole token, a plus or none and one digit or more, where it is in low..high.
#[tactic(auto, unfolding(crate::specs::Sheets::whole))]
pub fn whole_in(text: &[u8], low: u16, high: u16) -> Option<u16>
    requires { high ≤ 256 }
    ensures value { result ≡ whole_in low high text.now }
    ensures range { IfSome result (λ n. (low ≤ n) × (n ≤ high)) }
{
    let digits = without_plus(text);
    if !is_number(digits) {
        return None;
    }
    let number = number_up_to(digits);
    if low <= number && number <= high {
        Some(number)
    } else {
        None
    }
}
