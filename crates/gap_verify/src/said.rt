//! What is said of a field.

ghost use Rattle.std.specs.Prelude.{◌≡◌};
ghost use Rattle.gap_verify.specs.Differences.{same_limit, same_said};

use gap_base::Weight;

/// What one side says of a field.
#[derive(Clone, Copy, PartialEq, Eq, Debug)]
pub enum Said {
    /// A number that isn't negative.
    Number(u64),
    /// A number with its sign.
    Signed(i32),
    /// From one number to another.
    Range(u16, u16),
    /// A limit, if there is one.
    Limit(Option<u32>),
    /// A weight.
    Fraction(Weight),
}

/// Do two limits, of which each may be absent, agree?
fn same_limit(one: Option<u32>, other: Option<u32>) -> bool
    ensures { result ≡ same_limit one other }
{
    match (one, other) {
        (None, None) => true,
        (Some(a), Some(b)) => a == b,
        _ => false,
    }
}

/// Is the same said?
pub(crate) fn same_said(one: Said, other: Said) -> bool
    ensures { result ≡ same_said one other }
{
    match (one, other) {
        (Said::Number(a), Said::Number(b)) => a == b,
        (Said::Signed(a), Said::Signed(b)) => a == b,
        (Said::Range(a, b), Said::Range(c, d)) => a == c && b == d,
        (Said::Limit(a), Said::Limit(b)) => same_limit(a, b),
        (Said::Fraction(a), Said::Fraction(b)) => a.p == b.p && a.q == b.q,
        _ => false,
    }
}
