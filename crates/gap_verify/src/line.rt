//! The line of a difference.

ghost use Rattle.std.specs.Prelude.{◌≡◌, IfOk};
ghost use Rattle.std.specs.String.{string_bytes};
ghost use Rattle.gap_verify.specs.Lines.{numbered, paired, field_text, range_text, limit_text, fraction_text, said_text, differs_text, difference_line};

use crate::difference::Difference;
use crate::field::Field;
use crate::said::Said;
use gap_base::OutOfMemory;
use std::alloc::Global;

/// A word and the number, from 1, of what stands at a place.
#[tactic(auto, unfolding(crate::specs::Lines::numbered))]
fn numbered(alloc: Global, word: &str, place: u16) -> Result<String, OutOfMemory>
    ensures { IfOk result (λ text. string_bytes text ≡ numbered word.now place) }
{
    let number = u32::from(place) + 1;
    Ok(format!(in alloc; "{word} {number}")?)
}

/// A word and the numbers of two places.
#[tactic(auto, unfolding(crate::specs::Lines::paired))]
fn paired(alloc: Global, word: &str, first: u16, second: u16) -> Result<String, OutOfMemory>
    ensures { IfOk result (λ text. string_bytes text ≡ paired word.now first second) }
{
    let one = u32::from(first) + 1;
    let other = u32::from(second) + 1;
    Ok(format!(in alloc; "{word} {one} {other}")?)
}

/// The name of a field.
fn field_text(alloc: Global, field: Field) -> Result<String, OutOfMemory>
    ensures { IfOk result (λ text. string_bytes text ≡ field_text field) }
{
    match field {
        Field::Assets => Ok(String::from_str(alloc, "assets")?),
        Field::Lots => Ok(String::from_str(alloc, "lots")?),
        Field::Held => Ok(String::from_str(alloc, "held")?),
        Field::Turnover => Ok(String::from_str(alloc, "turnover")?),
        Field::Nodes => Ok(String::from_str(alloc, "nodes")?),
        Field::Mean(i) => numbered(alloc, "mean", i),
        Field::Deviation(i) => numbered(alloc, "deviation", i),
        Field::Least(i) => numbered(alloc, "least", i),
        Field::Greatest(i) => numbered(alloc, "greatest", i),
        Field::Present(i) => numbered(alloc, "present", i),
        Field::Correlation(i, j) => paired(alloc, "correlation", i, j),
        Field::Weights => Ok(String::from_str(alloc, "weights")?),
        Field::Weight(k) => numbered(alloc, "weight", u16::from(k)),
    }
}

/// A range of numbers; one number where both ends are the same.
#[tactic(auto, unfolding(crate::specs::Lines::range_text))]
fn range_text(alloc: Global, fewest: u16, most: u16) -> Result<String, OutOfMemory>
    ensures { IfOk result (λ text. string_bytes text ≡ range_text fewest most) }
{
    if fewest == most {
        Ok(format!(in alloc; "{fewest}")?)
    } else {
        Ok(format!(in alloc; "{fewest}-{most}")?)
    }
}

/// A limit; a dash where there is none.
fn limit_text(alloc: Global, limit: Option<u32>) -> Result<String, OutOfMemory>
    ensures { IfOk result (λ text. string_bytes text ≡ limit_text limit) }
{
    match limit {
        Some(t) => Ok(format!(in alloc; "{t}")?),
        None => Ok(String::from_str(alloc, "-")?),
    }
}

/// A weight as p/q.
#[tactic(auto, unfolding(crate::specs::Lines::fraction_text))]
fn fraction_text(alloc: Global, p: u8, q: u8) -> Result<String, OutOfMemory>
    ensures { IfOk result (λ text. string_bytes text ≡ fraction_text p q) }
{
    Ok(format!(in alloc; "{p}/{q}")?)
}

/// What is said of a field.
fn said_text(alloc: Global, said: Said) -> Result<String, OutOfMemory>
    ensures { IfOk result (λ text. string_bytes text ≡ said_text said) }
{
    match said {
        Said::Number(n) => Ok(format!(in alloc; "{n}")?),
        Said::Signed(z) => Ok(format!(in alloc; "{z}")?),
        Said::Range(fewest, most) => range_text(alloc, fewest, most),
        Said::Limit(limit) => limit_text(alloc, limit),
        Said::Fraction(weight) => fraction_text(alloc, weight.p, weight.q),
    }
}

/// The line of a field and the two things that are said of it.
#[tactic(auto, unfolding(crate::specs::Lines::differs_text))]
fn differs_text(alloc: Global, name: &str, found: &str, wanted: &str) -> Result<String, OutOfMemory>
    ensures { IfOk result (λ line. string_bytes line ≡ differs_text name.now found.now wanted.now) }
{
    Ok(format!(in alloc; "differs {name} {found} {wanted}\n")?)
}

impl Difference {
    /// The line `differs FIELD FOUND WANTED` with its line feed: the field, what the certificate says of it, and what the
    /// market or the job says. Assets and weights are numbered from 1.
    pub fn line(self, alloc: Global) -> Result<String, OutOfMemory>
        ensures { IfOk result (λ line. string_bytes line ≡ difference_line self) }
    {
        let name = field_text(alloc, self.field)?;
        let found = said_text(alloc, self.found)?;
        let wanted = said_text(alloc, self.wanted)?;
        differs_text(alloc, name.as_str(), found.as_str(), wanted.as_str())
    }
}
