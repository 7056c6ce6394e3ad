//! Entries of lists: fixed numbers of whole numbers.

ghost use Rattle.std.specs.Prelude.{◌≡◌, ℕ, ◌-◌, ◌<◌, ◌≤◌, length, IsTrue, true, slice_index_or};
ghost use Rattle.serde_json.specs.View.{view};
ghost use Rattle.gap_job.specs.Entries.{two_of, three_of, is_new};

use crate::number::number_at;
use gap_base::Lots;
use serde_json::Value;

/// Two whole numbers.
#[derive(Clone, Copy)]
pub struct Two {
    pub first: u64,
    pub second: u64,
}

/// Three whole numbers.
#[derive(Clone, Copy)]
pub struct Three {
    pub first: u64,
    pub second: u64,
    pub third: u64,
}

/// The numbers of an entry that is a list of exactly two whole numbers.
#[tactic(auto, unfolding(crate::specs::Entries::two_of))]
pub fn two_numbers(entry: &Value) -> Option<Two>
    ensures { result ≡ two_of (view entry.now) }
{
    let first = number_at(entry, 0)?;
    let second = number_at(entry, 1)?;
    if entry.get(2).is_some() {
        None
    } else {
        Some(Two { first, second })
    }
}

/// The numbers of an entry that is a list of exactly three whole numbers.
#[tactic(auto, unfolding(crate::specs::Entries::three_of))]
pub fn three_numbers(entry: &Value) -> Option<Three>
    ensures { result ≡ three_of (view entry.now) }
{
    let first = number_at(entry, 0)?;
    let second = number_at(entry, 1)?;
    let third = number_at(entry, 2)?;
    if entry.get(3).is_some() {
        None
    } else {
        Some(Three {
            first,
            second,
            third,
        })
    }
}

/// Whether `asset` names one of the assets, counted from 1, that no entry named before.
pub fn is_new(named: &Lots, asset: u64) -> bool
    ensures value { result ≡ is_new (length named.now) named.now asset }
    ensures range { result ≡ true → (1 ≤ asset) × (asset ≤ length named.now) }
    ensures small { result ≡ true → asset ≤ 256 }
{
    1 <= asset && asset <= u64::from(named.len()) && named.get((asset - 1) as u16) == 0
}
