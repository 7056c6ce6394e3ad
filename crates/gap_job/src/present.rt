//! The lots at present.

ghost use Rattle.std.specs.Prelude.{◌≡◌, ℕ, ◌-◌, ◌<◌, ◌≤◌, length, fold, map, codes, Ok};
ghost use Rattle.serde_json.specs.View.{view};
ghost use Rattle.serde_json.specs.Find.{get};
ghost use Rattle.gap_job.specs.Entries.{two_of, present_after, with_present, present_of};
ghost use Rattle.gap_job.specs.Answers.{Steps};

use crate::entry::{is_new, two_numbers};
use crate::{JobFault, Key};
use gap_base::Lots;
use serde_json::Value;

/// The lots of each asset at present, and a 1 for each asset that an entry named.
#[derive(Drop)]
pub struct Present {
    pub lots: Lots,
    pub named: Lots,
}

// Takes in one entry [asset, lots].
#[tactic(auto, unfolding(crate::specs::Entries::present_after))]
fn take_entry(present: &mut Present, entry: &Value) -> Result<(), JobFault>
    requires { length present.old.lots ≡ length present.old.named }
    ensures named { length present.new.named ≡ length present.old.named }
    ensures sizes { length present.new.lots ≡ length present.new.named }
    ensures step { Steps result present.new
        (present_after (length present.old.named) present.old (two_of (view entry.now))) }
{
    let Some(numbers) = two_numbers(entry) else {
        return Err(JobFault::Kind(Key::Present));
    };
    if !is_new(&present.named, numbers.first) {
        return Err(JobFault::Asset(Key::Present));
    }
    if numbers.second > 10_000 {
        return Err(JobFault::Range(Key::Present));
    }
    let place = (numbers.first - 1) as u16;
    present.lots.set(place, numbers.second as u16);
    present.named.set(place, 1);
    Ok(())
}

// Takes in the entries of a list.
fn take_entries(n: u16, present: Present, entries: &[Value]) -> Result<Present, JobFault>
    requires lots { length present.lots ≡ n }
    requires named { length present.named ≡ n }
    ensures { result ≡ fold (with_present n) (Ok present) (map view entries.now) }
{
    let mut present = present;
    for entry in entries {
        take_entry(&mut present, entry)?;
    }
    Ok(present)
}

/// The lots at the key `present`: 0, and then those of each entry for its asset. Costs O(n + entries).
#[tactic(auto, unfolding(crate::specs::Entries::present_of))]
pub fn read_present(object: &Value, n: u16) -> Result<Present, JobFault>
    requires few { 2 ≤ n }
    requires many { n ≤ 256 }
    ensures { result ≡ present_of n (get (codes "present") (view object.now)) }
{
    let present = Present {
        lots: Lots::zeros(n),
        named: Lots::zeros(n),
    };
    match object.get("present") {
        None => Ok(present),
        Some(value) => match value.as_array() {
            None => Err(JobFault::Kind(Key::Present)),
            Some(list) => take_entries(n, present, list.as_slice()),
        },
    }
}
