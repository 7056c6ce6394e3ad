//! The limits of each asset.

ghost use Rattle.std.specs.Prelude.{◌≡◌, ℕ, ◌-◌, ◌<◌, ◌≤◌, length, fold, map, codes, Ok};
ghost use Rattle.serde_json.specs.View.{view};
ghost use Rattle.serde_json.specs.Find.{get};
ghost use Rattle.gap_job.specs.Entries.{three_of, limits_after, with_limit, limits_of, limits_start};
ghost use Rattle.gap_job.specs.Answers.{Steps};

use crate::entry::{is_new, three_numbers};
use crate::{JobFault, Key};
use gap_base::Lots;
use serde_json::Value;

/// The least and greatest lots of each asset, and a 1 for each asset that an entry named.
#[derive(Drop)]
pub struct Limits {
    pub least: Lots,
    pub greatest: Lots,
    pub named: Lots,
}

// The limits before the first entry: those for all assets.
fn start(n: u16, least: u16, greatest: u16) -> Limits
    requires few { 2 ≤ n }
    requires many { n ≤ 256 }
    ensures { result ≡ limits_start n least greatest }
{
    Limits {
        least: Lots::filled(n, least),
        greatest: Lots::filled(n, greatest),
        named: Lots::zeros(n),
    }
}

// Takes in one entry [asset, least, greatest].
#[tactic(auto, unfolding(crate::specs::Entries::limits_after))]
fn take_entry(limits: &mut Limits, lots: u16, entry: &Value) -> Result<(), JobFault>
    requires least { length limits.old.least ≡ length limits.old.named }
    requires greatest { length limits.old.greatest ≡ length limits.old.named }
    ensures named { length limits.new.named ≡ length limits.old.named }
    ensures sizes { (length limits.new.least ≡ length limits.new.named)
        × (length limits.new.greatest ≡ length limits.new.named) }
    ensures step { Steps result limits.new
        (limits_after (length limits.old.named) lots limits.old (three_of (view entry.now))) }
{
    let Some(numbers) = three_numbers(entry) else {
        return Err(JobFault::Kind(Key::Limits));
    };
    if !is_new(&limits.named, numbers.first) {
        return Err(JobFault::Asset(Key::Limits));
    }
    let most = u64::from(lots);
    if numbers.second < 1 || most < numbers.second || numbers.third < 1 || most < numbers.third {
        return Err(JobFault::Range(Key::Limits));
    }
    let place = (numbers.first - 1) as u16;
    limits.least.set(place, numbers.second as u16);
    limits.greatest.set(place, numbers.third as u16);
    limits.named.set(place, 1);
    Ok(())
}

// Takes in the entries of a list.
fn take_entries(n: u16, lots: u16, limits: Limits, entries: &[Value]) -> Result<Limits, JobFault>
    requires least { length limits.least ≡ n }
    requires greatest { length limits.greatest ≡ n }
    requires named { length limits.named ≡ n }
    ensures { result ≡ fold (with_limit n lots) (Ok limits) (map view entries.now) }
{
    let mut limits = limits;
    for entry in entries {
        take_entry(&mut limits, lots, entry)?;
    }
    Ok(limits)
}

/// The limits at the key `limits`: those for all assets, and then those of each entry for its asset. Costs O(n +
/// entries).
#[tactic(auto, unfolding(crate::specs::Entries::limits_of))]
pub fn read_limits(
    object: &Value,
    n: u16,
    lots: u16,
    least: u16,
    greatest: u16,
) -> Result<Limits, JobFault>
    requires few { 2 ≤ n }
    requires many { n ≤ 256 }
    ensures { result ≡ limits_of n lots least greatest (get (codes "limits") (view object.now)) }
{
    let limits = start(n, least, greatest);
    match object.get("limits") {
        None => Ok(limits),
        Some(value) => match value.as_array() {
            None => Err(JobFault::Kind(Key::Limits)),
            Some(list) => take_entries(n, lots, limits, list.as_slice()),
        },
    }
}
