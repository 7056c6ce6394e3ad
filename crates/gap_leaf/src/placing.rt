//! Tangent leaves placed in an arena.

ghost use Rattle.std.specs.Prelude.{◌≡◌, ◌+◌, ◌<◌, ◌≤◌, take, ◌++◌, [], ◌∷◌, IfOk};
ghost use Rattle.gap_leaf.specs.Entries.{point_entries, IsTangentOf};

use bumpalo::Bump;
use gap_base::{Eighths, OutOfMemory};
use gap_model::{Entry, Leaf};

/// Entries with room for one for each asset: the first `count` stand.
#[derive(Drop)]
struct Entries {
    count: u16,
    room: [Entry; 256],
}

/// One entry more, where the asset has eighths.
fn add_entry(entries: &mut Entries, asset: u16, eighths: u32)
    requires { entries.old.count < 256 }
    ensures entries { take entries.new.count entries.new.room
        ≡ take entries.old.count entries.old.room ++ point_entries asset (eighths ∷ []) }
    ensures count { entries.new.count ≤ entries.old.count + 1 }
{
    if eighths > 0 {
        entries.room[usize::from(entries.count)] = Entry { asset, eighths };
        entries.count += 1;
    }
}

/// The entries of a point. One pass.
fn entries_of(y: &Eighths) -> Entries
    ensures entries { take result.count result.room ≡ point_entries 0 y.now }
    ensures most { result.count ≤ 256 }
{
    let mut entries = Entries {
        count: 0,
        room: [Entry {
            asset: 0,
            eighths: 0,
        }; 256],
    };
    for i in 0..y.len() {
        add_entry(&mut entries, i, y.get(i));
    }
    entries
}

/// The tangent leaf at a point with multipliers, its entries placed in the arena.
pub(crate) fn tangent_leaf<'a>(
    point: &Eighths,
    alpha: i128,
    tau: i128,
    arena: &'a Bump,
) -> Result<Leaf<'a>, OutOfMemory>
    ensures { IfOk result (IsTangentOf point.now alpha tau) }
{
    let entries = entries_of(point);
    let y = arena.try_alloc_slice_copy(&entries.room[..usize::from(entries.count)])?;
    Ok(Leaf::Tangent {
        y,
        alpha,
        tau,
        third: 0,
    })
}
