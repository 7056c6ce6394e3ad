//! The small bound.

ghost use Rattle.std.specs.Prelude.{◌≡◌, ℕ, ◌+◌, ◌<◌, ◌≤◌, true, length, sum, unsigned_abs, ◌≤ℤ◌};
ghost use Rattle.gap_box.specs.Parts.{can_meet, IsWithin};
ghost use Rattle.gap_model.specs.Theta.{picks, lesser, least_value};
ghost use Rattle.gap_trials.specs.Small.{small_whole, small_meets, small_price, small_in_range, IsLeastBelow};

use crate::pricing::{
    charge, cost, distance, held_of, is_in, is_pick, joined, list_at, lots_of, numbers,
};
use gap_base::Lots;
use gap_box::Part;
use gap_model::{Leaf, NodeBound, Shown};

/// A bound over three assets with 1 to 3 lots, one or two of them held, and a number of lots that are all placed. A seed
/// scatters the costs of its lists. What a leaf shows is found by listing the lists of the part.
#[derive(Drop, Clone, Copy)]
pub struct Small {
    pub seed: u16,
    pub lots: u16,
}

/// The part of all lists between the limits.
fn whole() -> Part
    ensures { result ≡ small_whole }
{
    Part::root(&Lots::filled(3, 1), &Lots::filled(3, 3))
}

/// Does a list meet the limits?
pub fn meets(lots: u16, x: &[u16; 3]) -> bool
    ensures { result ≡ small_meets lots x.now }
{
    let held = held_of(x);
    is_in(&whole(), x) && 1 <= held && held <= 2 && lots_of(x) == u32::from(lots)
}

/// The price of a leaf at a list.
fn price(small: &Small, leaf: &Leaf<'_>, x: &[u16; 3]) -> i128
    requires { small_in_range leaf.now ≡ true }
    ensures { result ≡ small_price small.now.seed small.now.lots leaf.now x.now }
{
    match *leaf {
        Leaf::Count => 0,
        Leaf::Void { alpha, .. } => charge(small.lots, alpha, x),
        Leaf::Tangent { y, alpha, .. } => {
            joined(
                cost(small.seed, x),
                distance(y, x),
                charge(small.lots, alpha, x),
            )
        }
    }
}

/// The lesser of a number and one that may be there.
fn lesser(t: i128, least: Option<i128>) -> i128
    ensures { result ≡ lesser t least }
{
    match least {
        Some(other) => t.min(other),
        None => t,
    }
}

/// The least price over the lists of a part up to a place, where it is known below that place.
fn lower(small: &Small, part: &Part, leaf: &Leaf<'_>, k: u16, least: Option<i128>) -> Option<i128>
    requires place { k < 64 }
    requires within { IsWithin part.now small_whole }
    requires in_range { small_in_range leaf.now ≡ true }
    requires so_far { IsLeastBelow (small_price small.now.seed small.now.lots leaf.now) part.now k least }
    ensures { IsLeastBelow (small_price small.now.seed small.now.lots leaf.now) part.now (k + 1) result }
{
    let x = list_at(k);
    if is_pick(part, &x) {
        Some(lesser(price(small, leaf, &x), least))
    } else {
        least
    }
}

/// The least price over the lists of a part that hold one or two assets.
fn least_price(small: &Small, part: &Part, leaf: &Leaf<'_>) -> Option<i128>
    requires within { IsWithin part.now small_whole }
    requires in_range { small_in_range leaf.now ≡ true }
    ensures { result ≡ least_value (small_price small.now.seed small.now.lots leaf.now) (picks part.now 1 2) }
{
    let mut least = None;
    for k in 0..64 {
        least = lower(small, part, leaf, k, least);
    }
    least
}

impl NodeBound for Small {
    ghost use Rattle.gap_trials.specs.Small.{small};
    ghost use Rattle.gap_trials.specs.SmallLaws.{small_lawful};

    ghost problem = { λ b. small b.seed b.lots };

    ghost lawful = { λ b. small_lawful b.seed b.lots };

    fn held(&self) -> u16 {
        1
    }

    fn held_most(&self) -> u16 {
        2
    }

    fn root(&self) -> Part {
        whole()
    }

    fn keeps(&self, x: &Lots) -> bool {
        match numbers(x) {
            Some(x) => meets(self.lots, &x),
            None => false,
        }
    }

    fn value(&self, x: &Lots) -> i128 {
        match numbers(x) {
            Some(x) => cost(self.seed, &x),
            None => 0,
        }
    }

    fn shown(&self, part: &Part, leaf: &Leaf<'_>) -> Shown {
        match leaf {
            Leaf::Count => Shown::of_count(part.count_within(1, 2)),
            Leaf::Void { .. } => Shown::of_void(least_price(self, part, leaf)),
            Leaf::Tangent { .. } => Shown::of_tangent(least_price(self, part, leaf)),
        }
    }
}
