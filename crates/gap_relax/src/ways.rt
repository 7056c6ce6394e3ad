//! The least cost over the ways to hold the cells of a part.

ghost use Rattle.std.specs.Prelude.{◌≡◌, ℕ, ◌+◌, ◌-◌, ◌*◌, ◌^◌, ◌<◌, ◌≤◌, ◌↔◌, length, take, List, ℤ, pos, ◌-ℤ◌, ◌+ℤ◌, unsigned_abs, slice_index_or, IsNone, IfSome, IsFalse, IsTrue, if◌then◌else◌, cond, [], ◌∷◌, ◌++◌, ◌&&◌};
ghost use Rattle.gap_base.specs.Sums.{sum_below, at, AreWithin};
ghost use Rattle.gap_box.specs.Cells.{is_held, is_free};
ghost use Rattle.gap_box.specs.Parts.{can_meet, helds, frees};
ghost use Rattle.gap_relax.specs.Choices.{most_cost, total, IsLeastChoice, IsLeastWay};
ghost use Rattle.gap_relax.specs.Differences.{free_differences, IsShare, holds_at, way};
ghost use Rattle.gap_relax.specs.Partings.{is_tie};

use crate::parting::{count_below, is_taken, parting_of, ties_after};
use gap_box::{Cell, Part};

/// The cost of a way to hold some cells, and the sum of the slopes that stand beside its costs.
#[derive(Clone, Copy, PartialEq, Eq, Debug)]
pub struct Chosen {
    pub value: i128,
    pub slope: i128,
}

/// The least sum of costs over all ways to hold exactly `k` cells of the part: `least_within` with equal numbers.
pub fn least(part: &Part, held_cost: &[i128], out_cost: &[i128], k: u16) -> Option<i128>
    requires held_length { length held_cost.now ≡ length part.now }
    requires out_length { length out_cost.now ≡ length part.now }
    requires held_small { AreWithin most_cost held_cost.now }
    requires out_small { AreWithin most_cost out_cost.now }
    ensures some { IfSome result (λ v. IsLeastChoice part.now (at held_cost.now) (at out_cost.now) k k v) }
    ensures none { IsNone result ↔ IsFalse (can_meet part.now k k) }
    ensures small { IfSome result (λ v. unsigned_abs v ≤ 256 * most_cost) }
{
    least_within(part, held_cost, out_cost, k, k)
}

/// The least sum of costs over all ways to hold from `fewest` to `most` cells of the part, where cells that must be held
/// are and cells that are out aren't: `held_cost` has the costs of being held, `out_cost` those of not being, each at
/// most 3 * 10^34 in size. None exactly where there is no such way, so where the count can't be met.
///
/// It takes no memory, and O(N log N) time at most, O(N) on average. No sum on the way is above 7.68 * 10^36 in size.
pub fn least_within(
    part: &Part,
    held_cost: &[i128],
    out_cost: &[i128],
    fewest: u16,
    most: u16,
) -> Option<i128>
    requires held_length { length held_cost.now ≡ length part.now }
    requires out_length { length out_cost.now ≡ length part.now }
    requires held_small { AreWithin most_cost held_cost.now }
    requires out_small { AreWithin most_cost out_cost.now }
    requires order { fewest ≤ most }
    ensures some { IfSome result (λ v. IsLeastChoice part.now (at held_cost.now) (at out_cost.now) fewest most v) }
    ensures none { IsNone result ↔ IsFalse (can_meet part.now fewest most) }
    ensures small { IfSome result (λ v. unsigned_abs v ≤ 256 * most_cost) }
{
    let flat = [0; 256];
    let flat = &flat[..usize::from(part.len())];
    match least_with_slope(part, held_cost, out_cost, flat, flat, fewest, most) {
        Some(chosen) => Some(chosen.value),
        None => None,
    }
}

/// The same least, with the sum of the slopes of a way that has it: each cell has a slope where it is held and one where
/// it isn't, each at most 20000 in size. It costs what `least_within` costs.
pub fn least_with_slope(
    part: &Part,
    held_cost: &[i128],
    out_cost: &[i128],
    held_slope: &[i32],
    out_slope: &[i32],
    fewest: u16,
    most: u16,
) -> Option<Chosen>
    requires held_length { length held_cost.now ≡ length part.now }
    requires out_length { length out_cost.now ≡ length part.now }
    requires held_small { AreWithin most_cost held_cost.now }
    requires out_small { AreWithin most_cost out_cost.now }
    requires held_slopes { length held_slope.now ≡ length part.now }
    requires out_slopes { length out_slope.now ≡ length part.now }
    requires held_flat { AreWithin 20000 held_slope.now }
    requires out_flat { AreWithin 20000 out_slope.now }
    requires order { fewest ≤ most }
    ensures some { IfSome result
        (λ c. IsLeastWay part.now (at held_cost.now) (at out_cost.now) (at held_slope.now) (at out_slope.now) fewest
        most c.value c.slope) }
    ensures none { IsNone result ↔ IsFalse (can_meet part.now fewest most) }
    ensures small { IfSome result (λ c. unsigned_abs c.value ≤ 256 * most_cost) }
    ensures slope_small { IfSome result (λ c. unsigned_abs c.slope ≤ 256 * 20000) }
{
    if !part.count_within(fewest, most) {
        return None;
    }
    let share = share_of(part, held_cost, out_cost, fewest, most);
    Some(sums_by(
        part,
        held_cost,
        out_cost,
        held_slope,
        out_slope,
        share.price,
        share.ties,
    ))
}

/// Which free cells a least way holds: those whose difference is below a price, and the first ones at it.
#[derive(Clone, Copy)]
struct Share {
    price: i128,
    ties: usize,
}

/// The share of the free cells that a least way holds.
fn share_of(part: &Part, held_cost: &[i128], out_cost: &[i128], fewest: u16, most: u16) -> Share
    requires held_length { length held_cost.now ≡ length part.now }
    requires out_length { length out_cost.now ≡ length part.now }
    requires held_small { AreWithin most_cost held_cost.now }
    requires out_small { AreWithin most_cost out_cost.now }
    requires order { fewest ≤ most }
    requires met { IsTrue (can_meet part.now fewest most) }
    ensures { IsShare part.now held_cost.now out_cost.now fewest most result.price result.ties }
{
    let mut differences = [0; 256];
    let free = fill(part, held_cost, out_cost, &mut differences);
    let differences = &differences[..free];
    let held = part.held_cells();
    let parting = parting_of(
        differences,
        usize::from(fewest.saturating_sub(held)),
        usize::from(most - held),
    );
    Share {
        price: parting.price,
        ties: parting.count - count_below(differences, parting.price),
    }
}

/// The costs and the slopes of the way that a share gives, added up cell by cell.
fn sums_by(
    part: &Part,
    held_cost: &[i128],
    out_cost: &[i128],
    held_slope: &[i32],
    out_slope: &[i32],
    price: i128,
    ties: usize,
) -> Chosen
    requires held_length { length held_cost.now ≡ length part.now }
    requires out_length { length out_cost.now ≡ length part.now }
    requires held_small { AreWithin most_cost held_cost.now }
    requires out_small { AreWithin most_cost out_cost.now }
    requires held_slopes { length held_slope.now ≡ length part.now }
    requires out_slopes { length out_slope.now ≡ length part.now }
    requires held_flat { AreWithin 20000 held_slope.now }
    requires out_flat { AreWithin 20000 out_slope.now }
    ensures value { result.value
        ≡ total (length part.now) (at held_cost.now) (at out_cost.now)
        (way part.now held_cost.now out_cost.now price ties) }
    ensures slope { result.slope
        ≡ total (length part.now) (at held_slope.now) (at out_slope.now)
        (way part.now held_cost.now out_cost.now price ties) }
    ensures value_small { unsigned_abs result.value ≤ 256 * most_cost }
    ensures slope_small { unsigned_abs result.slope ≤ 256 * 20000 }
{
    let mut value: i128 = 0;
    let mut slope: i128 = 0;
    let mut left = ties;
    for i in 0..part.len() {
        let cell = part.cell(i);
        let here = cost_at(held_cost, i);
        let away = cost_at(out_cost, i);
        let difference = here - away;
        let held = is_held_by(cell, price, difference, left);
        value += chosen_cost(held, here, away);
        slope += chosen_slope(held, slope_at(held_slope, i), slope_at(out_slope, i));
        left = left_after(cell, price, difference, left);
    }
    Chosen { value, slope }
}

/// Is the cell held at a price, where `left` of those at the price may be?
fn is_held_by(cell: Cell, price: i128, difference: i128, left: usize) -> bool
    ensures { result ≡ holds_at cell price difference left }
{
    match cell {
        Cell::Out => false,
        Cell::Held { .. } => true,
        Cell::Free { .. } => is_taken(price, difference, left),
    }
}

/// How many of those at the price may be held after this cell.
fn left_after(cell: Cell, price: i128, difference: i128, left: usize) -> usize
    ensures { result ≡ left - cond (is_free cell && is_tie price difference) 1 0 }
{
    match cell {
        Cell::Free { .. } => ties_after(price, difference, left),
        _ => left,
    }
}

/// The cost of the side that is chosen.
fn chosen_cost(held: bool, here: i128, away: i128) -> i128
    requires here { unsigned_abs here ≤ 30000000000000000000000000000000000 }
    requires away { unsigned_abs away ≤ 30000000000000000000000000000000000 }
    ensures value { result ≡ (if held then here else away) }
    ensures small { unsigned_abs result ≤ 30000000000000000000000000000000000 }
{
    if held { here } else { away }
}

/// The slope of the side that is chosen.
fn chosen_slope(held: bool, here: i32, away: i32) -> i128
    requires here { unsigned_abs here ≤ 20000 }
    requires away { unsigned_abs away ≤ 20000 }
    ensures value { result ≡ (if held then here else away) }
    ensures small { unsigned_abs result ≤ 20000 }
{
    if held {
        i128::from(here)
    } else {
        i128::from(away)
    }
}

/// The cost at place `i`.
fn cost_at(costs: &[i128], i: u16) -> i128
    requires there { i < length costs.now }
    requires small { AreWithin most_cost costs.now }
    ensures value { result ≡ at costs.now i }
    ensures small { unsigned_abs result ≤ 30000000000000000000000000000000000 }
{
    costs[usize::from(i)]
}

/// The slope at place `i`.
fn slope_at(slopes: &[i32], i: u16) -> i32
    requires there { i < length slopes.now }
    requires small { AreWithin 20000 slopes.now }
    ensures value { result ≡ at slopes.now i }
    ensures small { unsigned_abs result ≤ 20000 }
{
    slopes[usize::from(i)]
}

/// Writes the differences of the free cells to the front of `differences`, in order, and answers how many there are.
#[tactic(auto, using(crate::proofs::Places::difference_steps))]
fn fill(part: &Part, held_cost: &[i128], out_cost: &[i128], differences: &mut [i128; 256]) -> usize
    requires held_length { length held_cost.now ≡ length part.now }
    requires out_length { length out_cost.now ≡ length part.now }
    requires held_small { AreWithin most_cost held_cost.now }
    requires out_small { AreWithin most_cost out_cost.now }
    ensures filled { take result differences.new ≡ free_differences (length part.now) part.now held_cost.now out_cost.now }
    ensures most { result ≤ 256 }
{
    let mut free = 0;
    for i in 0..part.len() {
        let difference = cost_at(held_cost, i) - cost_at(out_cost, i);
        free = put_free(differences, free, part.cell(i), difference);
    }
    free
}

/// Puts the difference of a free cell behind the first `free`; answers how many there are then.
fn put_free(differences: &mut [i128; 256], free: usize, cell: Cell, difference: i128) -> usize
    requires { free < 256 }
    ensures put { take result differences.new ≡ take free differences.old ++ (if is_free cell then difference ∷ [] else []) }
    ensures few { result ≤ free + 1 }
{
    match cell {
        Cell::Free { .. } => {
            differences[free] = difference;
            free + 1
        }
        _ => free,
    }
}
