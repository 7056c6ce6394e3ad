//! Costs and prices of lists of three numbers.

ghost use Rattle.std.specs.Prelude.{◌≡◌, ◌≢◌, ℕ, ◌<◌, ◌≤◌, false, length, slice_index_or, MatchOption, IsTrue, unsigned_abs, pos, ◌-ℤ◌, ◌+◌, ◌*◌, ◌%◌, ◌^◌, ◌+ℤ◌, ◌*ℤ◌, sum};
ghost use Rattle.gap_box.specs.Cells.{in_cell};
ghost use Rattle.gap_box.specs.Parts.{in_part, held_count, IsPick};
ghost use Rattle.gap_model.specs.Leaves.{eighths_at};
ghost use Rattle.gap_trials.specs.Small.{list_at, place_of, cost_of, small_meets, apart, distance, charge};

use gap_base::Lots;
use gap_box::{Cell, Part};
use gap_model::Entry;

/// The three numbers of a list; None where it has another length.
pub fn numbers(x: &Lots) -> Option<[u16; 3]>
    ensures { MatchOption result (length x.now ≢ 3) (λ r. r ≡ x.now) }
{
    if x.len() == 3 {
        Some([x.get(0), x.get(1), x.get(2)])
    } else {
        None
    }
}

/// The list at a place.
pub fn list_at(k: u16) -> [u16; 3]
    requires { k < 64 }
    ensures { result ≡ list_at k }
{
    [k % 4, k / 4 % 4, k / 16]
}

/// How many lots a list has.
pub fn lots_of(x: &[u16; 3]) -> u32
    ensures value { result ≡ sum x.now }
    ensures small { result < 196608 }
{
    u32::from(x[0]) + u32::from(x[1]) + u32::from(x[2])
}

/// How many assets a list holds.
pub fn held_of(x: &[u16; 3]) -> u32
    ensures { result ≡ held_count x.now }
{
    u32::from(x[0] > 0) + u32::from(x[1] > 0) + u32::from(x[2] > 0)
}

/// Does a cell allow a number of lots?
fn allows(cell: Cell, v: u16) -> bool
    ensures { result ≡ in_cell cell v }
{
    match cell {
        Cell::Out => v == 0,
        Cell::Held { l, u } => l <= v && v <= u,
        Cell::Free { l, u } => v == 0 || (l <= v && v <= u),
    }
}

/// Is a list one of a part of three cells?
pub fn is_in(part: &Part, x: &[u16; 3]) -> bool
    requires { length part.now ≡ 3 }
    ensures { result ≡ in_part part.now x.now }
{
    allows(part.cell(0), x[0]) && allows(part.cell(1), x[1]) && allows(part.cell(2), x[2])
}

/// Is a list one of a part of three cells that holds one or two assets?
pub fn is_pick(part: &Part, x: &[u16; 3]) -> bool
    requires { length part.now ≡ 3 }
    ensures yes { IsTrue result → IsPick part.now 1 2 x.now }
    ensures no { result ≡ false → IsPick part.now 1 2 x.now → ⊥ }
{
    let held = held_of(x);
    is_in(part, x) && 1 <= held && held <= 2
}

/// Where a list of numbers below 4 stands among the 64.
pub fn place(x: &[u16; 3]) -> u32
    ensures value { result ≡ place_of x.now }
    ensures small { result < 2000000 }
{
    u32::from(x[0]) + 4 * u32::from(x[1]) + 16 * u32::from(x[2])
}

/// A number below 97, by a place and a seed.
fn scattered(seed: u16, place: u32) -> u64
    requires { place < 2000000 }
    ensures value { result ≡ seed * (place + 1) * (place + 1) % 97 }
    ensures small { result < 97 }
{
    let next = u64::from(place) + 1;
    u64::from(seed) * next * next % 97
}

/// What a list costs.
pub fn cost(seed: u16, x: &[u16; 3]) -> i128
    ensures value { result ≡ cost_of seed x.now }
    ensures small { unsigned_abs result ≤ 48 }
{
    i128::from(scattered(seed, place(x))) - 48
}

/// The eighths that entries give to an asset.
fn eighths_of(y: &[Entry], i: u16) -> u32
    ensures { pos result ≡ eighths_at y.now i }
{
    for entry in y {
        if entry.asset == i {
            return entry.eighths;
        }
    }
    0
}

/// How far a point is from eight times a number of lots at one asset.
fn apart(y: &[Entry], v: u16, i: u16) -> u64
    ensures value { result ≡ unsigned_abs (pos (8 * v) -ℤ eighths_at y.now i) }
    ensures small { result < 2 ^ 33 }
{
    (8 * u64::from(v)).abs_diff(u64::from(eighths_of(y, i)))
}

/// How far a point is from eight times a list.
pub fn distance(y: &[Entry], x: &[u16; 3]) -> u64
    ensures value { result ≡ distance y.now x.now }
    ensures small { result < 2 ^ 40 }
{
    apart(y, x[0], 0) + apart(y, x[1], 1) + apart(y, x[2], 2)
}

/// A multiplier times a number of lots.
fn times(alpha: i128, beyond: i128) -> i128
    requires alpha { unsigned_abs alpha ≤ 1000 }
    requires beyond { unsigned_abs beyond ≤ 200000 }
    ensures value { result ≡ alpha *ℤ beyond }
    ensures small { unsigned_abs result ≤ 200000000 }
{
    alpha * beyond
}

/// How many lots a list has beyond their number.
fn beyond(lots: u16, x: &[u16; 3]) -> i128
    ensures value { result ≡ pos (sum x.now) -ℤ pos lots }
    ensures small { unsigned_abs result ≤ 200000 }
{
    i128::from(lots_of(x)) - i128::from(lots)
}

/// A number less a distance, 64 times.
fn widened(cost: i128, distance: u64) -> i128
    requires cost { unsigned_abs cost ≤ 48 }
    requires distance { distance < 2 ^ 40 }
    ensures value { result ≡ pos 64 *ℤ (cost -ℤ pos distance) }
    ensures small { unsigned_abs result ≤ 2 ^ 47 }
{
    64 * less(cost, distance)
}

/// A number less a distance.
fn less(cost: i128, distance: u64) -> i128
    requires cost { unsigned_abs cost ≤ 48 }
    requires distance { distance < 2 ^ 40 }
    ensures value { result ≡ cost -ℤ pos distance }
    ensures small { unsigned_abs result ≤ 2 ^ 41 }
{
    cost - i128::from(distance)
}

/// The price of a tangent by the cost of a list, how far the point is from it, and what it is charged.
pub fn joined(cost: i128, distance: u64, charge: i128) -> i128
    requires cost { unsigned_abs cost ≤ 48 }
    requires distance { distance < 2 ^ 40 }
    requires charge { unsigned_abs charge ≤ 200000000 }
    ensures { result ≡ pos 64 *ℤ (cost -ℤ pos distance) +ℤ charge }
{
    widened(cost, distance) + charge
}

/// What a list is charged for the lots that it has beyond their number.
pub fn charge(lots: u16, alpha: i128, x: &[u16; 3]) -> i128
    requires { unsigned_abs alpha ≤ 1000 }
    ensures value { result ≡ charge lots alpha x.now }
    ensures small { unsigned_abs result ≤ 200000000 }
{
    times(alpha, beyond(lots, x))
}
