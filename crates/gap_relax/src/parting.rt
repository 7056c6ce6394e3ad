//! The price that parts the numbers of a least sum from the others.

ghost use Rattle.std.specs.Prelude.{◌≡◌, ℕ, ◌-◌, ◌*◌, ◌<◌, ◌≤◌, length, List, Bool, not, cond, if◌then◌else◌, ℤ, pos, ◌+ℤ◌, int_lt, unsigned_abs};
ghost use Rattle.gap_base.specs.Sums.{sum_below, count_if, at, AreWithin};
ghost use Rattle.gap_relax.specs.Choices.{most_cost};
ghost use Rattle.gap_relax.specs.Partings.{is_tie, takes, with_less, IsParted, IsAround, IsGreatestAt};

/// A price that parts the numbers that are taken from those that are left, and how many are taken.
#[derive(Clone, Copy)]
pub(crate) struct Parting {
    pub(crate) price: i128,
    pub(crate) count: usize,
}

/// How many numbers are below the price.
#[tactic(auto, using(gap_base::proofs::Counts::count_steps))]
pub(crate) fn count_below(numbers: &[i128], price: i128) -> usize
    requires { length numbers.now ≤ 256 }
    ensures count { result ≡ count_if (length numbers.now) (λ i. int_lt (at numbers.now i) price) }
    ensures most { result ≤ length numbers.now }
{
    let mut count = 0;
    for i in 0..numbers.len() {
        count += one_below(numbers[i], price);
    }
    count
}

/// 1 where the number is below the price, else 0.
fn one_below(number: i128, price: i128) -> usize
    ensures value { result ≡ cond (int_lt number price) 1 0 }
    ensures small { result ≤ 1 }
{
    if number < price { 1 } else { 0 }
}

/// The price that parts the numbers of a least sum from the others: 0 where as many are negative as may be taken, else
/// the last of as many as come nearest.
pub(crate) fn parting_of(numbers: &[i128], fewest: usize, most: usize) -> Parting
    requires length { length numbers.now ≤ 256 }
    requires numbers { AreWithin (2 * most_cost) numbers.now }
    requires order { fewest ≤ most }
    requires there { fewest ≤ length numbers.now }
    ensures { IsParted (length numbers.now) fewest most (at numbers.now) result.price result.count }
{
    let negative = count_below(numbers, 0);
    if negative < fewest {
        return Parting {
            price: nth_least(numbers, fewest),
            count: fewest,
        };
    }
    if negative <= most {
        return Parting {
            price: 0,
            count: negative,
        };
    }
    if most == 0 {
        return Parting {
            price: -60_000_000_000_000_000_000_000_000_000_000_000,
            count: 0,
        };
    }
    Parting {
        price: nth_least(numbers, most),
        count: most,
    }
}

/// The `k`-th least of the numbers, counted from 1.
fn nth_least(numbers: &[i128], k: usize) -> i128
    requires length { length numbers.now ≤ 256 }
    requires numbers { AreWithin (2 * most_cost) numbers.now }
    requires least { 1 ≤ k }
    requires most { k ≤ length numbers.now }
    ensures { IsAround (length numbers.now) (at numbers.now) k result }
{
    if k <= 32 {
        let mut row = [0; 32];
        return nth_in_row(&mut row[..k], numbers);
    }
    let mut row = [0; 256];
    nth_least_in(&mut row[..numbers.len()], numbers, k)
}

/// The greatest of the least numbers, as many as there is room for: a number that isn't below the greatest one kept is
/// dropped at once, and else takes its place.
fn nth_in_row(row: &mut [i128], numbers: &[i128]) -> i128
    requires length { length numbers.now ≤ 256 }
    requires least { 1 ≤ length row.old }
    requires most { length row.old ≤ length numbers.now }
    ensures { IsAround (length numbers.now) (at numbers.now) (length row.old) result }
{
    let room = row.len();
    row.copy_from_slice(&numbers[..room]);
    let mut top = place_of_greatest(row);
    for i in room..numbers.len() {
        let number = number_at(numbers, i);
        top = kept_with(row, top, number);
    }
    let last = number_at(row, top);
    last
}

/// The number at place `i`.
fn number_at(numbers: &[i128], i: usize) -> i128
    requires { i < length numbers.now }
    ensures { result ≡ at numbers.now i }
{
    numbers[i]
}

/// Puts a number in the place of the greatest of the row where it is below it; answers the place of the greatest then.
fn kept_with(row: &mut [i128], top: usize, number: i128) -> usize
    requires least { 1 ≤ length row.old }
    requires most { length row.old ≤ 256 }
    requires there { top < length row.old }
    ensures row { row.new ≡ with_less row.old top number }
    ensures there { result < length row.new }
    ensures greatest { IsGreatestAt row.old top → IsGreatestAt row.new result }
{
    if number < row[top] {
        row[top] = number;
        return place_of_greatest(row);
    }
    top
}

/// The place of the greatest number of the row.
fn place_of_greatest(row: &[i128]) -> usize
    requires least { 1 ≤ length row.now }
    requires most { length row.now ≤ 256 }
    ensures there { result < length row.now }
    ensures greatest { IsGreatestAt row.now result }
{
    let mut top = 0;
    for i in 1..row.len() {
        if row[top] < row[i] {
            top = i;
        }
    }
    top
}

/// The same, with room for the numbers in another order.
fn nth_least_in(row: &mut [i128], numbers: &[i128], k: usize) -> i128
    requires length { length row.old ≡ length numbers.now }
    requires numbers { AreWithin (2 * most_cost) numbers.now }
    requires least { 1 ≤ k }
    requires most { k ≤ length numbers.now }
    ensures { IsAround (length numbers.now) (at numbers.now) k result }
{
    row.copy_from_slice(numbers);
    let (_, last, _) = row.select_nth_unstable(k - 1);
    *last
}

/// Is a number taken at a price, where `left` of those at the price may be?
pub(crate) fn is_taken(price: i128, number: i128, left: usize) -> bool
    ensures { result ≡ takes price number left }
{
    number < price || (!(price < number) && 0 < left)
}

/// How many of those at the price may be taken after this number.
pub(crate) fn ties_after(price: i128, number: i128, left: usize) -> usize
    ensures { result ≡ left - cond (is_tie price number) 1 0 }
{
    if number < price || price < number {
        left
    } else {
        left.saturating_sub(1)
    }
}
