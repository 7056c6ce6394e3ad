//! The least cost over the ways to hold the cells of a part: rows by hand and by listing.

ghost use Rattle.std.specs.Prelude.{◌≡◌, ◌≤◌, length};

use gap_base::Lots;
use gap_box::{Part, Side, Split};
use gap_relax::{LeastRow, least, least_with_slope, least_within};

/// Two assets that may be held with one lot.
fn two_free() -> Part
    ensures { length result ≡ 2 }
{
    let mut ones = Lots::zeros(2);
    ones.set(0, 1);
    ones.set(1, 1);
    Part::root(&ones, &ones)
}

/// The least cost of exactly `k` of two assets, which cost 5 and 9 where they are held, and 0 and 8 where not.
fn least_of(part: &Part, k: u16) -> Option<i128>
    requires { length part.now ≡ 2 }
{
    least(part, &[5, 9], &[0, 8], k)
}

/// The part in which the first asset is held, or isn't.
fn first_asset(side: Side) -> Part
    ensures { length result ≡ 2 }
{
    let part = two_free();
    if part.lawful(Split::Held(0)) {
        part.child(Split::Held(0), side)
    } else {
        part
    }
}

#[test]
fn holds_the_cell_that_saves_most(rt: HostRuntime) {
    for (k, due) in [(0, Some(8)), (1, Some(9)), (2, Some(14)), (3, None)] {
        assert_eq!(rt; least_of(&two_free(), k), due, "{k}");
    }
    let held = first_asset(Side::Second);
    assert_eq!(rt; (least_of(&held, 2), least_of(&held, 0)), (Some(14), None));
    assert_eq!(rt; least_of(&first_asset(Side::First), 2), None);
}

/// Four assets that may be held with one lot.
fn four_free() -> Part
    ensures { length result ≡ 4 }
{
    let mut ones = Lots::zeros(4);
    ones.set(0, 1);
    ones.set(1, 1);
    ones.set(2, 1);
    ones.set(3, 1);
    Part::root(&ones, &ones)
}

/// The least cost of four assets that cost 5, -3, -3 and 2 more where they are held, with its slope.
fn slope_of(fewest: u16, most: u16) -> Option<(i128, i128)>
    requires { fewest ≤ most }
{
    let costs = [5, -3, -3, 2];
    let slopes = [1, 10, 100, 1000];
    let part = four_free();
    let chosen = least_with_slope(&part, &costs, &[0; 4], &slopes, &[0; 4], fewest, most)?;
    Some((chosen.value, chosen.slope))
}

#[test]
fn slopes_of_ranges(rt: HostRuntime) {
    assert_eq!(rt; slope_of(0, 0), Some((0, 0)));
    assert_eq!(rt; slope_of(0, 1), Some((-3, 10)));
    assert_eq!(rt; slope_of(1, 3), Some((-6, 110)));
    assert_eq!(rt; slope_of(3, 4), Some((-4, 1110)));
    assert_eq!(rt; slope_of(4, 4), Some((1, 1111)));
}

/// The least cost of two assets that cost 5 and -3 more where they are held.
fn one_saves(fewest: u16, most: u16) -> Option<i128>
    requires { fewest ≤ most }
{
    least_within(&two_free(), &[5, -3], &[0, 0], fewest, most)
}

/// That of two assets that cost 5 and 3 more.
fn none_saves(fewest: u16, most: u16) -> Option<i128>
    requires { fewest ≤ most }
{
    least_within(&two_free(), &[5, 3], &[0, 0], fewest, most)
}

/// That of two assets that cost 5 and 3 less.
fn both_save(fewest: u16, most: u16) -> Option<i128>
    requires { fewest ≤ most }
{
    least_within(&two_free(), &[-5, -3], &[0, 0], fewest, most)
}

/// The least cost of one or two of two assets that cost 5 and -3 more where they are held, with its slope: 7 and 2 where
/// they are held, and 1 where they aren't.
fn line_of_two() -> Option<(i128, i128)> {
    let chosen = least_with_slope(&two_free(), &[5, -3], &[0, 0], &[7, 2], &[1, 1], 1, 2)?;
    Some((chosen.value, chosen.slope))
}

#[test]
fn holds_as_many_as_save(rt: HostRuntime) {
    assert_eq!(rt; (one_saves(1, 2), one_saves(2, 2)), (Some(-3), Some(2)));
    assert_eq!(rt; (none_saves(0, 2), both_save(0, 1)), (Some(0), Some(-5)));
    assert_eq!(rt; (one_saves(3, 4), line_of_two()), (None, Some((-3, 3))));
}

/// The least cost of seven cells of which five are free, and its slope.
fn least_of_seven(fewest: u16, most: u16) -> (i128, i128)
    requires order { fewest ≤ most }
    requires few { most ≤ 32 }
{
    let mut row = LeastRow::new(fewest, most);
    row.hold(5, 1);
    row.offer(9, 10, 5, 3);
    row.offer(2, 100, 5, 0);
    row.leave(-1, 1000);
    row.offer(-2, 7, 5, 0);
    row.offer(3, 20000, 1, -20000);
    row.offer(6, -5, 5, 5);
    let chosen = row.chosen();
    (chosen.value, chosen.slope)
}

/// The same, and 0 where the range is none.
fn seven(fewest: u16, most: u16) -> (i128, i128) {
    if fewest <= most && most <= 32 {
        least_of_seven(fewest, most)
    } else {
        (0, 0)
    }
}

// By listing all 32 ways outside: holding a free cell costs 4, -3, -7, 2 and 1 more, in this order.
#[test]
fn least_of_each_range(rt: HostRuntime) {
    for (fewest, most, value, slope) in [
        (0, 0, 25, -18991),
        (0, 1, 18, -18984),
        (0, 2, 15, -18884),
        (0, 3, 15, -18884),
        (0, 5, 15, -18884),
        (1, 1, 18, -18984),
        (1, 2, 15, -18884),
        (1, 5, 15, -18884),
        (2, 2, 15, -18884),
        (2, 4, 15, -18884),
        (3, 3, 16, -18894),
        (3, 5, 16, -18894),
        (4, 4, 18, 21106),
        (4, 5, 18, 21106),
        (5, 5, 22, 21113),
    ] {
        assert_eq!(rt; seven(fewest, most), (value, slope), "{fewest} to {most}");
    }
}
