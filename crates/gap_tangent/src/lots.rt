//! The fewest and the most lots of a part's lists that hold from K1 to K2 assets.

ghost use Rattle.std.specs.Prelude.{◌≡◌, ◌+◌, ◌-◌, ◌*◌, ◌<◌, ◌≤◌, cond, true};
ghost use Rattle.gap_box.specs.Cells.{IsCell};
ghost use Rattle.gap_box.specs.Parts.{can_meet, helds};
ghost use Rattle.gap_tangent.specs.Lots.{AreFewestLots, AreMostLots, end_of, distance_of, held_end, is_under, short_of, held_ends, unders, shorts, IsParting};

use gap_box::{Cell, Part};

/// An end of the range of lots of an asset.
#[derive(Clone, Copy)]
pub(crate) enum End {
    Least,
    Greatest,
}

/// The lots at an end of a range.
fn end_of(end: End, l: u16, u: u16) -> u16
    ensures { result ≡ end_of end l u }
{
    match end {
        End::Least => l,
        End::Greatest => u,
    }
}

/// How far that end is from the best that there could be: the least from 0, the greatest from 10000.
fn distance_of(end: End, l: u16, u: u16) -> u16
    requires l { l ≤ 10000 }
    requires u { u ≤ 10000 }
    ensures value { result ≡ distance_of end l u }
    ensures small { result ≤ 10000 }
{
    match end {
        End::Least => l,
        End::Greatest => 10000 - u,
    }
}

/// The lots at the end of a cell that must be held, else 0.
fn held_end(end: End, cell: Cell) -> u32
    requires { IsCell cell }
    ensures value { result ≡ held_end end cell }
    ensures small { result ≤ 10000 }
{
    match cell {
        Cell::Held { l, u } => u32::from(end_of(end, l, u)),
        _ => 0,
    }
}

/// The lots at the ends of the cells that must be held. One pass.
fn held_ends(end: End, part: &Part) -> u32
    ensures value { result ≡ held_ends end part.now }
    ensures small { result ≤ 256 * 10000 }
{
    let mut sum = 0;
    for i in 0..part.len() {
        sum += held_end(end, part.cell(i));
    }
    sum
}

/// 1 where a cell is free with a distance below `t`, else 0.
fn one_under(end: End, t: u16, cell: Cell) -> u16
    requires { IsCell cell }
    ensures value { result ≡ cond (is_under end t cell) 1 0 }
    ensures small { result ≤ 1 }
{
    match cell {
        Cell::Free { l, u } => u16::from(distance_of(end, l, u) < t),
        _ => 0,
    }
}

/// How many free cells have a distance below `t`. One pass.
fn unders(end: End, t: u16, part: &Part) -> u16
    ensures value { result ≡ unders end t part.now }
    ensures small { result ≤ 256 }
{
    let mut count = 0;
    for i in 0..part.len() {
        count += one_under(end, t, part.cell(i));
    }
    count
}

/// How far the distance of a free cell is below `t`.
fn short_of(end: End, t: u16, cell: Cell) -> u32
    requires cell { IsCell cell }
    requires t { t ≤ 10000 }
    ensures value { result ≡ short_of end t cell }
    ensures small { result ≤ 10000 }
{
    match cell {
        Cell::Free { l, u } => u32::from(t.saturating_sub(distance_of(end, l, u))),
        _ => 0,
    }
}

/// How far the distances of all free cells are below `t`, together. One pass.
fn shorts(end: End, t: u16, part: &Part) -> u32
    requires { t ≤ 10000 }
    ensures value { result ≡ shorts end t part.now }
    ensures small { result ≤ 256 * 10000 }
{
    let mut sum = 0;
    for i in 0..part.len() {
        sum += short_of(end, t, part.cell(i));
    }
    sum
}

/// The distance of the first free cell, 0 where none is free.
fn first_distance(end: End, part: &Part) -> u16
    ensures { result ≤ 10000 }
{
    for i in 0..part.len() {
        if let Cell::Free { l, u } = part.cell(i) {
            return distance_of(end, l, u);
        }
    }
    0
}

/// Two distances, of which the lower one has at most, and the higher one at least, as many free cells below it as are
/// parted.
#[derive(Clone, Copy)]
struct Bracket {
    low: u16,
    high: u16,
}

/// The bracket with one of its ends brought to a distance between them. One pass.
fn narrowed(end: End, part: &Part, k: u16, bracket: Bracket, probe: u16) -> Bracket
    requires low { unders end bracket.low part.now ≤ k }
    requires high { k ≤ unders end bracket.high part.now }
    ensures low { unders end result.low part.now ≤ k }
    ensures high { k ≤ unders end result.high part.now }
    ensures order { bracket.low < bracket.high → result.low < result.high }
    ensures within { result.high ≤ bracket.high }
    ensures less { bracket.low < probe → probe < bracket.high
        → result.high - result.low < bracket.high - bracket.low }
{
    if probe <= bracket.low || bracket.high <= probe {
        return bracket;
    }
    if unders(end, probe, part) < k {
        Bracket {
            low: probe,
            high: bracket.high,
        }
    } else {
        Bracket {
            low: bracket.low,
            high: probe,
        }
    }
}

/// A distance that parts `k` free cells from the others. Where all free cells have the same range it takes two passes, else
/// at most 16.
fn parting(end: End, part: &Part, k: u16) -> u16
    requires { k ≤ unders end 10001 part.now }
    ensures parts { IsParting end part.now k result }
    ensures small { result ≤ 10000 }
{
    let whole = Bracket {
        low: 0,
        high: 10001,
    };
    let guess = first_distance(end, part);
    let half = narrowed(end, part, k, whole, guess);
    let mut bracket = narrowed(end, part, k, half, guess + 1);
    while bracket.high - bracket.low > 1 {
        let middle = bracket.low + (bracket.high - bracket.low) / 2;
        bracket = narrowed(end, part, k, bracket, middle);
    }
    bracket.low
}

/// `k` times a price.
fn priced(k: u16, price: u16) -> u32
    requires k { k ≤ 256 }
    requires price { price ≤ 10000 }
    ensures value { result ≡ k * price }
    ensures small { result ≤ 256 * 10000 }
{
    u32::from(k) * u32::from(price)
}

/// The fewest lots of all lists of the part that hold from `fewest` to `most` assets: those at the least ends of the cells
/// that must be held, and of as few further ones as may be. It takes no memory, and costs O(N).
pub(crate) fn fewest_lots(part: &Part, fewest: u16, most: u16) -> u32
    requires order { fewest ≤ most }
    requires met { can_meet part.now fewest most ≡ true }
    ensures value { AreFewestLots part.now fewest most result }
    ensures small { result ≤ 512 * 10000 }
{
    let _cells = part.len();
    let k = fewest.saturating_sub(part.held_cells());
    let t = parting(End::Least, part, k);
    held_ends(End::Least, part) + priced(k, t) - shorts(End::Least, t, part)
}

/// The most lots of all lists of the part that hold from `fewest` to `most` assets: those at the greatest ends of the cells
/// that must be held, and of as many further ones as may be. It takes no memory, and costs O(N).
pub(crate) fn most_lots(part: &Part, fewest: u16, most: u16) -> u32
    requires order { fewest ≤ most }
    requires met { can_meet part.now fewest most ≡ true }
    ensures value { AreMostLots part.now fewest most result }
    ensures small { result ≤ 768 * 10000 }
{
    let _cells = part.len();
    let k = (most - part.held_cells()).min(unders(End::Greatest, 10001, part));
    let t = parting(End::Greatest, part, k);
    held_ends(End::Greatest, part) + priced(k, 10000 - t) + shorts(End::Greatest, t, part)
}
