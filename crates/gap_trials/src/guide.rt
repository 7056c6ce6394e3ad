//! A guide of searches of the small bound.

ghost use Rattle.std.specs.Prelude.{◌≡◌, ◌≢◌, true, cond, IfSome, IsTrue, ℤ};
ghost use Rattle.gap_model.specs.declared.shown.Shown.TheVariants.{AtLeast, Empty};
ghost use Rattle.gap_model.specs.Order.{ShownLe};
ghost use Rattle.gap_model.specs.Priced.{problem_of, priced_shows};
ghost use Rattle.gap_model.specs.Problems.{IsPart};
ghost use Rattle.gap_model.specs.Tight.{is_tangent, IsTight};
ghost use Rattle.gap_box.specs.Parts.{IsWithin};
ghost use Rattle.gap_model.specs.Showing.{ShowsSo};
ghost use Rattle.gap_search.specs.Boards.{FitsPart};
ghost use Rattle.gap_trials.specs.Small.{small, small_whole, small_meets, small_in_range, cost_of};

use crate::pricing::{cost, list_at, lots_of, numbers, place};
use crate::small::{Small, meets};
use gap_base::{Lots, OutOfMemory};
use gap_box::{Cell, Part, Side, Split};
use gap_model::{Entry, Leaf, NodeBound, Placed, Shown};
use gap_search::{Branch, Guide, Ticket};
use std::alloc::Global;

/// A guide that makes the first split that it finds. A child with more than one list gets the tangent that shows most
/// of those at the 64 points, each with one of three multipliers; where the guide tries lists, the point's list is a
/// candidate. The guide has memory for so many branches, and counts how often it is asked for a list.
#[derive(Drop)]
pub struct Listing<'a> {
    pub points: &'a [Entry],
    pub tries: bool,
    pub branches: u32,
    pub asked: u32,
}

/// The entries of eight times each of the 64 lists of numbers below 4, three for each list.
pub fn all_points(alloc: Global) -> Result<Vec<Entry>, OutOfMemory> {
    let mut points = Vec::new(alloc);
    for k in 0..64 {
        let x = list_at(k);
        points.push(entry(0, x[0]))?;
        points.push(entry(1, x[1]))?;
        points.push(entry(2, x[2]))?;
    }
    Ok(points)
}

/// The entry of a number of lots.
fn entry(asset: u16, lots: u16) -> Entry {
    Entry {
        asset,
        eighths: 8 * u32::from(lots),
    }
}

/// Does one leaf show no more than another?
fn is_no_more(was: Shown, now: Shown) -> bool
    ensures { IsTrue result → ShownLe was now }
{
    match (was, now) {
        (Shown::Nothing, _) => true,
        (Shown::AtLeast(a), Shown::AtLeast(b)) => a <= b,
        (_, Shown::Empty) => true,
        _ => false,
    }
}

/// Is a leaf in range?
fn is_in_range(leaf: &Leaf<'_>) -> bool
    ensures { result ≡ small_in_range leaf.now }
{
    match *leaf {
        Leaf::Count => true,
        Leaf::Void { alpha, .. } => -1000 <= alpha && alpha <= 1000,
        Leaf::Tangent { alpha, .. } => -1000 <= alpha && alpha <= 1000,
    }
}

/// Is a leaf a tangent?
fn is_tangent(leaf: &Leaf<'_>) -> bool
    ensures { result ≡ is_tangent leaf.now }
{
    matches!(leaf, Leaf::Tangent { .. })
}

/// What a leaf shows on a part; Nothing where it isn't in range.
fn said(bound: &Small, part: &Part, leaf: &Leaf<'_>) -> Shown
    requires { IsWithin part.now small_whole }
{
    if is_in_range(leaf) {
        bound.shown(part, leaf)
    } else {
        Shown::Nothing
    }
}

/// The tangent at the list of a place, with a multiplier; the leaf of the count where there is no such place.
fn tangent<'a>(points: &'a [Entry], k: u32, alpha: i128) -> Leaf<'a> {
    let from = 3 * (k as usize);
    if points.len() < from + 3 {
        return Leaf::Count;
    }
    Leaf::Tangent {
        y: &points[from..from + 3],
        alpha,
        tau: 0,
        third: 0,
    }
}

/// The tangent that shows most on a part.
fn best_tangent<'a>(bound: &Small, part: &Part, points: &'a [Entry]) -> Leaf<'a>
    requires { IsWithin part.now small_whole }
{
    let mut best = Leaf::Count;
    let mut most = Shown::Nothing;
    for k in 0..64u32 {
        let leaf = tangent(points, k, 200 * i128::from(k % 3) - 200);
        let shown = said(bound, part, &leaf);
        if is_no_more(most, shown) {
            best = leaf;
            most = shown;
        }
    }
    best
}

/// A leaf for a part whose only list this is.
fn alone<'a>(bound: &Small, x: &Lots, points: &'a [Entry]) -> Leaf<'a> {
    let Some(x) = numbers(x) else {
        return Leaf::Count;
    };
    if meets(bound.lots, &x) {
        return tangent(points, place(&x), 0);
    }
    let alpha = if lots_of(&x) > u32::from(bound.lots) {
        1
    } else {
        -1
    };
    Leaf::Void {
        alpha,
        tau: 0,
        third: 0,
    }
}

/// A leaf that should be tight on a part.
fn proposed<'a>(bound: &Small, part: &Part, points: &'a [Entry]) -> Leaf<'a>
    requires { IsWithin part.now small_whole }
{
    if !part.count_within(1, 2) {
        return Leaf::Count;
    }
    match part.single_within(1, 2) {
        Some(x) => alone(bound, &x, points),
        None => best_tangent(bound, part, points),
    }
}

/// What a tight leaf shows of a part whose only list this is.
fn told_of(bound: &Small, x: &Lots) -> Shown
    ensures { result ≡ cond (small_meets bound.now.lots x.now) (AtLeast (cost_of bound.now.seed x.now)) Empty }
{
    match numbers(x) {
        Some(x) => told_list(bound, &x),
        None => Shown::Empty,
    }
}

/// What a tight leaf shows of a part whose only list has these three numbers.
fn told_list(bound: &Small, x: &[u16; 3]) -> Shown
    ensures { result ≡ cond (small_meets bound.now.lots x.now) (AtLeast (cost_of bound.now.seed x.now)) Empty }
{
    if meets(bound.lots, x) {
        Shown::AtLeast(cost(bound.seed, x))
    } else {
        Shown::Empty
    }
}

/// Is a leaf no tangent, or shows it something else than Empty?
fn is_said_well(leaf: &Leaf<'_>, shown: Shown) -> bool
    ensures { IsTrue result → is_tangent leaf.now ≡ true → shown ≢ Empty }
{
    match shown {
        Shown::Empty => !is_tangent(leaf),
        _ => true,
    }
}

/// Do two leaves show the same?
fn is_same(one: Shown, two: Shown) -> bool
    ensures { IsTrue result → one ≡ two }
{
    one == two
}

/// Does a leaf show a number?
fn is_number(shown: Shown) -> bool
    ensures { IsTrue result → (v : ℤ) × (shown ≡ AtLeast v) }
{
    matches!(shown, Shown::AtLeast(_))
}

/// Is a leaf tight on a part, on which it shows this?
fn is_tight(bound: &Small, part: &Part, leaf: &Leaf<'_>, shown: Shown) -> bool
    requires part { IsPart (small bound.now.seed bound.now.lots) part.now }
    requires shown { shown ≡ (small bound.now.seed bound.now.lots).shows part.now leaf.now }
    ensures { IsTrue result → IsTight (small bound.now.seed bound.now.lots) part.now leaf.now }
{
    if !is_said_well(leaf, shown) {
        return false;
    }
    match part.single_within(1, 2) {
        Some(x) => is_same(shown, told_of(bound, &x)),
        None => {
            if part.count_within(1, 2) {
                is_number(shown)
            } else {
                is_same(shown, Shown::Empty)
            }
        }
    }
}

/// A leaf that is tight on a part, and shows no less there than this, with what it shows; None where the one that is
/// proposed isn't so.
pub fn leaf_for<'a>(
    bound: &Small,
    part: &Part,
    points: &'a [Entry],
    was: Shown,
) -> Option<Placed<'a>>
    requires { IsPart (small bound.now.seed bound.now.lots) part.now }
    ensures fits { IfSome result (λ p. FitsPart (small bound.now.seed bound.now.lots) part.now p.leaf) }
    ensures no_less { IfSome result
        (λ p. ShownLe was ((small bound.now.seed bound.now.lots).shows part.now p.leaf)) }
    ensures shows { IfSome result (λ p. ShowsSo (small bound.now.seed bound.now.lots) part.now p) }
{
    let leaf = proposed(bound, part, points);
    if !is_in_range(&leaf) {
        return None;
    }
    let shown = bound.shown(part, &leaf);
    if is_tight(bound, part, &leaf, shown) && is_no_more(was, shown) {
        Some(Placed { leaf, shown })
    } else {
        None
    }
}

/// The split of a cell, where it can be split.
fn split_of(cell: Cell, i: u16) -> Option<Split> {
    match cell {
        Cell::Out => None,
        Cell::Held { l, u } => { if l < u { Some(Split::Lots(i, l)) } else { None } }
        Cell::Free { .. } => Some(Split::Held(i)),
    }
}

/// The first split of a part that can be made.
fn first_split(part: &Part) -> Option<Split> {
    for i in 0..part.len() {
        if let Some(split) = split_of(part.cell(i), i) {
            return Some(split);
        }
    }
    None
}

/// The list of a point, its eighths rounded down.
fn list_of(y: &[Entry]) -> Lots {
    let mut x = Lots::zeros(3);
    for entry in y {
        if entry.asset < 3 {
            x.set(entry.asset, (entry.eighths / 8 % 65_536) as u16);
        }
    }
    x
}

/// The list at the point of a tangent.
fn point_of(leaf: &Leaf<'_>) -> Option<Lots> {
    match *leaf {
        Leaf::Tangent { y, .. } => Some(list_of(y)),
        _ => None,
    }
}

impl<'a> Guide<'a, Small> for Listing<'a> {
    ghost use Rattle.std.specs.Prelude.{IsTrue};
    ghost use Rattle.gap_box.specs.Splits.{lawful_split};
    ghost use Rattle.gap_trials.specs.Small.{small};
    ghost use Rattle.gap_search.specs.Boards.{FitsPart};

    ghost allows = { λ b part split. IsTrue (lawful_split part split) };

    ghost fits = { λ b part leaf. FitsPart (small b.seed b.lots) part leaf };

    fn branch(
        &mut self,
        bound: &Small,
        ticket: &Ticket,
        leaf: &Leaf<'a>,
    ) -> Result<Branch<'a>, OutOfMemory> {
        let part = ticket.part();
        let Some(split) = first_split(part) else {
            return Err(OutOfMemory);
        };
        if self.branches == 0 || !part.lawful(split) {
            return Err(OutOfMemory);
        }
        self.branches -= 1;
        let was = bound.shown(part, leaf);
        let one = part.child(split, Side::First);
        let two = part.child(split, Side::Second);
        let Some(first) = leaf_for(bound, &one, self.points, was) else {
            return Err(OutOfMemory);
        };
        let Some(second) = leaf_for(bound, &two, self.points, was) else {
            return Err(OutOfMemory);
        };
        Ok(Branch {
            split,
            first,
            second,
        })
    }

    fn candidate(&mut self, _bound: &Small, _part: &Part, leaf: &Leaf<'a>) -> Option<Lots> {
        self.asked = self.asked.wrapping_add(1);
        if self.tries { point_of(leaf) } else { None }
    }
}
