//! Thetas of small instances, by the crate and by going over all lists of a part.

ghost use Rattle.std.specs.Prelude.{◌≡◌, ◌<◌, ◌≤◌, ◌*◌, ◌≤ℤ◌, pos, unsigned_abs, Some, None, length, slice_index_or, IfOk};
ghost use Rattle.gap_box.specs.Parts.{IsWithin, root_cells};
ghost use Rattle.gap_model.specs.Leaves.{IsPoint, AreMultipliers};
ghost use Rattle.gap_tangent.specs.Seen.{setting_of};

use crate::drawing::{drawn, instance, lots_between, point, shift_of, split_once};
use crate::tangent::listing::listed;
use gap_base::{Eighths, OutOfMemory, Weight, Witness};
use gap_box::{Part, Side, Split};
use gap_instance::Instance;
use gap_lines::Line;
use gap_model::{Entry, Leaf, NodeBound, Shown};
use gap_psd::{Shift, dominant};
use gap_samples::two_assets;
use gap_tangent::{MeanVariance, Tangent, theta, void_theta};
use std::alloc::Global;
use std::test::Fail;

mod listing;

/// Theta of the root.
fn root_theta(mv: &MeanVariance<'_>, w: &Witness) -> Option<i128>
    requires point { IsPoint (setting_of mv.now).instance w.now.y }
    requires multipliers { AreMultipliers (setting_of mv.now).instance.turnover w.now.alpha w.now.tau }
{
    theta(mv, &mv.root(), w)
}

/// Thetas of the two assets at the point (63, 17) for this alpha: of the root, and of the part without the second asset.
fn thetas_at(alloc: Global, alpha: i128) -> Result<(Option<i128>, Option<i128>), OutOfMemory>
    requires { unsigned_abs alpha ≤ 1000000000000000000000000000000 }
{
    let inst = two_assets(alloc, 2)?;
    let shift = Shift::zero(alloc, 2)?;
    if dominant(&inst, &shift).is_some() {
        return Ok((None, None));
    }
    let mv = MeanVariance::new(&inst, &shift, Weight { p: 1, q: 2 });
    let mut y = Eighths::zeros(2);
    y.set(0, 63);
    y.set(1, 17);
    let w = Witness { y, alpha, tau: 0 };
    let root = mv.root();
    let split = Split::Held(1);
    if !root.lawful(split) {
        return Ok((None, None));
    }
    let out = root.child(split, Side::First);
    Ok((root_theta(&mv, &w), theta(&mv, &out, &w)))
}

#[test]
fn thetas_of_two_assets(rt: HostRuntime) -> Result<(), Fail> {
    let best = thetas_at(rt.alloc(), -9_440_000_000_000_000_000)?;
    assert_eq!(rt; best, (Some(43_310_000_000_000_000_000), None));
    let zero = thetas_at(rt.alloc(), 0)?;
    assert_eq!(rt; zero, (Some(-32_210_000_000_000_000_000), None));
    Ok(())
}

/// The line through the root's theta at multipliers 0.
fn root_line(mv: &MeanVariance<'_>, y: &Eighths) -> Option<Line>
    requires { IsPoint (setting_of mv.now).instance y.now }
{
    Tangent::at(mv, y).line_in_alpha(&mv.root(), 0, 0)
}

/// The same of the two assets at the point (63, 17): its place, its value and its slope.
fn line_of_two(alloc: Global) -> Result<Option<(i128, i128, i128)>, OutOfMemory> {
    let inst = two_assets(alloc, 2)?;
    let shift = Shift::zero(alloc, 2)?;
    if dominant(&inst, &shift).is_some() {
        return Ok(None);
    }
    let mv = MeanVariance::new(&inst, &shift, Weight { p: 1, q: 2 });
    let mut y = Eighths::zeros(2);
    y.set(0, 63);
    y.set(1, 17);
    Ok(root_line(&mv, &y).map(|line| (line.place, line.value, line.slope)))
}

#[test]
fn a_line_through_theta(rt: HostRuntime) -> Result<(), Fail> {
    // one lot in each asset has theta: 944 + 960 - 5125, and eight lots less than there are
    let line = line_of_two(rt.alloc())?;
    assert_eq!(rt; line, Some((0, -32_210_000_000_000_000_000, -8)));
    Ok(())
}

/// A drawn multiplier of the sum.
fn drawn_alpha(seed: u32) -> i128
    ensures { unsigned_abs result ≤ 1000000000000000000000000000000 }
{
    (i128::from(drawn(seed, 20, 400_000)) - 200_000) * 100_000_000_000_000_000
}

/// A drawn multiplier of the turnover, 0 where no limit is set.
fn drawn_tau(seed: u32, turnover: Option<u32>) -> i128
    ensures small { unsigned_abs result ≤ 1000000000000000000000000000000 }
    ensures sign { pos 0 ≤ℤ result }
    ensures unset { turnover ≡ None → result ≡ pos 0 }
{
    match turnover {
        Some(_) => i128::from(drawn(seed, 21, 40_000)) * 100_000_000_000_000_000,
        None => 0,
    }
}

/// Theta of a drawn part at a drawn witness, by the crate and by all lists.
fn two_thetas(mv: &MeanVariance<'_>, seed: u32) -> (Option<i128>, Option<i128>)
    requires lots { (setting_of mv.now).instance.lots ≡ 7 }
    requires few { (setting_of mv.now).instance.market.assets ≤ 7 }
{
    let first = split_once(&mv.root(), seed);
    let second = split_once(&first, seed.wrapping_add(100));
    let part = split_once(&second, seed.wrapping_add(200));
    let w = Witness {
        y: point(seed, mv.instance().n()),
        alpha: drawn_alpha(seed),
        tau: drawn_tau(seed, mv.instance().turnover()),
    };
    let here = theta(mv, &part, &w);
    (
        here,
        listed(mv.instance(), mv.shift(), mv.weight(), &part, &w),
    )
}

#[test]
fn thetas_by_all_lists(rt: HostRuntime) -> Result<(), Fail> {
    let mut found: u32 = 0;
    let mut ranges: u32 = 0;
    for seed in 0..24u32 {
        let n = 3 + drawn(seed, 10, 2) as u16;
        let held = 1 + drawn(seed, 11, 2) as u16;
        let turnover = if seed % 3 == 0 {
            None
        } else {
            Some(drawn(seed, 12, 12))
        };
        let held_most = lots_between(seed, 14, held, n);
        let inst = instance(rt.alloc(), seed, n, 7, (held, held_most), turnover)?;
        let shift = shift_of(rt.alloc(), n)?;
        let row = dominant(&inst, &shift);
        assert!(rt; row.is_none());
        let p = drawn(seed, 13, 4) as u8;
        let mv = MeanVariance::new(&inst, &shift, Weight { p, q: 4 });
        let (here, there) = two_thetas(&mv, seed);
        assert_eq!(rt; here, there);
        found = found.wrapping_add(u32::from(here.is_some()));
        ranges = ranges.wrapping_add(u32::from(held < held_most && here.is_some()));
    }
    assert!(rt; found > 12);
    assert!(rt; ranges > 6, "{ranges} hold a range of numbers");
    Ok(())
}

/// What leaves of the two assets' root show: whether one of the count leaves it open, the number of the tangent at the point
/// (63, 17) under its best alpha, and theta of the void leaf of alpha 1.
fn shown_of_two(alloc: Global) -> Result<(bool, Option<i128>, Option<i128>), OutOfMemory> {
    let inst = two_assets(alloc, 2)?;
    let shift = Shift::zero(alloc, 2)?;
    if dominant(&inst, &shift).is_some() {
        return Ok((false, None, None));
    }
    let mv = MeanVariance::new(&inst, &shift, Weight { p: 1, q: 2 });
    let root = mv.root();
    let open = matches!(mv.shown(&root, &Leaf::Count), Shown::Nothing);
    let entries = [
        Entry {
            asset: 0,
            eighths: 63,
        },
        Entry {
            asset: 1,
            eighths: 17,
        },
    ];
    let leaf = Leaf::Tangent {
        y: &entries,
        alpha: -9_440_000_000_000_000_000,
        tau: 0,
        third: 0,
    };
    let number = match mv.shown(&root, &leaf) {
        Shown::AtLeast(number) => Some(number),
        _ => None,
    };
    Ok((open, number, void_theta(&mv, &root, 1, 0)))
}

#[test]
fn leaves_of_two_assets(rt: HostRuntime) -> Result<(), Fail> {
    let shown = shown_of_two(rt.alloc())?;
    assert_eq!(rt; shown, (true, Some(676_718_750_000_000_000), Some(-8)));
    Ok(())
}
