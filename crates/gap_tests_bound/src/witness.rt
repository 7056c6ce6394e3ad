//! Splits of small parts, and tangent points of two assets.

ghost use Rattle.std.specs.Prelude.{◌≡◌, ◌≢◌, ◌≤◌, length, pos, negsuc, IsTrue};
ghost use Rattle.gap_box.specs.Parts.{IsWithin, root_cells};
ghost use Rattle.gap_model.specs.declared.leaf.Leaf.TheVariants.{Void};
ghost use Rattle.gap_model.specs.declared.shown.Shown.TheVariants.{Empty};
ghost use Rattle.gap_model.specs.Leaves.{shows};
ghost use Rattle.gap_tangent.specs.Seen.{setting_of};

use gap_base::{Eighths, Lots, OutOfMemory, Weight};
use gap_box::{Part, Side, Split};
use gap_model::{Leaf, NodeBound, Shown};
use gap_psd::{Shift, dominant};
use gap_samples::two_assets;
use gap_tangent::MeanVariance;
use gap_witness::{split_for, tangent_point};
use std::alloc::Global;
use std::test::Fail;

/// Three assets that may each be held with 1 to 10 lots.
fn three_free() -> Part {
    Part::root(&Lots::filled(3, 1), &Lots::filled(3, 10))
}

/// The split of a part that may hold from `k1` to `k2` of three assets, by a point; None where the part isn't one of
/// three assets, or the count can't be met, or just one list meets it.
fn split_by(part: &Part, k1: u16, k2: u16, y: (u32, u32, u32)) -> Option<Split>
    requires { k1 ≤ k2 }
{
    let mut point = Eighths::zeros(3);
    point.set(0, y.0);
    point.set(1, y.1);
    point.set(2, y.2);
    if part.len() != point.len() || !part.count_within(k1, k2) {
        return None;
    }
    match part.single_within(k1, k2) {
        Some(_) => None,
        None => Some(split_for(part, k1, k2, &point)),
    }
}

#[test]
fn the_fullest_free_asset_is_held_or_not(rt: HostRuntime) -> Result<(), Fail> {
    let mut part = three_free();
    for (y, asset) in [
        ((16, 24, 23), 1),
        ((16, 24, 24), 1),
        ((24, 24, 24), 0),
        ((0, 0, 0), 0),
        ((0, 0, 1), 2),
    ] {
        assert_eq!(rt; split_by(&part, 1, 2, y), Some(Split::Held(asset)));
    }
    // what asset 1 has doesn't count once it must be held
    part.narrow(Split::Held(1), Side::Second);
    assert_eq!(rt; split_by(&part, 1, 2, (16, 80, 24)), Some(Split::Held(2)));
    assert_eq!(rt; split_by(&part, 2, 2, (24, 80, 24)), Some(Split::Held(0)));
    // nor where it may not be
    let mut rest = three_free();
    rest.narrow(Split::Held(0), Side::First);
    assert_eq!(rt; split_by(&rest, 1, 3, (80, 16, 24)), Some(Split::Held(2)));
    Ok(())
}

#[test]
fn the_widest_held_asset_is_cut(rt: HostRuntime) -> Result<(), Fail> {
    let mut part = three_free();
    part.narrow(Split::Held(1), Side::Second);
    part.narrow(Split::Held(2), Side::Second);
    // asset 0 is free, but no third may be held; 1 and 2 are as wide
    for (eighths, cut) in [(0, 1), (15, 1), (16, 2), (39, 4), (40, 5), (79, 9), (80, 9)] {
        assert_eq!(rt;
            split_by(&part, 1, 2, (80, eighths, 80)),
            Some(Split::Lots(1, cut))
        );
    }
    assert_eq!(rt; split_by(&part, 1, 3, (0, 40, 40)), Some(Split::Held(0)));
    // no asset is free
    part.narrow(Split::Held(0), Side::First);
    assert_eq!(rt;
        split_by(&part, 1, 3, (80, 40, 48)),
        Some(Split::Lots(1, 5))
    );
    // 1 to 5 lots are left of asset 1, so 2 is wider
    part.narrow(Split::Lots(1, 5), Side::First);
    assert_eq!(rt;
        split_by(&part, 1, 3, (80, 40, 48)),
        Some(Split::Lots(2, 6))
    );
    // 7 to 10 lots are left of asset 2, so 1 is wider, and a cut is below its greatest
    part.narrow(Split::Lots(2, 6), Side::Second);
    assert_eq!(rt;
        split_by(&part, 1, 3, (80, 40, 48)),
        Some(Split::Lots(1, 4))
    );
    // 1 to 3 lots are left of asset 1, so 2 is wider, and a cut isn't below its least
    part.narrow(Split::Lots(1, 3), Side::First);
    assert_eq!(rt; split_by(&part, 1, 3, (80, 40, 0)), Some(Split::Lots(2, 7)));
    Ok(())
}

/// Is it left open whether there is a list?
fn is_open(shown: Shown) -> bool
    ensures { IsTrue result → shown ≢ Empty }
{
    match shown {
        Shown::Empty => false,
        _ => true,
    }
}

/// Does the void leaf of alpha 1 leave it open whether a part has a list that meets the limits?
fn is_open_above(mv: &MeanVariance<'_>, part: &Part) -> bool
    requires { IsWithin part.now (root_cells (setting_of mv.now).instance.least (setting_of mv.now).instance.greatest) }
    ensures { IsTrue result → shows (setting_of mv.now) part.now (Void (pos 1) (pos 0) (pos 0)) ≢ Empty }
{
    let leaf = Leaf::Void {
        alpha: 1,
        tau: 0,
        third: 0,
    };
    is_open(mv.shown(part, &leaf))
}

/// Does the void leaf of alpha -1 leave it open?
fn is_open_below(mv: &MeanVariance<'_>, part: &Part) -> bool
    requires { IsWithin part.now (root_cells (setting_of mv.now).instance.least (setting_of mv.now).instance.greatest) }
    ensures { IsTrue result → shows (setting_of mv.now) part.now (Void (negsuc 0) (pos 0) (pos 0)) ≢ Empty }
{
    let leaf = Leaf::Void {
        alpha: -1,
        tau: 0,
        third: 0,
    };
    is_open(mv.shown(part, &leaf))
}

/// The root's tangent point from a hint, where it has one.
fn root_point(mv: &MeanVariance<'_>, hint: &Eighths) -> Option<Eighths>
    requires { length hint.now ≡ (setting_of mv.now).instance.market.assets }
{
    let root = mv.root();
    if !root.count_within(mv.held(), mv.held_most()) {
        return None;
    }
    if is_open_above(mv, &root) && is_open_below(mv, &root) {
        Some(tangent_point(mv, &root, hint))
    } else {
        None
    }
}

/// The tangent point of the two assets' root from a hint, under the weight `p/2`.
fn point_from(
    alloc: Global,
    fewest: u16,
    p: u8,
    hint: (u32, u32),
) -> Result<Option<(u32, u32)>, OutOfMemory>
    requires least { 1 ≤ fewest }
    requires most { fewest ≤ 2 }
    requires weight { p ≤ 2 }
{
    let inst = two_assets(alloc, fewest)?;
    let shift = Shift::zero(alloc, 2)?;
    if dominant(&inst, &shift).is_some() {
        return Ok(None);
    }
    let mv = MeanVariance::new(&inst, &shift, Weight { p, q: 2 });
    let mut y = Eighths::zeros(2);
    y.set(0, hint.0);
    y.set(1, hint.1);
    match root_point(&mv, &y) {
        Some(point) if point.len() == 2 => Ok(Some((point.get(0), point.get(1)))),
        _ => Ok(None),
    }
}

#[test]
fn tangent_points_of_two_assets(rt: HostRuntime) -> Result<(), Fail> {
    let alloc = rt.alloc();
    for hint in [(64, 16), (80, 0), (0, 0), (0, 80), (40, 40), (200, 7)] {
        // for return alone both are held, or the better one alone
        assert_eq!(rt; point_from(alloc, 2, 0, hint)?, Some((8, 72)));
        assert_eq!(rt; point_from(alloc, 1, 0, hint)?, Some((0, 80)));
        assert_eq!(rt; point_from(alloc, 2, 1, hint)?, Some((63, 17)));
        assert_eq!(rt; point_from(alloc, 1, 1, hint)?, Some((63, 17)));
        // for risk alone the shares are as 4 to 1
        assert_eq!(rt; point_from(alloc, 2, 2, hint)?, Some((64, 16)));
        assert_eq!(rt; point_from(alloc, 1, 2, hint)?, Some((64, 16)));
    }
    Ok(())
}
