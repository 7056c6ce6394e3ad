//! Best multipliers of small instances, and a leaf that stays as it was placed.

ghost use Rattle.std.specs.Prelude.{◌≡◌, ◌+◌, ◌≤◌, ◌∷◌, [], pos, unsigned_abs, IsTrue, IfOk, IfSome, IsSome};
ghost use Rattle.gap_model.specs.Leaves.{IsPoint, AreMultipliers};
ghost use Rattle.gap_tangent.specs.Seen.{setting_of};
ghost use Rattle.gap_leaf.specs.Finding.{IsWitness};

use bumpalo::Bump;
use gap_base::{Eighths, Job, Market, OutOfMemory, Weight, Weights, Witness};
use gap_instance::Instance;
use gap_leaf::{best_alpha, best_tau, witness_for};
use gap_model::{Entry, Leaf, NodeBound};
use gap_psd::{Shift, dominant};
use gap_samples::{three, two_assets};
use gap_tangent::MeanVariance;
use std::alloc::Global;
use std::test::Fail;

/// The root's best alpha at a point for a tau, where the count can be met.
fn root_alpha(mv: &MeanVariance<'_>, y: &Eighths, tau: i128) -> Option<i128>
    requires point { IsPoint (setting_of mv.now).instance y.now }
    requires tau { AreMultipliers (setting_of mv.now).instance.turnover (pos 0) tau }
{
    let root = mv.root();
    if root.count_within(mv.held(), mv.held_most()) {
        Some(best_alpha(mv, &root, y, tau))
    } else {
        None
    }
}

#[test]
fn best_alpha_of_two_assets(rt: HostRuntime) -> Result<(), Fail> {
    let inst = two_assets(rt.alloc(), 2)?;
    let shift = Shift::zero(rt.alloc(), 2)?;
    let row = dominant(&inst, &shift);
    assert!(rt; row.is_none());
    let mv = MeanVariance::new(&inst, &shift, Weight { p: 1, q: 2 });
    let mut y = Eighths::zeros(2);
    y.set(0, 63);
    y.set(1, 17);
    assert_eq!(rt; root_alpha(&mv, &y, 0), Some(-9_440_000_000_000_000_000));
    Ok(())
}

/// The point of three numbers.
fn point(a: u32, b: u32, c: u32) -> Eighths
    ensures { result ≡ a ∷ b ∷ c ∷ [] }
{
    let mut y = Eighths::zeros(3);
    y.set(0, a);
    y.set(1, b);
    y.set(2, c);
    y
}

/// Three assets without risk: 7 lots in 2 or 3 of them, greatest 4, 5 and 3, and 2, 0 and 1 lots at present.
#[tactic(auto, using(gap_instance::proofs::LimitLaws::few_numbers))]
fn three_assets(alloc: Global, fewest: u16, turnover: Option<u32>) -> Result<Instance, OutOfMemory>
    requires least { 2 ≤ fewest }
    requires most { fewest ≤ 3 }
    requires turnover { IfSome turnover (λ t. t ≤ 3000000) }
    ensures assets { IfOk result (λ inst. inst.market.assets ≡ 3) }
    ensures lots { IfOk result (λ inst. inst.lots ≡ 7) }
    ensures turnover { IfOk result (λ inst. inst.turnover ≡ turnover) }
{
    let job = Job {
        lots: 7,
        held: fewest,
        held_most: 3,
        least: three(1, 2, 1),
        greatest: three(4, 5, 3),
        present: three(2, 0, 1),
        turnover,
        weights: Weights::new(),
        nodes: 0,
        workers: 1,
    };
    Instance::new(alloc, Market::new(alloc, 3)?, &job)
}

/// A shift whose diagonal is 1, 2 and 3: all the risk that three assets without risk are given.
fn small_shift(alloc: Global) -> Result<Shift, OutOfMemory>
    ensures { IfOk result (λ shift. shift.assets ≡ 3) }
{
    let mut shift = Shift::zero(alloc, 3)?;
    shift.set_d(0, 1);
    shift.set_d(1, 2);
    shift.set_d(2, 3);
    Ok(shift)
}

/// The root's best tau at a point under an alpha, where the count can be met.
fn root_tau(mv: &MeanVariance<'_>, y: &Eighths, alpha: i128) -> Option<i128>
    requires point { IsPoint (setting_of mv.now).instance y.now }
    requires limited { IsSome (setting_of mv.now).instance.turnover }
    requires alpha { unsigned_abs alpha ≤ 1000000000000000000000000000000 }
{
    let root = mv.root();
    if root.count_within(mv.held(), mv.held_most()) {
        Some(best_tau(mv, &root, y, alpha))
    } else {
        None
    }
}

/// The best alpha at a point of three assets, `fewest` to 3 of them held.
fn alpha_at(alloc: Global, fewest: u16, y: (u32, u32, u32)) -> Result<Option<i128>, OutOfMemory>
    requires least { 2 ≤ fewest }
    requires most { fewest ≤ 3 }
    requires point { y.0 + y.1 + y.2 ≤ 56 }
{
    let inst = three_assets(alloc, fewest, None)?;
    let shift = small_shift(alloc)?;
    if dominant(&inst, &shift).is_some() {
        return Ok(None);
    }
    let mv = MeanVariance::new(&inst, &shift, Weight { p: 1, q: 1 });
    Ok(root_alpha(&mv, &point(y.0, y.1, y.2), 0))
}

/// The best alpha for the tau 40 and the best tau for the alpha -300 at a point of three assets, two or three of them held,
/// whose turnover is limited.
fn turned_at(
    alloc: Global,
    limit: u32,
    y: (u32, u32, u32),
) -> Result<(Option<i128>, Option<i128>), OutOfMemory>
    requires limit { limit ≤ 100 }
    requires point { y.0 + y.1 + y.2 ≤ 56 }
{
    let inst = three_assets(alloc, 2, Some(limit))?;
    let shift = small_shift(alloc)?;
    if dominant(&inst, &shift).is_some() {
        return Ok((None, None));
    }
    let mv = MeanVariance::new(&inst, &shift, Weight { p: 1, q: 1 });
    let y = point(y.0, y.1, y.2);
    Ok((root_alpha(&mv, &y, 40), root_tau(&mv, &y, -300)))
}

/// Is a point of three assets one of at most 7 lots?
fn is_small(y: (u32, u32, u32)) -> bool
    ensures { IsTrue result → y.0 + y.1 + y.2 ≤ 56 }
{
    y.0 <= 56 && y.1 <= 56 - y.0 && y.2 <= 56 - y.0 - y.1
}

// The numbers of the next two tests were computed apart: the least Lagrangian over all lists at each multiplier of at most
// 1500 in size.

#[test]
fn best_alphas_of_three_assets(rt: HostRuntime) -> Result<(), Fail> {
    // a point, and its best alphas where two or three are held and where three are
    let rows: [((u32, u32, u32), i128, i128); 10] = [
        ((0, 0, 24), 320, 320),
        ((8, 5, 18), 192, 192),
        ((16, 10, 12), 96, 192),
        ((24, 15, 6), 280, 416),
        ((32, 20, 0), 112, 256),
        ((40, 16, 0), 304, 384),
        ((0, 56, 0), 0, 320),
        ((0, 0, 56), 320, 320),
        ((20, 20, 16), 0, 0),
        ((56, 0, 0), 768, 768),
    ];
    for (y, two, three) in rows {
        if is_small(y) {
            assert_eq!(rt; alpha_at(rt.alloc(), 2, y)?, Some(two), "{two}");
            assert_eq!(rt; alpha_at(rt.alloc(), 3, y)?, Some(three), "{three}");
        }
    }
    Ok(())
}

#[test]
fn best_multipliers_of_a_turnover(rt: HostRuntime) -> Result<(), Fail> {
    // a point, its best alpha, and its best taus under limits of 2, 4 and 6
    let rows: [((u32, u32, u32), i128, [i128; 3]); 5] = [
        ((0, 0, 20), 307, [940, 940, 684]),
        ((8, 10, 11), 179, [620, 620, 556]),
        ((16, 20, 2), 0, [428, 300, 300]),
        ((0, 40, 16), -40, [300, 0, 0]),
        ((50, 0, 6), 440, [940, 940, 780]),
    ];
    for (y, alpha, taus) in rows {
        if is_small(y) {
            for k in 0..3u32 {
                let (found, tau) = turned_at(rt.alloc(), 2 + 2 * k, y)?;
                assert_eq!(rt; found, Some(alpha), "{alpha}");
                assert_eq!(rt; tau, Some(taus[k as usize]), "{alpha} {k}");
            }
        }
    }
    Ok(())
}

/// Has a leaf just these two entries?
fn has_entries(leaf: &Leaf<'_>, first: Entry, second: Entry) -> bool {
    match *leaf {
        Leaf::Tangent { y, .. } => y.len() == 2 && y[0] == first && y[1] == second,
        _ => false,
    }
}

/// The leaf of the root from a witness.
fn root_leaf<'a>(
    mv: &MeanVariance<'_>,
    hint: &Witness,
    arena: &'a Bump,
) -> Result<Leaf<'a>, OutOfMemory>
    requires { IsWitness (setting_of mv.now) hint.now }
{
    witness_for(mv, &mv.root(), hint, arena)
}

#[test]
fn a_placed_leaf_stays_as_it_is(rt: HostRuntime) -> Result<(), Fail> {
    let inst = two_assets(rt.alloc(), 2)?;
    let shift = Shift::zero(rt.alloc(), 2)?;
    let row = dominant(&inst, &shift);
    assert!(rt; row.is_none());
    let mv = MeanVariance::new(&inst, &shift, Weight { p: 1, q: 2 });
    let mut y = Eighths::zeros(2);
    y.set(0, 64);
    y.set(1, 16);
    let hint = Witness {
        y,
        alpha: 0,
        tau: 0,
    };
    let arena = Bump::new(rt.alloc());
    let leaf = root_leaf(&mv, &hint, &arena)?;
    for _ in 0..1000u32 {
        let other = root_leaf(&mv, &hint, &arena)?;
        assert!(rt; matches!(other, Leaf::Tangent { .. }));
    }
    let first = Entry {
        asset: 0,
        eighths: 63,
    };
    let second = Entry {
        asset: 1,
        eighths: 17,
    };
    assert!(rt; has_entries(&leaf, first, second));
    Ok(())
}
