//! Instances, points and parts drawn from numbers.

ghost use Rattle.std.specs.Prelude.{◌≡◌, ℕ, ◌*◌, ◌^◌, ◌<◌, ◌≤◌, length, slice_index_or, Option, IfOk, IfSome, unsigned_abs};
ghost use Rattle.std.specs.Option.{ForSome};
ghost use Rattle.gap_box.specs.Parts.{IsWithin};
ghost use Rattle.gap_instance.specs.Instances.{AreLimits, AreBetween};
ghost use Rattle.gap_model.specs.Leaves.{IsPoint};

use gap_base::{Eighths, Job, Lots, Market, OutOfMemory, Weights};
use gap_box::{Part, Side, Split};
use gap_instance::Instance;
use gap_psd::Shift;
use std::alloc::Global;

/// A number of 0 to `most`, drawn from two numbers.
pub fn drawn(seed: u32, place: u16, most: u32) -> u32
    requires { most < 1000000000 }
    ensures { result ≤ most }
{
    let mixed = seed
        .wrapping_mul(2_654_435_761)
        .wrapping_add(u32::from(place).wrapping_mul(2_246_822_519));
    (mixed >> 7) % (most + 1)
}

/// A number of `low` to `high`.
pub fn lots_between(seed: u32, place: u16, low: u16, high: u16) -> u16
    requires order { low ≤ high }
    requires high { high ≤ 10000 }
    ensures low { low ≤ result }
    ensures high { result ≤ high }
{
    low + drawn(seed, place, u32::from(high - low)) as u16
}

/// A list of `n` numbers of `low` to `high`.
fn between(seed: u32, n: u16, low: u16, high: u16) -> Lots
    requires least { 2 ≤ n }
    requires most { n ≤ 256 }
    requires order { low ≤ high }
    requires high { high ≤ 10000 }
    ensures { AreBetween n low high result }
{
    let mut list = Lots::zeros(n);
    for i in 0..n {
        list.set(i, lots_between(seed, i, low, high));
    }
    list
}

/// A job for `n` assets, of which `held.0` to `held.1` are held, with drawn limits.
fn job_of(seed: u32, n: u16, lots: u16, held: (u16, u16), turnover: Option<u32>) -> Job
    requires least { 2 ≤ n }
    requires most { n ≤ 256 }
    requires lots_least { 1 ≤ lots }
    requires lots_most { lots ≤ 10000 }
    requires held_least { 1 ≤ held.0 }
    requires held_order { held.0 ≤ held.1 }
    requires held_most { held.1 ≤ n }
    requires turnover { ForSome turnover (λ t. t ≤ 3000000) }
    ensures limits { AreLimits n result.lots result.held result.held_most result.least result.greatest result.present
        result.turnover }
    ensures lots { result.lots ≡ lots }
    ensures turnover { result.turnover ≡ turnover }
{
    Job {
        lots,
        held: held.0,
        held_most: held.1,
        least: between(seed, n, 1, lots),
        greatest: between(seed.wrapping_add(1), n, 1, lots),
        present: between(seed.wrapping_add(2), n, 0, 4),
        turnover,
        weights: Weights::new(),
        nodes: 0,
        workers: 1,
    }
}

/// Draws the mean, the deviation and the correlations of asset `i`.
fn set_asset(market: &mut Market, seed: u32, i: u16)
    requires { i < market.old.assets }
    ensures { market.new.assets ≡ market.old.assets }
{
    market.set_mean(i, drawn(seed, i, 2_000_000) as i32 - 1_000_000);
    market.set_dev(i, drawn(seed.wrapping_add(3), i, 1_000_000));
    for j in 0..i {
        market.set_rho(
            i,
            j,
            drawn(seed.wrapping_add(j.into()), i, 2_000_000) as i32 - 1_000_000,
        );
    }
}

/// A drawn instance of `n` assets, of which `held.0` to `held.1` are held.
pub fn instance(
    alloc: Global,
    seed: u32,
    n: u16,
    lots: u16,
    held: (u16, u16),
    turnover: Option<u32>,
) -> Result<Instance, OutOfMemory>
    requires least { 2 ≤ n }
    requires most { n ≤ 256 }
    requires lots_least { 1 ≤ lots }
    requires lots_most { lots ≤ 10000 }
    requires held_least { 1 ≤ held.0 }
    requires held_order { held.0 ≤ held.1 }
    requires held_most { held.1 ≤ n }
    requires turnover { ForSome turnover (λ t. t ≤ 3000000) }
    ensures assets { IfOk result (λ inst. inst.market.assets ≡ n) }
    ensures lots { IfOk result (λ inst. inst.lots ≡ lots) }
    ensures turnover { IfOk result (λ inst. inst.turnover ≡ turnover) }
{
    let mut market = Market::new(alloc, n)?;
    for i in 0..n {
        set_asset(&mut market, seed, i);
    }
    Instance::new(alloc, market, &job_of(seed, n, lots, held, turnover))
}

/// A shift that is dominant for each instance of at most five assets.
pub fn shift_of(alloc: Global, n: u16) -> Result<Shift, OutOfMemory>
    requires least { 2 ≤ n }
    requires most { n ≤ 256 }
    ensures { IfOk result (λ shift. shift.assets ≡ n) }
{
    let mut shift = Shift::zero(alloc, n)?;
    for i in 0..n {
        shift.set_d(i, 5_000_000_000_000_000_000);
    }
    Ok(shift)
}

/// A drawn point of 0 to 8 eighths for each of `n` assets.
pub fn point(seed: u32, n: u16) -> Eighths
    requires least { 2 ≤ n }
    requires most { n ≤ 256 }
    ensures count { length result ≡ n }
    ensures each { (k : ℕ) → slice_index_or result k 0 ≤ 8 }
{
    let mut y = Eighths::zeros(n);
    for i in 0..n {
        y.set(i, drawn(seed, i, 8));
    }
    y
}

/// A child of the part by a drawn split where that is lawful, else the part.
pub fn split_once(part: &Part, seed: u32) -> Part
    ensures { IsWithin result part.now }
{
    let asset = drawn(seed, 1, 4) as u16;
    let side = if drawn(seed, 2, 1) == 0 {
        Side::First
    } else {
        Side::Second
    };
    let split = if drawn(seed, 3, 2) == 0 {
        Split::Lots(asset, drawn(seed, 4, 3) as u16)
    } else {
        Split::Held(asset)
    };
    if part.lawful(split) {
        part.child(split, side)
    } else {
        part.copy()
    }
}
