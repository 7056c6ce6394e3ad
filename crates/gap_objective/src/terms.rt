//! The products of which risk, return and objective are made, each with its value and its greatest size.

ghost use Rattle.std.specs.Prelude.{◌≡◌, ◌+◌, ◌-◌, ◌*◌, ◌≤◌, pos, ◌+ℤ◌, ◌-ℤ◌, ◌*ℤ◌, unsigned_abs};

use gap_base::Weight;

/// A covariance times the lots of an asset.
pub fn share(cov: i64, lots: u16) -> i128
    requires cov { unsigned_abs cov ≤ 1000000000000000000 }
    requires lots { lots ≤ 10000 }
    ensures value { result ≡ cov *ℤ pos lots }
    ensures small { unsigned_abs result ≤ 10000000000000000000000 }
{
    i128::from(cov) * i128::from(lots)
}

/// A row times the lots of its asset.
pub fn weighted(row: i128, lots: u16) -> i128
    requires row { unsigned_abs row ≤ 2560000000000000000000000 }
    requires lots { lots ≤ 10000 }
    ensures value { result ≡ row *ℤ pos lots }
    ensures small { unsigned_abs result ≤ 25600000000000000000000000000 }
{
    row * i128::from(lots)
}

/// A mean return times the lots of its asset.
pub fn earned(mean: i32, lots: u16) -> i128
    requires mean { unsigned_abs mean ≤ 1000000 }
    requires lots { lots ≤ 10000 }
    ensures value { result ≡ mean *ℤ pos lots }
    ensures small { unsigned_abs result ≤ 10000000000 }
{
    i128::from(mean) * i128::from(lots)
}

/// The risk times the weight of risk.
fn of_risk(p: u8, risk: i128) -> i128
    requires { unsigned_abs risk ≤ 6553600000000000000000000000000 }
    ensures value { result ≡ pos p *ℤ risk }
    ensures small { unsigned_abs result ≤ 1671168000000000000000000000000000 }
{
    i128::from(p) * risk
}

/// What the return is scaled by, where `lots` lots are placed.
fn factor(w: Weight, lots: u16) -> u64
    requires { lots ≤ 10000 }
    ensures value { result ≡ (w.q - w.p) * 1000000000000 * lots }
    ensures small { result ≤ 2550000000000000000 }
{
    u64::from(w.q.saturating_sub(w.p)) * 1_000_000_000_000 * u64::from(lots)
}

/// The return times what it is scaled by.
fn of_return(factor: u64, ret: i128) -> i128
    requires factor { factor ≤ 2550000000000000000 }
    requires ret { unsigned_abs ret ≤ 2560000000000 }
    ensures value { result ≡ pos factor *ℤ ret }
    ensures small { unsigned_abs result ≤ 6528000000000000000000000000000 }
{
    i128::from(factor) * ret
}

/// The objective under the weight `w` from risk and return, where `lots` lots are placed.
pub fn joined(w: Weight, lots: u16, risk: i128, ret: i128) -> i128
    requires lots { lots ≤ 10000 }
    requires risk { unsigned_abs risk ≤ 6553600000000000000000000000000 }
    requires ret { unsigned_abs ret ≤ 2560000000000 }
    ensures value { result ≡ (pos w.p *ℤ risk) -ℤ (pos ((w.q - w.p) * 1000000000000 * lots) *ℤ ret) }
    ensures small { unsigned_abs result ≤ 2000000000000000000000000000000000 }
{
    of_risk(w.p, risk) - of_return(factor(w, lots), ret)
}

/// The difference of two covariances.
fn apart(first: i64, second: i64) -> i64
    requires first { unsigned_abs first ≤ 1000000000000000000 }
    requires second { unsigned_abs second ≤ 1000000000000000000 }
    ensures value { result ≡ first -ℤ second }
    ensures small { unsigned_abs result ≤ 2000000000000000000 }
{
    first - second
}

/// The sum of two differences of covariances.
fn joined_apart(first: i64, second: i64) -> i128
    requires first { unsigned_abs first ≤ 2000000000000000000 }
    requires second { unsigned_abs second ≤ 2000000000000000000 }
    ensures value { result ≡ first +ℤ second }
    ensures small { unsigned_abs result ≤ 4000000000000000000 }
{
    i128::from(first) + i128::from(second)
}

/// The covariances of two assets with themselves less, for each, that of the one with the other.
pub fn spread(first: i64, second: i64, both: i64) -> i128
    requires first { unsigned_abs first ≤ 1000000000000000000 }
    requires second { unsigned_abs second ≤ 1000000000000000000 }
    requires both { unsigned_abs both ≤ 1000000000000000000 }
    ensures value { result ≡ (first -ℤ both) +ℤ (second -ℤ both) }
    ensures small { unsigned_abs result ≤ 4000000000000000000 }
{
    joined_apart(apart(first, both), apart(second, both))
}

/// How much the slope changes with each lot moved: the weight of risk times a covariance or a spread.
pub fn bend(p: u8, spread: i128) -> i128
    requires { unsigned_abs spread ≤ 4000000000000000000 }
    ensures value { result ≡ pos p *ℤ spread }
    ensures small { unsigned_abs result ≤ 1020000000000000000000 }
{
    i128::from(p) * spread
}

/// The lots that asset has more than before, where fewer are negative.
pub fn change(lots: u16, before: u16) -> i32
    requires lots { lots ≤ 10000 }
    requires before { before ≤ 10000 }
    ensures value { pos lots ≡ pos before +ℤ result }
    ensures small { unsigned_abs result ≤ 10000 }
{
    i32::from(lots) - i32::from(before)
}

/// Lots moved times twice the weight of risk.
fn scaled(moved: i32, twice: u16) -> i64
    requires moved { unsigned_abs moved ≤ 10000 }
    requires twice { twice ≤ 510 }
    ensures value { result ≡ moved *ℤ pos twice }
    ensures small { unsigned_abs result ≤ 5100000 }
{
    i64::from(moved) * i64::from(twice)
}

/// Lots moved times twice the weight `p` of risk.
pub fn scale(p: u8, moved: i32) -> i64
    requires { unsigned_abs moved ≤ 10000 }
    ensures value { result ≡ moved *ℤ pos (2 * p) }
    ensures small { unsigned_abs result ≤ 5100000 }
{
    scaled(moved, 2 * u16::from(p))
}

/// The change of a slope by lots moved: a covariance times them, scaled.
fn turned(cov: i64, scale: i64) -> i128
    requires cov { unsigned_abs cov ≤ 1000000000000000000 }
    requires scale { unsigned_abs scale ≤ 5100000 }
    ensures value { result ≡ cov *ℤ scale }
    ensures small { unsigned_abs result ≤ 5100000000000000000000000 }
{
    i128::from(cov) * i128::from(scale)
}

/// A slope after lots were moved.
pub fn shifted(slope: i128, cov: i64, scale: i64) -> i128
    requires slope { unsigned_abs slope ≤ 2000000000000000000000000000 }
    requires cov { unsigned_abs cov ≤ 1000000000000000000 }
    requires scale { unsigned_abs scale ≤ 5100000 }
    ensures { result ≡ slope +ℤ cov *ℤ scale }
{
    slope + turned(cov, scale)
}

/// A bend times lots moved.
fn bent(bend: i128, moved: i32) -> i128
    requires bend { unsigned_abs bend ≤ 1020000000000000000000 }
    requires moved { unsigned_abs moved ≤ 10000 }
    ensures value { result ≡ bend *ℤ moved }
    ensures small { unsigned_abs result ≤ 10200000000000000000000000 }
{
    bend * i128::from(moved)
}

/// The mean slope on the way of the lots moved, from the slopes before and the bend.
pub fn steepness(to: i128, from: i128, bend: i128, moved: i32) -> i128
    requires to { unsigned_abs to ≤ 2000000000000000000000000000 }
    requires from { unsigned_abs from ≤ 2000000000000000000000000000 }
    requires bend { unsigned_abs bend ≤ 1020000000000000000000 }
    requires moved { unsigned_abs moved ≤ 10000 }
    ensures value { result ≡ (to -ℤ from) +ℤ bend *ℤ moved }
    ensures small { unsigned_abs result ≤ 5000000000000000000000000000 }
{
    to - from + bent(bend, moved)
}

/// The mean slope times lots moved.
fn climbed(steepness: i128, moved: i32) -> i128
    requires steepness { unsigned_abs steepness ≤ 5000000000000000000000000000 }
    requires moved { unsigned_abs moved ≤ 10000 }
    ensures value { result ≡ steepness *ℤ moved }
    ensures small { unsigned_abs result ≤ 50000000000000000000000000000000 }
{
    steepness * i128::from(moved)
}

/// An objective after lots were moved on a way of this mean slope.
pub fn reached(value: i128, steepness: i128, moved: i32) -> i128
    requires value { unsigned_abs value ≤ 2000000000000000000000000000000000 }
    requires steepness { unsigned_abs steepness ≤ 5000000000000000000000000000 }
    requires moved { unsigned_abs moved ≤ 10000 }
    ensures { result ≡ value +ℤ steepness *ℤ moved }
{
    value + climbed(steepness, moved)
}

/// The slope at an asset of a list that holds nothing.
pub fn first_slope(p: u8, q: u8, lots: u16, mean: i32) -> i128
    requires lots { lots ≤ 10000 }
    requires mean { unsigned_abs mean ≤ 1000000 }
    ensures { result ≡ pos 0 -ℤ (pos ((q - p) * 1000000000000 * lots) *ℤ mean) }
{
    -lost(factor(Weight { p, q }, lots), mean)
}

/// A mean return times what it is scaled by.
fn lost(factor: u64, mean: i32) -> i128
    requires factor { factor ≤ 2550000000000000000 }
    requires mean { unsigned_abs mean ≤ 1000000 }
    ensures value { result ≡ pos factor *ℤ mean }
    ensures small { unsigned_abs result ≤ 2550000000000000000000000 }
{
    i128::from(factor) * i128::from(mean)
}
