//! The products of the covariances with a tangent point.

ghost use Rattle.std.specs.Prelude.{◌≡◌, ℕ, ◌+◌, ◌*◌, ◌<◌, ◌≤◌, length, slice_set, slice_index_or, sum, ℤ, pos, ◌+ℤ◌, ◌*ℤ◌, unsigned_abs};
ghost use Rattle.gap_base.specs.Sums.{sum_below, at};
ghost use Rattle.gap_base.specs.Lots.{lots_at};
ghost use Rattle.gap_instance.specs.Objective.{cov_of};
ghost use Rattle.gap_model.specs.Leaves.{IsPoint};
ghost use Rattle.gap_tangent.specs.Rows.{AreRows};

use gap_base::Eighths;
use gap_instance::Instance;

/// A covariance times a number of eighths.
fn times(cov: i64, eighths: u32) -> i128
    requires cov { unsigned_abs cov ≤ 1000000000000000000 }
    requires eighths { eighths ≤ 80000 }
    ensures value { result ≡ cov *ℤ pos eighths }
    ensures small { unsigned_abs result ≤ 80000000000000000000000 }
{
    i128::from(cov) * i128::from(eighths)
}

/// Adds an amount to the number at place `i`.
fn add_to(rows: &mut [i128; 256], i: u16, amount: i128)
    requires there { i < 256 }
    requires old { unsigned_abs (at rows.old i) ≤ 256 * 80000000000000000000000 }
    requires amount { unsigned_abs amount ≤ 80000000000000000000000 }
    ensures { rows.new ≡ slice_set rows.old i (at rows.old i +ℤ amount) }
{
    let place = usize::from(i);
    let old = rows[place];
    rows[place] = old + amount;
}

/// Adds the covariances with asset `j` times its eighths to the numbers of the assets.
fn add_column(inst: &Instance, j: u16, eighths: u32, rows: &mut [i128; 256])
    requires there { j < inst.now.market.assets }
    requires eighths { eighths ≤ 80000 }
    requires small { (i : ℕ) → i < inst.now.market.assets → unsigned_abs (at rows.old i) ≤ j * 80000000000000000000000 }
    ensures { (i : ℕ) → i < inst.now.market.assets
        → at rows.new i ≡ at rows.old i +ℤ cov_of inst.now.market i j *ℤ pos eighths }
{
    for i in 0..inst.n() {
        add_to(rows, i, times(inst.cov(j, i), eighths));
    }
}

/// The same, and nothing where the eighths are 0.
fn add_eighths(inst: &Instance, j: u16, eighths: u32, rows: &mut [i128; 256])
    requires there { j < inst.now.market.assets }
    requires eighths { eighths ≤ 80000 }
    requires small { (i : ℕ) → i < inst.now.market.assets → unsigned_abs (at rows.old i) ≤ j * 80000000000000000000000 }
    ensures { (i : ℕ) → i < inst.now.market.assets
        → at rows.new i ≡ at rows.old i +ℤ cov_of inst.now.market i j *ℤ pos eighths }
{
    if eighths == 0 {
        return;
    }
    add_column(inst, j, eighths, rows);
}

/// For each asset the sum of its covariances times the eighths. Costs O(N) for each asset with eighths, and O(N) more.
pub(crate) fn rows_of(inst: &Instance, y: &Eighths) -> [i128; 256]
    requires { IsPoint inst.now y.now }
    ensures { AreRows inst.now.market y.now result }
{
    let mut rows = [0; 256];
    for j in 0..inst.n() {
        add_eighths(inst, j, y.get(j), &mut rows);
    }
    rows
}
