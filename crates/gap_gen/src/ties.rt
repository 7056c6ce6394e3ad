//! The correlations of an asset with those before it.

ghost use Rattle.std.specs.Prelude.{◌≡◌, ℕ, ◌*◌, ◌<◌, ◌≤◌, pos, unsigned_abs, length, slice_index_or};
ghost use Rattle.gap_base.specs.Markets.{rho_of};
ghost use Rattle.gap_gen.specs.Draws.{KeepsAssets, AreTied};

use gap_base::Market;

/// The correlation of two assets by their loads, in millionths.
fn product(one: u16, other: u16) -> i32
    requires one { one ≤ 900 }
    requires other { other ≤ 900 }
    ensures value { result ≡ pos (one * other) }
    ensures most { unsigned_abs result ≤ 1000000 }
{
    i32::from(one) * i32::from(other)
}

/// Sets the correlations of asset `i` with each before it, and nothing else.
pub fn tie(market: &mut Market, loads: &[u16], i: u16)
    requires asset { i < market.old.assets }
    requires places { length loads.now ≡ market.old.assets }
    requires small { (k : ℕ) → slice_index_or loads.now k 0 ≤ 900 }
    ensures kept { KeepsAssets market.old market.new i }
    ensures tied { AreTied market.new loads.now i i }
{
    let own = loads[usize::from(i)];
    for j in 0..i {
        market.set_rho(i, j, product(own, loads[usize::from(j)]));
    }
}
