//! What a lot of an asset costs before any multiplier.

ghost use Rattle.std.specs.Prelude.{◌≡◌, ℕ, ◌<◌, ◌≤◌, ℤ, pos, ◌*ℤ◌, length, unsigned_abs};
ghost use Rattle.gap_base.specs.Sums.{at};
ghost use Rattle.gap_base.specs.Lots.{lots_at};
ghost use Rattle.gap_tangent.specs.Terms.{gradient_of};

use crate::point::Point;

/// Eight times a gradient: the slope of a lot.
fn slope(gradient: i128) -> i128
    requires { unsigned_abs gradient ≤ 16250000000000000000000000000 }
    ensures { result ≡ pos 8 *ℤ gradient }
{
    8 * gradient
}

/// The slopes of the assets at a point. Costs O(N).
pub(crate) fn slopes_of(point: &Point<'_>) -> [i128; 256]
    ensures slopes { (i : ℕ) → i < point.now.setting.instance.market.assets
        → at result i ≡ pos 8 *ℤ gradient_of point.now.setting (lots_at point.now.eighths) i }
    ensures room { length result ≡ 256 }
{
    let mut slopes = [0; 256];
    for i in 0..point.eighths().len() {
        let value = slope(point.gradient(i));
        let place = usize::from(i);
        slopes[place] = value;
    }
    slopes
}
