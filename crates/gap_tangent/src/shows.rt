//! What each kind of leaf shows.

ghost use Rattle.std.specs.Prelude.{◌≡◌, ◌*◌, ◌<◌, ◌≤◌, cond, sum_by, pos, ◌-ℤ◌, ◌*ℤ◌, unsigned_abs};
ghost use Rattle.gap_box.specs.Parts.{can_meet, IsWithin, root_cells};
ghost use Rattle.gap_model.specs.declared.leaf.Entry.{Entry};
ghost use Rattle.gap_model.specs.declared.shown.Shown.TheVariants.{Nothing};
ghost use Rattle.gap_model.specs.Leaves.{eighths_at, is_zero, count_shows, void_shows, tangent_shows, AreEntries, AreMultipliers};
ghost use Rattle.gap_model.specs.Theta.{theta, void_theta};
ghost use Rattle.gap_tangent.specs.Seen.{setting_of};

use crate::entries::point_from;
use crate::lots::{fewest_lots, most_lots};
use crate::mean_variance::MeanVariance;
use crate::thetas::{theta, void_theta};
use gap_base::Witness;
use gap_box::Part;
use gap_model::{Entry, Shown};

/// What the count shows: Empty where it can't be met.
pub(crate) fn count_shown(mv: &MeanVariance<'_>, part: &Part) -> Shown
    ensures { result ≡ count_shows
        (can_meet part.now (setting_of mv.now).instance.held (setting_of mv.now).instance.held_most) }
{
    Shown::of_count(part.count_within(mv.instance.held(), mv.instance.held_most()))
}

/// Is the third multiplier 0?
fn is_zero(third: i128) -> bool
    ensures { result ≡ is_zero third }
{
    third == 0
}

/// How many lots are above the limit.
fn surplus(lots: u32, limit: u16) -> i128
    requires lots { lots ≤ 768 * 10000 }
    ensures value { result ≡ pos lots -ℤ pos limit }
    ensures small { unsigned_abs result ≤ 8000000 }
{
    i128::from(lots) - i128::from(limit)
}

/// `alpha` for each lot above the limit.
fn charged(alpha: i128, surplus: i128) -> i128
    requires alpha { unsigned_abs alpha ≤ 1000000000000000000000000000000 }
    requires surplus { unsigned_abs surplus ≤ 8000000 }
    ensures value { result ≡ alpha *ℤ surplus }
    ensures small { unsigned_abs result ≤ 8000000000000000000000000000000000000 }
{
    alpha * surplus
}

/// The least of the terms with `alpha` alone, from the fewest lots of the part or the most. It costs O(N), and no choice of
/// the cells to hold.
fn lots_theta(mv: &MeanVariance<'_>, part: &Part, alpha: i128) -> Option<i128>
    requires within { IsWithin part.now
        (root_cells (setting_of mv.now).instance.least (setting_of mv.now).instance.greatest) }
    requires alpha { unsigned_abs alpha ≤ 1000000000000000000000000000000 }
    ensures { result ≡ void_theta (setting_of mv.now) part.now alpha (pos 0) }
{
    let _cells = part.len();
    let inst = mv.instance;
    if !part.count_within(inst.held(), inst.held_most()) {
        return None;
    }
    if alpha < 0 {
        let most = most_lots(part, inst.held(), inst.held_most());
        return Some(charged(alpha, surplus(most, inst.lots())));
    }
    let fewest = fewest_lots(part, inst.held(), inst.held_most());
    Some(charged(alpha, surplus(fewest, inst.lots())))
}

/// The least of the terms with `alpha` and `tau` alone.
fn least_terms(mv: &MeanVariance<'_>, part: &Part, alpha: i128, tau: i128) -> Option<i128>
    requires within { IsWithin part.now
        (root_cells (setting_of mv.now).instance.least (setting_of mv.now).instance.greatest) }
    requires multipliers { AreMultipliers (setting_of mv.now).instance.turnover alpha tau }
    ensures { result ≡ void_theta (setting_of mv.now) part.now alpha tau }
{
    if tau == 0 {
        lots_theta(mv, part, alpha)
    } else {
        void_theta(mv, part, alpha, tau)
    }
}

/// What a void leaf shows. Without a price of the turnover it costs O(N), and no choice of the cells to hold.
pub(crate) fn void_shown(
    mv: &MeanVariance<'_>,
    part: &Part,
    alpha: i128,
    tau: i128,
    third: i128,
) -> Shown
    requires within { IsWithin part.now
        (root_cells (setting_of mv.now).instance.least (setting_of mv.now).instance.greatest) }
    requires multipliers { AreMultipliers (setting_of mv.now).instance.turnover alpha tau }
    ensures { result ≡ cond (is_zero third) (void_shows (void_theta (setting_of mv.now) part.now alpha tau)) Nothing }
{
    if is_zero(third) {
        Shown::of_void(least_terms(mv, part, alpha, tau))
    } else {
        Shown::Nothing
    }
}

/// Theta at the point of the entries.
fn theta_of(mv: &MeanVariance<'_>, part: &Part, y: &[Entry], alpha: i128, tau: i128) -> Option<i128>
    requires within { IsWithin part.now
        (root_cells (setting_of mv.now).instance.least (setting_of mv.now).instance.greatest) }
    requires entries { AreEntries (setting_of mv.now).instance.market.assets y.now }
    requires most { sum_by (λ (e : Entry). e.eighths) y.now ≤ 8 * (setting_of mv.now).instance.lots }
    requires multipliers { AreMultipliers (setting_of mv.now).instance.turnover alpha tau }
    ensures { result ≡ theta (setting_of mv.now) part.now (eighths_at y.now) alpha tau }
{
    let w = Witness {
        y: point_from(mv.instance.n(), y),
        alpha,
        tau,
    };
    theta(mv, part, &w)
}

/// What a tangent leaf shows.
pub(crate) fn tangent_shown(
    mv: &MeanVariance<'_>,
    part: &Part,
    y: &[Entry],
    alpha: i128,
    tau: i128,
    third: i128,
) -> Shown
    requires within { IsWithin part.now
        (root_cells (setting_of mv.now).instance.least (setting_of mv.now).instance.greatest) }
    requires entries { AreEntries (setting_of mv.now).instance.market.assets y.now }
    requires most { sum_by (λ (e : Entry). e.eighths) y.now ≤ 8 * (setting_of mv.now).instance.lots }
    requires multipliers { AreMultipliers (setting_of mv.now).instance.turnover alpha tau }
    ensures { result ≡ cond (is_zero third)
        (tangent_shows (theta (setting_of mv.now) part.now (eighths_at y.now) alpha tau)) Nothing }
{
    if is_zero(third) {
        Shown::of_tangent(theta_of(mv, part, y, alpha, tau))
    } else {
        Shown::Nothing
    }
}
