//! The laws of the tangent bound that other crates rest on, as contracts. Nothing is computed here.

ghost use Rattle.std.specs.Prelude.{◌≡◌, ◌≢◌, ◌↔◌, ℕ, ◌<◌, ◌≤◌, List, Option, Some, None, true, false, ℤ, pos, ◌*◌, ◌*ℤ◌, ◌≤ℤ◌, sum_by, unsigned_abs};
ghost use Rattle.std.specs.declared.cmp.Ordering.TheVariants.{Greater};
ghost use Rattle.gap_base.specs.Lots.{lots_at};
ghost use Rattle.gap_box.specs.declared.cell.Cell.{Cell};
ghost use Rattle.gap_box.specs.Cells.{AreCells};
ghost use Rattle.gap_base.specs.Sizes.{most_theta, most_bound};
ghost use Rattle.gap_box.specs.Parts.{can_meet, IsWithin, root_cells};
ghost use Rattle.gap_instance.specs.Instances.{InstanceValue};
ghost use Rattle.gap_instance.specs.Limits.{MeetsLimits};
ghost use Rattle.gap_instance.specs.Objective.{objective};
ghost use Rattle.gap_model.specs.declared.leaf.Entry.{Entry};
ghost use Rattle.gap_model.specs.declared.leaf.Leaf.{Leaf};
ghost use Rattle.gap_model.specs.declared.shown.Shown.{Shown};
ghost use Rattle.gap_model.specs.declared.shown.Shown.TheVariants.{AtLeast};
ghost use Rattle.gap_model.specs.Settings.{Setting, IsSetting};
ghost use Rattle.gap_model.specs.Lagrangian.{lag, void_lag};
ghost use Rattle.gap_model.specs.Theta.{theta, void_theta, IsTheta, IsVoidTheta};
ghost use Rattle.gap_model.specs.Limits.{meets_limits};
ghost use Rattle.gap_model.specs.Order.{ShownLe};
ghost use Rattle.gap_model.specs.Leaves.{eighths_at, in_range, shows, sixty_fourth, ascend, are_multipliers, AreMultipliers, AreEntries};
ghost use Rattle.gap_model.specs.Problems.{IsBound, tangent_problem};
ghost use Rattle.gap_model.specs.Priced.{PricedProblem, IsPriced, priced_shows, problem_of, tangent_prices};

use crate::leaf::Entry;
use crate::shown::Shown;

/// The order of what leaves show: `Nothing` is below each `AtLeast`, `Empty` is above, and `AtLeast` goes by its number.
pub fn shown_order()
    ensures order { (a b : Shown) → (⟦<Shown as Ord>⟧.cmp a b ≢ Greater) ↔ ShownLe a b }
    ensures whole { (a b c : Shown) → ShownLe a b → ShownLe b c → ShownLe a c }
{}

/// Theta is the least of the Lagrangian over the lists of a part that hold from K1 to K2 assets: some such list has it and
/// none has less. There is none exactly where the count can't be met. The same holds of the terms with alpha and tau alone.
pub fn theta_is_least()
    ensures least { (s : Setting) (cells : List Cell) (y : ℕ → ℤ) (alpha tau t : ℤ)
        → (theta s cells y alpha tau ≡ Some t) ↔ IsTheta s cells y alpha tau t }
    ensures none { (s : Setting) (cells : List Cell) (y : ℕ → ℤ) (alpha tau : ℤ) → AreCells cells
        → s.instance.held ≤ s.instance.held_most
        → (theta s cells y alpha tau ≡ None) ↔ (can_meet cells s.instance.held s.instance.held_most ≡ false) }
    ensures void_least { (s : Setting) (cells : List Cell) (alpha tau t : ℤ)
        → (void_theta s cells alpha tau ≡ Some t) ↔ IsVoidTheta s cells alpha tau t }
    ensures void_none { (s : Setting) (cells : List Cell) (alpha tau : ℤ) → AreCells cells
        → s.instance.held ≤ s.instance.held_most
        → (void_theta s cells alpha tau ≡ None) ↔ (can_meet cells s.instance.held s.instance.held_most ≡ false) }
{}

/// The Lagrangian is at most 64 times the objective of each list that meets the limits, and is exactly that at Y = 8x
/// with multipliers 0. The terms with alpha and tau alone aren't positive for such a list.
pub fn lagrangian_bounds()
    ensures below { (s : Setting) (y : ℕ → ℤ) (alpha tau : ℤ) (x : List ℕ) → IsSetting s → pos 0 ≤ℤ tau
        → MeetsLimits s.instance x → lag s y alpha tau x ≤ℤ (pos 64 *ℤ objective s.instance s.p s.q x) }
    ensures exact { (s : Setting) (y : ℕ → ℤ) (x : List ℕ)
        → ((i : ℕ) → i < s.instance.market.assets → y i ≡ pos 8 *ℤ lots_at x i)
        → lag s y (pos 0) (pos 0) x ≡ (pos 64 *ℤ objective s.instance s.p s.q x) }
    ensures void { (s : Setting) (alpha tau : ℤ) (x : List ℕ) → pos 0 ≤ℤ tau → MeetsLimits s.instance x
        → void_lag s alpha tau x ≤ℤ pos 0 }
{}

/// No number of lots beyond the assets is read: the Lagrangian and theta depend on Y at the assets alone.
pub fn theta_reads_assets()
    ensures lagrangian { (s : Setting) (y z : ℕ → ℤ) (alpha tau : ℤ) (x : List ℕ)
        → ((i : ℕ) → i < s.instance.market.assets → y i ≡ z i) → lag s y alpha tau x ≡ lag s z alpha tau x }
    ensures least { (s : Setting) (cells : List Cell) (y z : ℕ → ℤ) (alpha tau : ℤ)
        → ((i : ℕ) → i < s.instance.market.assets → y i ≡ z i) → theta s cells y alpha tau ≡ theta s cells z alpha tau }
{}

/// The test of the limits decides them, and the tangent bound keeps the laws of bounds.
pub fn tangent_bound_is_lawful()
    ensures limits { (I : InstanceValue) (x : List ℕ) → (meets_limits I x ≡ true) ↔ MeetsLimits I x }
    ensures laws { (s : Setting) → IsSetting s → IsBound (tangent_problem s) }
{}

/// Every priced bound keeps the laws of bounds: below, narrower, exact and empty hold for any Lagrangian that is at most
/// 64 times the cost of each list that meets the limits and exactly that at 8x, and for any void terms that aren't
/// positive there. The tangent bound is one of them, and its leaves show what their prices show.
pub fn priced_bound_is_lawful()
    ensures laws { (p : PricedProblem) → IsPriced p → IsBound (problem_of p) }
    ensures tangent { (s : Setting) → IsSetting s → IsPriced (tangent_prices s) }
    ensures shown { (s : Setting) (part : List Cell) (leaf : Leaf)
        → priced_shows (tangent_prices s) part leaf ≡ shows s part leaf }
{}

/// Over a part of the root and with multipliers in range, theta and void theta are at most `most_theta` in size, below
/// 10^37, and the number that a leaf in range shows is at most `most_bound`, below 10^36.
pub fn leaf_sizes()
    ensures theta { (s : Setting) (part : List Cell) (y : List Entry) (alpha tau t : ℤ) → IsSetting s
        → IsWithin part (root_cells s.instance.least s.instance.greatest)
        → sum_by (λ (e : Entry). e.eighths) y ≤ 8 * s.instance.lots → AreMultipliers s.instance.turnover alpha tau
        → theta s part (eighths_at y) alpha tau ≡ Some t → unsigned_abs t ≤ most_theta }
    ensures void_theta { (s : Setting) (part : List Cell) (alpha tau t : ℤ) → IsSetting s
        → IsWithin part (root_cells s.instance.least s.instance.greatest)
        → AreMultipliers s.instance.turnover alpha tau → void_theta s part alpha tau ≡ Some t
        → unsigned_abs t ≤ most_theta }
    ensures shown { (s : Setting) (part : List Cell) (leaf : Leaf) (v : ℤ) → IsSetting s
        → IsWithin part (root_cells s.instance.least s.instance.greatest) → in_range s leaf ≡ true
        → shows s part leaf ≡ AtLeast v → unsigned_abs v ≤ most_bound }
{}

/// The tests of the multipliers and of the entries of a leaf decide whether they are in range.
pub fn ranges_are_decided()
    ensures multipliers { (turnover : Option ℕ) (alpha tau : ℤ)
        → (are_multipliers turnover alpha tau ≡ true) ↔ AreMultipliers turnover alpha tau }
    ensures entries { (n : ℕ) (y : List Entry) → (ascend 0 n y ≡ true) ↔ AreEntries n y }
{}

/// The 64th part of a number, brought up to a whole one, is the least whole number that 64 times isn't below it.
pub fn sixty_fourth_is_least()
    ensures reached { (v : ℤ) → v ≤ℤ (pos 64 *ℤ sixty_fourth v) }
    ensures least { (v c : ℤ) → v ≤ℤ (pos 64 *ℤ c) → sixty_fourth v ≤ℤ c }
{}
