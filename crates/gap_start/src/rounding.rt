//! A point of a search, rounded to a list.

ghost use Rattle.std.specs.Prelude.{◌≡◌, ◌≢◌, ℕ, ◌+◌, ◌<◌, ◌≤◌, ◌↔◌, ◌/◌, min, max, List, length, slice_index_or, IsTrue, IsNone, IfSome, ◌≤ℤ◌};
ghost use Rattle.gap_box.specs.declared.cell.Cell.TheVariants.{Out};
ghost use Rattle.gap_box.specs.Cells.{is_held};
ghost use Rattle.gap_box.specs.Parts.{helds};
ghost use Rattle.gap_instance.specs.Instances.{IsInstance, AreBetween};
ghost use Rattle.gap_instance.specs.Limits.{MeetsLimits};
ghost use Rattle.gap_instance.specs.Neighbours.{HasNoBetterNeighbour};
ghost use Rattle.gap_instance.specs.Objective.{objective};
ghost use Rattle.gap_start.specs.Choices.{is_left, IsNextSoFar, AreChosenSoFar, AreMusts};
ghost use Rattle.gap_start.specs.Roundings.{AreChosen, IsRoundedDown, IsRounding};

use crate::fill::brought;
use crate::polishing::polish;
use gap_base::{Eighths, Lots, Weight};
use gap_box::{Cell, Part};
use gap_instance::Instance;
use gap_objective::Holding;

/// The point `y` rounded to a list on a part, and polished: None exactly where the list to which it is rounded breaks a
/// limit. Costs what `rounding_of` and `polished` cost, and takes no memory.
pub fn rounded(inst: &Instance, w: Weight, part: &Part, y: &Eighths) -> Option<Lots>
    requires cells { length part.now ≡ inst.now.market.assets }
    requires point { length y.now ≡ inst.now.market.assets }

    // There is a list to which the point is rounded, and no other.
    ensures one { (x : List ℕ) × IsRounding inst.now w.p w.q part.now y.now x }
    ensures only { (x z : List ℕ) → IsRounding inst.now w.p w.q part.now y.now x
        → IsRounding inst.now w.p w.q part.now y.now z → x ≡ z }

    ensures none { IsNone result
        ↔ ((x : List ℕ) → IsRounding inst.now w.p w.q part.now y.now x → MeetsLimits inst.now x → ⊥) }
    ensures meets { IfSome result (MeetsLimits inst.now) }
    ensures better { IfSome result
        (λ z. (x : List ℕ) → IsRounding inst.now w.p w.q part.now y.now x
        → objective inst.now w.p w.q z ≤ℤ objective inst.now w.p w.q x) }
    ensures best { IfSome result (HasNoBetterNeighbour inst.now w.p w.q) }
{
    let list = rounding_of(inst, w, part, y);
    polished(inst, w, &list)
}

/// The list to which the point `y` is rounded on a part, which may break a limit. The assets that must be held and then
/// those that may be, by falling eighths, get their whole lots, and one lot at a time is added or taken to come to the
/// sum. Costs O(N) for each asset that is held and for each lot, and takes no memory.
pub fn rounding_of(inst: &Instance, w: Weight, part: &Part, y: &Eighths) -> Lots
    requires cells { length part.now ≡ inst.now.market.assets }
    requires point { length y.now ≡ inst.now.market.assets }
    ensures rounding { IsRounding inst.now w.p w.q part.now y.now result }

    // It is rounded to no other.
    ensures only { (x z : List ℕ) → IsRounding inst.now w.p w.q part.now y.now x
        → IsRounding inst.now w.p w.q part.now y.now z → x ≡ z }
{
    let marks = chosen(inst, part, y);
    let first = rounded_down(inst, &marks, y);
    let filled = brought(inst, w, &marks, &first);
    filled.lots().copy()
}

/// A list polished: None exactly where it breaks a limit. Costs O(N) for each asset that is held, O(K * N) for each step
/// of the polish, and takes no memory.
pub fn polished(inst: &Instance, w: Weight, list: &Lots) -> Option<Lots>
    ensures none { IsNone result ↔ (MeetsLimits inst.now list.now → ⊥) }
    ensures meets { IfSome result (MeetsLimits inst.now) }
    ensures better { IfSome result
        (λ z. objective inst.now w.p w.q z ≤ℤ objective inst.now w.p w.q list.now) }
    ensures best { IfSome result (HasNoBetterNeighbour inst.now w.p w.q) }
{
    let _assets = inst.n();
    if !meets_limits(inst, list) {
        return None;
    }
    let mut holding = Holding::new(inst, w, list);
    polish(&mut holding);
    Some(holding.lots().copy())
}

/// Does a list meet the limits?
fn meets_limits(inst: &Instance, list: &Lots) -> bool
    ensures { IsTrue result ↔ MeetsLimits inst.now list.now }
{
    inst.keeps(list).is_none()
}

/// One for each asset that is held, zero for the others.
fn chosen(inst: &Instance, part: &Part, y: &Eighths) -> Lots
    requires cells { length part.now ≡ inst.now.market.assets }
    requires point { length y.now ≡ inst.now.market.assets }
    ensures chosen { AreChosen inst.now part.now y.now result }
{
    let mut marks = musts(inst, part);
    for held in part.held_cells()..inst.held_most() {
        match next_free(part, &marks, y) {
            Some(i) => {
                if are_enough(inst, held, y.get(i)) {
                    return marks;
                }
                marks.set(i, 1);
            }
            None => return marks,
        }
    }
    marks
}

/// Are enough assets held, where the next one has these eighths?
fn are_enough(inst: &Instance, held: u16, eighths: u32) -> bool
    ensures { IsTrue result ↔ ((inst.now.held ≤ held) × (eighths ≡ 0)) }
{
    inst.held() <= held && eighths == 0
}

/// One for each asset that must be held, zero for the others.
fn musts(inst: &Instance, part: &Part) -> Lots
    requires { length part.now ≡ inst.now.market.assets }
    ensures musts { AreMusts part.now inst.now.market.assets inst.now.market.assets result }
    ensures instance { IsInstance inst.now }
{
    let mut marks = Lots::zeros(inst.n());
    for i in 0..inst.n() {
        if matches!(part.cell(i), Cell::Held { .. }) {
            marks.set(i, 1);
        }
    }
    marks
}

/// Of the assets that are free to be held and not marked the first with the most eighths.
fn next_free(part: &Part, marks: &Lots, y: &Eighths) -> Option<u16>
    requires marks { length marks.now ≡ length part.now }
    requires point { length y.now ≡ length part.now }
    ensures { IsNextSoFar part.now marks.now y.now (length part.now) result }
{
    let mut best: Option<u16> = None;
    for i in 0..part.len() {
        best = next_with(part, marks, y, i, best);
    }
    best
}

/// The next of the assets that are left, among asset `i` and those below it, of which it is `best`.
#[tactic(auto, using(crate::proofs::RoundingLaws::next_steps))]
fn next_with(part: &Part, marks: &Lots, y: &Eighths, i: u16, best: Option<u16>) -> Option<u16>
    requires inside { i < length part.now }
    requires marks { length marks.now ≡ length part.now }
    requires point { length y.now ≡ length part.now }
    requires below { IsNextSoFar part.now marks.now y.now i best }
    ensures { IsNextSoFar part.now marks.now y.now (i + 1) result }
{
    if !is_left(part, marks, i) {
        return best;
    }
    match best {
        Some(b) => {
            if y.get(b) < y.get(i) {
                Some(i)
            } else {
                Some(b)
            }
        }
        None => Some(i),
    }
}

/// Is asset `i` free to be held, and not marked?
fn is_left(part: &Part, marks: &Lots, i: u16) -> bool
    requires cell { i < length part.now }
    requires marks { length marks.now ≡ length part.now }
    ensures { result ≡ is_left part.now marks.now i }
{
    matches!(part.cell(i), Cell::Free { .. }) && marks.get(i) == 0
}

/// The eighths of each marked asset in whole lots, rounded down and brought into its limits.
fn rounded_down(inst: &Instance, marks: &Lots, y: &Eighths) -> Lots
    requires marks { length marks.now ≡ inst.now.market.assets }
    requires point { length y.now ≡ inst.now.market.assets }
    ensures down { IsRoundedDown inst.now marks.now y.now result }
    ensures small { AreBetween inst.now.market.assets 0 10000 result }
{
    let mut list = Lots::zeros(inst.n());
    for i in 0..inst.n() {
        if 0 < marks.get(i) {
            list.set(i, whole_lots(inst, i, y.get(i)));
        }
    }
    list
}

/// Eighths of asset `i` in whole lots, rounded down and brought into its limits.
fn whole_lots(inst: &Instance, i: u16, eighths: u32) -> u16
    requires { i < inst.now.market.assets }
    ensures value { result ≡ max (slice_index_or inst.now.least i 0)
        (min (eighths / 8) (slice_index_or inst.now.greatest i 0)) }
    ensures small { result ≤ inst.now.lots }
{
    let most = u32::from(inst.hi(i));
    let lots = (eighths / 8).min(most);
    inst.lo(i).max(lots as u16)
}
