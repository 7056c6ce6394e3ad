//! A witness with what its point gives.

ghost use Rattle.std.specs.Prelude.{◌≡◌, ℕ, List, true, None, IfOk};
ghost use Rattle.gap_box.specs.Parts.{can_meet, IsSingle, IsWithin, root_cells};
ghost use Rattle.gap_model.specs.declared.shown.Shown.TheVariants.{Empty};
ghost use Rattle.gap_model.specs.Problems.{tangent_problem};
ghost use Rattle.gap_model.specs.Showing.{ShowsSo};
ghost use Rattle.gap_tangent.specs.Seen.{setting_of};
ghost use Rattle.gap_leaf.specs.Voids.{first_void};
ghost use Rattle.gap_leaf.specs.Finding.{IsWitness, IsLeafFor};

use crate::candidates::best_witness;
use crate::placing::tangent_leaf;
use crate::voids::first_void;
use bumpalo::Bump;
use gap_base::{Eighths, OutOfMemory, Witness};
use gap_box::Part;
use gap_model::{Leaf, Placed, Shown, placed_at};
use gap_tangent::{MeanVariance, Tangent};
use std::marker::Model;

/// A leaf that shows that there is no list.
fn empty_by(leaf: Leaf<'_>) -> Placed<'_>
    ensures leaf { result.leaf ≡ leaf.entry }
    ensures shown { result.shown ≡ Empty }
{
    Placed {
        leaf,
        shown: Shown::Empty,
    }
}

/// A witness of a bound with what its point alone gives, kept while parts vary. Contracts see it as a `HintValue`. It takes
/// no memory beyond itself.
#[derive(Drop)]
pub struct Hinted<'m> {
    pub(crate) bound: &'m MeanVariance<'m>,
    pub(crate) tangent: Tangent<'m>,
    pub(crate) alpha: i128,
    pub(crate) tau: i128,
}

impl<'m> Model for Hinted<'m> {
    ghost use Rattle.std.specs.Prelude.{◌≡◌};
    ghost use Rattle.gap_tangent.specs.Seen.{setting_of};
    ghost use Rattle.gap_leaf.specs.Finding.{HintValue, IsWitness};

    ghost Value = { HintValue };

    ghost view = { λ h. record {
      setting = setting_of h.bound.now;
      hint = record { y = h.tangent.eighths; alpha = h.alpha; tau = h.tau };
    } };

    ghost invariant = { λ h. (h.tangent.setting ≡ setting_of h.bound.now)
        × IsWitness (setting_of h.bound.now) (record { y = h.tangent.eighths; alpha = h.alpha; tau = h.tau }) };
}

impl<'m> Hinted<'m> {
    /// The witness of a bound. Costs O(N) for each asset with eighths, and O(N) more.
    pub fn new(bound: &'m MeanVariance<'m>, hint: &Witness) -> Hinted<'m>
        requires { IsWitness (setting_of bound.now) hint.now }
        ensures { result ≡ record { setting = setting_of bound.now; hint = hint.now } }
    {
        Hinted {
            bound,
            tangent: Tangent::at(bound, &hint.y),
            alpha: hint.alpha,
            tau: hint.tau,
        }
    }

    /// The leaf of a part from the witness, with what the bound shows by it there. Its entries are placed in the arena.
    /// Costs O(N) on average for each probe of a multiplier, and the rounds of the tangent point. Err comes where the arena
    /// is refused memory.
    pub fn leaf<'a>(&self, part: &Part, arena: &'a Bump) -> Result<Placed<'a>, OutOfMemory>
        requires { IsWithin part.now (root_cells self.now.setting.instance.least self.now.setting.instance.greatest) }
        ensures leaf { IfOk result (λ p. IsLeafFor self.now.setting part.now self.now.hint p.leaf) }
        ensures shows { IfOk result (ShowsSo (tangent_problem self.now.setting) part.now) }
    {
        let _assets = self.bound.instance().n();
        let _cells = part.len();
        let inst = self.bound.instance();
        if !part.count_within(inst.held(), inst.held_most()) {
            return Ok(empty_by(Leaf::Count));
        }
        match first_void(self.bound, part) {
            Some(tried) => Ok(empty_by(Leaf::Void {
                alpha: tried.alpha,
                tau: tried.tau,
                third: 0,
            })),
            None => self.leaf_of_lists(part, arena),
        }
    }

    /// The leaf of a part that no void leaf shows to have no list that meets the limits.
    fn leaf_of_lists<'a>(&self, part: &Part, arena: &'a Bump) -> Result<Placed<'a>, OutOfMemory>
        requires within { IsWithin part.now (root_cells self.now.setting.instance.least self.now.setting.instance.greatest) }
        requires counted { can_meet part.now self.now.setting.instance.held self.now.setting.instance.held_most ≡ true }
        requires no_void { first_void self.now.setting part.now ≡ None }
        ensures leaf { IfOk result (λ p. IsLeafFor self.now.setting part.now self.now.hint p.leaf) }
        ensures shows { IfOk result (ShowsSo (tangent_problem self.now.setting) part.now) }
    {
        let _assets = self.bound.instance().n();
        let _cells = part.len();
        let inst = self.bound.instance();
        match part.single_within(inst.held(), inst.held_most()) {
            Some(x) => {
                let leaf = tangent_leaf(&Eighths::of(&x), 0, 0, arena)?;
                Ok(placed_at(self.bound, part, leaf))
            }
            None => self.best_leaf(part, arena),
        }
    }

    /// The leaf of a part that has more than one list that meets the count: the best of three tangents.
    fn best_leaf<'a>(&self, part: &Part, arena: &'a Bump) -> Result<Placed<'a>, OutOfMemory>
        requires within { IsWithin part.now (root_cells self.now.setting.instance.least self.now.setting.instance.greatest) }
        requires counted { can_meet part.now self.now.setting.instance.held self.now.setting.instance.held_most ≡ true }
        requires no_void { first_void self.now.setting part.now ≡ None }
        requires several { (x : List ℕ)
            → IsSingle part.now self.now.setting.instance.held self.now.setting.instance.held_most x → ⊥ }
        ensures leaf { IfOk result (λ p. IsLeafFor self.now.setting part.now self.now.hint p.leaf) }
        ensures shows { IfOk result (ShowsSo (tangent_problem self.now.setting) part.now) }
    {
        let _assets = self.bound.instance().n();
        let _cells = part.len();
        let best = best_witness(self.bound, &self.tangent, part, self.alpha, self.tau);
        let leaf = tangent_leaf(&best.witness.y, best.witness.alpha, best.witness.tau, arena)?;
        Ok(Placed {
            leaf,
            shown: Shown::of_tangent(Some(best.theta)),
        })
    }
}
