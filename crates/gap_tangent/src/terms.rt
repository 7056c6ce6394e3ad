//! What a tangent keeps of its point, without its bound.

ghost use Rattle.std.specs.Prelude.{◌≡◌, ◌↔◌, IsTrue};
ghost use Rattle.gap_tangent.specs.Seen.{setting_of};
ghost use Rattle.gap_tangent.specs.Kept.{kept_eighths, AreTermsOf};

use crate::mean_variance::MeanVariance;
use crate::tangent::Tangent;
use gap_base::Eighths;

/// What a tangent keeps of its point, without a borrow of its bound: the eighths, what each asset's lots cost before any
/// multiplier, and what belongs to no asset. It takes no memory beyond itself, about 5 kilobytes.
#[derive(Drop)]
pub struct TangentTerms {
    eighths: Eighths,
    slopes: [i128; 256],
    constant: i128,
}

impl TangentTerms {
    /// Is the point of the tangent `y`? It costs one pass.
    pub fn is_at(&self, y: &Eighths) -> bool
        ensures { IsTrue result ↔ (kept_eighths self.now ≡ y.now) }
    {
        is_same_list(&self.eighths, y)
    }
}

/// Do the two lists have the same numbers?
#[tactic(auto, using(crate::proofs::CopyLaws::copied_none, crate::proofs::CopyLaws::copied_step, crate::proofs::CopyLaws::copied_whole, crate::proofs::CopyLaws::other_lengths, crate::proofs::CopyLaws::other_at))]
fn is_same_list(x: &Eighths, y: &Eighths) -> bool
    ensures { IsTrue result ↔ (x.now ≡ y.now) }
{
    if x.len() != y.len() {
        return false;
    }
    for i in 0..x.len() {
        if x.get(i) != y.get(i) {
            return false;
        }
    }
    true
}

impl<'m> Tangent<'m> {
    /// What the tangent keeps of its point. Costs O(N).
    pub fn terms(&self) -> TangentTerms
        ensures terms { AreTermsOf self.now.setting result }
        ensures eighths { kept_eighths result ≡ self.now.eighths }
    {
        TangentTerms {
            eighths: self.eighths.copy(),
            slopes: self.slopes,
            constant: self.constant,
        }
    }

    /// The tangent that kept these terms, of the same bound or of one over the same instance, shift and weight. Costs
    /// O(N), however many assets have eighths.
    pub fn from_terms(bound: &'m MeanVariance<'m>, terms: &TangentTerms) -> Tangent<'m>
        requires { AreTermsOf (setting_of bound.now) terms.now }
        ensures { result ≡ record { setting = setting_of bound.now; eighths = kept_eighths terms.now } }
    {
        Tangent {
            bound,
            eighths: terms.eighths.copy(),
            slopes: terms.slopes,
            constant: terms.constant,
        }
    }
}
