//! A tangent bound, made and read.

ghost use Rattle.std.specs.Prelude.{◌≡◌, ◌<◌, ◌≤◌};
ghost use Rattle.gap_instance.specs.Objective.{cov_of};
ghost use Rattle.gap_psd.specs.Shifts.{IsDominantShift};
ghost use Rattle.gap_tangent.specs.Bounds.{setting_with};
ghost use Rattle.gap_tangent.specs.Seen.{setting_of, shift_of};

use crate::bends::bends_of;
use crate::lists::present_list;
use crate::mean_variance::MeanVariance;
use gap_base::Weight;
use gap_instance::Instance;
use gap_psd::Shift;

impl<'m> MeanVariance<'m> {
    /// The bound over an instance, a shift that is dominant for it, and a weight in its range. Costs O(N).
    pub fn new(instance: &'m Instance, shift: &'m Shift, weight: Weight) -> MeanVariance<'m>
        requires same { instance.now.market.assets ≡ shift.now.assets }
        requires dominant { IsDominantShift (cov_of instance.now.market) shift.now }
        requires p_most { weight.p ≤ weight.q }
        requires q_most { weight.q ≤ 100 }
        ensures setting { setting_of result ≡ setting_with instance.now shift.now weight }
        ensures shift { shift_of result ≡ shift.now }
    {
        let _assets = instance.n();
        let _shift = shift.n();
        MeanVariance {
            instance,
            shift,
            weight,
            bends: bends_of(shift, weight),
            present: present_list(instance),
        }
    }

    /// The instance.
    pub fn instance(&self) -> &'m Instance
        ensures { result.now ≡ (setting_of self.now).instance }
    {
        self.instance
    }

    /// The shift, which is dominant for the instance.
    pub fn shift(&self) -> &'m Shift
        ensures shift { result.now ≡ shift_of self.now }
        ensures assets { result.now.assets ≡ (setting_of self.now).instance.market.assets }
        ensures diagonal { result.now.diagonal ≡ (setting_of self.now).shift }
    {
        self.shift
    }

    /// The weight.
    pub fn weight(&self) -> Weight
        ensures p { result.p ≡ (setting_of self.now).p }
        ensures q { result.q ≡ (setting_of self.now).q }
    {
        self.weight
    }
}
