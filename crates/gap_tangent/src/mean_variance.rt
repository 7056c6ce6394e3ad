//! What a tangent bound is taken over.

ghost use Rattle.std.specs.Prelude.{◌≡◌, ◌<◌, ◌≤◌};
ghost use Rattle.gap_model.specs.Settings.{IsSetting};
ghost use Rattle.gap_tangent.specs.Bounds.{setting_with};
ghost use Rattle.gap_tangent.specs.Terms.{AreBends};

use gap_base::{Lots, Weight};
use gap_instance::Instance;
use gap_psd::Shift;

/// The bound of the objective of an instance under a weight, by the tangents of the objective shifted by a dominant
/// shift. It borrows both, keeps what the square of each asset's lots takes off and the present lots, some 5 kilobytes,
/// and takes no memory.
#[derive(Drop)]
pub struct MeanVariance<'m> {
    pub(crate) instance: &'m Instance,
    pub(crate) shift: &'m Shift,
    pub(crate) weight: Weight,
    pub(crate) bends: [i128; 256],
    pub(crate) present: Lots,
    pub ghost same: { instance.now.market.assets ≡ shift.now.assets },
    pub ghost setting: { IsSetting (setting_with instance.now shift.now weight) },
    pub ghost bends_are: { AreBends (setting_with instance.now shift.now weight) bends },
    pub ghost present_is: { present ≡ instance.now.present },
}
