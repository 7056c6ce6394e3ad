//! The tangent bound as a bound that a search can use.

use crate::lists::{greatest_list, least_list};
use crate::mean_variance::MeanVariance;
use crate::shows::{count_shown, tangent_shown, void_shown};
use gap_base::Lots;
use gap_box::Part;
use gap_model::{Leaf, NodeBound, Shown};
use gap_objective::value;

impl<'m> NodeBound for MeanVariance<'m> {
    ghost use Rattle.gap_model.specs.Problems.{tangent_problem};
    ghost use Rattle.gap_model.proofs.BoundLaws.{tangent_lawful};
    ghost use Rattle.gap_tangent.specs.Seen.{setting_of};

    ghost problem = { λ b. tangent_problem (setting_of b) };

    ghost lawful = { λ b. tangent_lawful (setting_of b) b.setting };

    fn held(&self) -> u16 {
        self.instance.held()
    }

    fn held_most(&self) -> u16 {
        self.instance.held_most()
    }

    fn root(&self) -> Part {
        let _assets = self.instance.n();
        let least = least_list(self.instance);
        let greatest = greatest_list(self.instance);
        Part::root(&least, &greatest)
    }

    fn keeps(&self, x: &Lots) -> bool {
        self.instance.keeps(x).is_none()
    }

    fn value(&self, x: &Lots) -> i128 {
        let _assets = self.instance.n();
        value(self.instance, self.weight, x)
    }

    fn shown(&self, part: &Part, leaf: &Leaf<'_>) -> Shown {
        match *leaf {
            Leaf::Count => count_shown(self, part),
            Leaf::Void { alpha, tau, third } => void_shown(self, part, alpha, tau, third),
            Leaf::Tangent {
                y,
                alpha,
                tau,
                third,
            } => tangent_shown(self, part, y, alpha, tau, third),
        }
    }
}
