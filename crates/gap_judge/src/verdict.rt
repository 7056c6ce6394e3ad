//! What a certificate tells that was accepted.

ghost use Rattle.std.specs.Prelude.{◌≡◌};

use gap_instance::Instance;
use gap_model::Told;
use std::marker::Model;

/// What an accepted certificate tells: its instance, its budget of splits for each section, and of each section the weight
/// and the outcome. Contracts see it as a `VerdictValue`.
#[derive(Drop)]
pub struct Verdict {
    instance: Instance,
    nodes: u32,
    sections: Vec<Told>,
}

impl Model for Verdict {
    ghost use Rattle.gap_valid.specs.Verdicts.{VerdictValue};

    ghost Value = { VerdictValue };

    ghost view = { λ a. record {
      instance = a.instance;
      nodes = a.nodes;
      sections = a.sections.items;
    } };
}

impl Verdict {
    /// The verdict of these.
    pub(crate) fn of(instance: Instance, nodes: u32, sections: Vec<Told>) -> Verdict
        ensures { result ≡ record { instance = instance; nodes = nodes; sections = sections.items } }
    {
        Verdict {
            instance,
            nodes,
            sections,
        }
    }

    /// The instance of the certificate's head.
    pub fn instance(&self) -> &Instance
        ensures { result.now ≡ self.now.instance }
    {
        &self.instance
    }

    /// The budget of splits for each section.
    pub fn nodes(&self) -> u32
        ensures { result ≡ self.now.nodes }
    {
        self.nodes
    }

    /// The weight and the outcome of each section, in order.
    pub fn sections(&self) -> &[Told]
        ensures { result.now ≡ self.now.sections }
    {
        &self.sections
    }
}
