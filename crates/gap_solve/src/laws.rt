//! The laws of ended searches.

ghost use Rattle.std.specs.Prelude.{◌≡◌, ℕ, Option, ℤ};
ghost use Rattle.gap_model.specs.declared.outcome.Best.{Best};
ghost use Rattle.gap_model.specs.declared.outcome.Outcome.TheVariants.{Bounded};
ghost use Rattle.gap_model.specs.declared.shown.Shown.TheVariants.{AtLeast};
ghost use Rattle.gap_model.specs.Settings.{Setting};
ghost use Rattle.gap_model.specs.Nodes.{splits_of, IsTree};
ghost use Rattle.gap_cert.specs.Certificates.{CertSection};
ghost use Rattle.gap_valid.specs.CertTrees.{cert_splits, shown_bound};
ghost use Rattle.gap_solved.specs.Solveds.{SolvedValue, IsSectionOf};
ghost use Rattle.gap_solve.specs.Ended.{root_of, HasEnded, IsValidWhere};

/// The section of a certificate that says what is known of a weight has as many splits as the tree.
pub fn splits_are_counted()
    ensures { (n : ℕ) (solved : SolvedValue) (section : CertSection) → IsTree solved.nodes
        → IsSectionOf n solved section → cert_splits section.tree ≡ splits_of solved.nodes }
{}

/// Where the search of a weight has ended, its section is valid under each head that has the instance, the numbers D and
/// the budget of the search, and the bound of an open outcome is just what the section shows.
pub fn ended_searches_are_valid()
    ensures valid { (s : Setting) (nodes : ℕ) (solved : SolvedValue) (section : CertSection) → HasEnded s nodes solved
        → IsSectionOf s.instance.market.assets solved section → IsValidWhere s.instance s.shift nodes section }
    ensures shown { (s : Setting) (nodes : ℕ) (solved : SolvedValue) (section : CertSection) (best : Option Best)
        (bound : ℤ) → HasEnded s nodes solved → IsSectionOf s.instance.market.assets solved section
        → solved.outcome ≡ Bounded best bound → shown_bound s (root_of s) solved.overall section.tree ≡ AtLeast bound }
{}
