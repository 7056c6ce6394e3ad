//! What holds of every weight that was solved. Nothing is computed here.

ghost use Rattle.std.specs.Prelude.{◌≡◌, ℕ};
ghost use Rattle.gap_model.specs.Nodes.{IsTree};
ghost use Rattle.gap_cert.specs.Certificates.{CertSection};
ghost use Rattle.gap_solved.specs.Solveds.{SolvedValue, IsSectionOf};

/// Over any number of assets there is exactly one section of a certificate that says what is known of a weight.
pub fn one_section()
    ensures exists { (n : ℕ) (solved : SolvedValue) → IsTree solved.nodes → (s : CertSection) × IsSectionOf n solved s }
    ensures unique { (n : ℕ) (solved : SolvedValue) (s t : CertSection) → IsSectionOf n solved s
        → IsSectionOf n solved t → s ≡ t }
{}
