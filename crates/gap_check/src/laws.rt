//! The laws of faults, as contracts. Nothing is computed here.

ghost use Rattle.std.specs.Prelude.{◌≡◌, ℕ, List, ◌++◌};
ghost use Rattle.gap_model.specs.declared.cert_fault.CertFault.{CertFault};
ghost use Rattle.gap_cert.specs.Bytes.{AreBytes};
ghost use Rattle.gap_valid.specs.Verdicts.{VerdictValue};
ghost use Rattle.gap_check.specs.Accepting.{Accepted};
ghost use Rattle.gap_check.specs.Histories.{IsFaultIn, IsFaultOf};

/// Bytes come to one thing. They have one fault, of one kind, at one place and with the same numbers; bytes that have one
/// are accepted with no verdict, and bytes that are accepted have one verdict. A fault that bytes decide stays whatever
/// bytes come behind.
pub fn faults_are_alone()
    ensures one { (fed : List ℕ) (f g : CertFault) → IsFaultOf fed f → IsFaultOf fed g → f ≡ g }
    ensures no_verdict { (fed : List ℕ) (f : CertFault) (v : VerdictValue) → IsFaultOf fed f → Accepted fed v → ⊥ }
    ensures verdict { (fed : List ℕ) (v w : VerdictValue) → Accepted fed v → Accepted fed w → v ≡ w }
    ensures stays { (fed more : List ℕ) (f : CertFault) → AreBytes more → IsFaultIn fed f → IsFaultIn (fed ++ more) f }
{}
