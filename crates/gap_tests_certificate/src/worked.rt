//! The worked certificate of two assets is valid by the definitions, and has its bytes.

ghost use Rattle.std.specs.Prelude.{◌≡◌, IsTrue};
ghost use Rattle.gap_cert.specs.declared.field.Version.TheVariants.{One};
ghost use Rattle.gap_cert.specs.Certificates.{spelling};
ghost use Rattle.gap_valid.specs.Valid.{IsValid};
ghost use Rattle.gap_valid.specs.Worked.{worked, worked_bytes};

/// By a computation of the definitions alone: its theta is the least over all hundred lists of the root.
pub fn is_worked_out() -> bool
    ensures yes { IsTrue result }
    ensures valid { IsValid worked }
    ensures bytes { spelling One worked ≡ worked_bytes }
{
    true
}
