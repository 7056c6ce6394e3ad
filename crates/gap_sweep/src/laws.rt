//! What follows of a sweep, as contracts. Nothing is computed here.
ghost use Rattle.std.specs.Prelude.{◌≡◌, ℕ, ◌*◌, ◌<◌, ◌≤◌, ◌≤ℤ◌, ◌⊎◌, ◌↔◌, List, length, Ok, Err, Option, None, IsTrue};
ghost use Rattle.std.specs.List.{All};
ghost use Rattle.std.specs.Option.{ForSome};
ghost use Rattle.gap_base.specs.declared.weight.Weight.{Weight};
ghost use Rattle.gap_cert.specs.declared.field.Version.TheVariants.{Two};
ghost use Rattle.gap_cert.specs.Certificates.{Encodes, spelling};
ghost use Rattle.gap_files.specs.Outside.{FilesNow, SinkNow};
ghost use Rattle.gap_instance.specs.Instances.{InstanceValue};
ghost use Rattle.gap_instance.specs.Objective.{risk_of, return_of};
ghost use Rattle.gap_model.specs.declared.front.FrontRow.{FrontRow};
ghost use Rattle.gap_model.specs.declared.outcome.Best.{Best};
ghost use Rattle.gap_model.specs.declared.outcome.Outcome.TheVariants.{Closed};
ghost use Rattle.gap_model.specs.Fronts.{Dominates};
ghost use Rattle.gap_model.specs.Outcomes.{IsRight};
ghost use Rattle.gap_psd.specs.Shifts.{ShiftValue};
ghost use Rattle.gap_files.specs.declared.halt.Halt.{Halt};
ghost use Rattle.gap_files.specs.Marks.{stream};
ghost use Rattle.gap_files.specs.Steps.{IsUnstarted};
ghost use Rattle.gap_valid.specs.Valid.{IsValid};
ghost use Rattle.gap_sweep.specs.Asked.{Asked, Done};
ghost use Rattle.gap_sweep.specs.Certified.{IsAsked, sections_of, certificate, IsCertified, IsCut};
ghost use Rattle.gap_sweep.specs.Runs.{HasDone, Runs};
ghost use Rattle.gap_sweep.specs.Texts.{is_efficient};

/// A sweep that did all leaves in its file, where contents are told, the encoding in version 2 of the certificate whose
/// sections are those of the weights; and this certificate is valid.
pub fn sweeps_certify()
    ensures bytes { (asked : Asked) (name : List ℕ) (f : FilesNow) (s : SinkNow) (g : FilesNow) (t : SinkNow)
        → Runs asked name f s g t (Ok tt) → ForSome (stream name f) (λ was. IsCertified asked (stream name g)) }
    ensures valid { (asked : Asked) (shift : ShiftValue) (done : List Done) → IsAsked asked → HasDone asked shift done
        → length done ≡ length asked.weights → IsValid (certificate asked shift (sections_of done)) }
    ensures encoded { (asked : Asked) (shift : ShiftValue) (done : List Done) → IsAsked asked → HasDone asked shift done
        → length done ≡ length asked.weights
        → Encodes Two (spelling Two (certificate asked shift (sections_of done)))
        (certificate asked shift (sections_of done)) }
{}

/// A sweep that stopped leaves in its file, where contents are told, what was there or nothing, or a proper front of each
/// certificate whose first sections are those of the weights that were done.
pub fn stops_leave_fronts()
    ensures { (asked : Asked) (name : List ℕ) (f : FilesNow) (s : SinkNow) (g : FilesNow) (t : SinkNow) (halt : Halt)
        → Runs asked name f s g t (Err halt)
        → ForSome (stream name f) (λ was. IsUnstarted name f s g t ⊎ IsCut asked (stream name g)) }
{}

/// A row is ranked as efficient exactly where none of the rows dominates it.
pub fn rows_are_ranked()
    ensures { (rows : List FrontRow) (row : FrontRow)
        → IsTrue (is_efficient rows row) ↔ All (λ other. ¬ (Dominates other row)) rows }
{}

/// Over two closed weights p/q and u/v of which the second gives more weight to risk, its portfolio has neither more
/// risk nor
/// more return.
pub fn frontier_is_monotone()
    ensures { (I : InstanceValue) (p q u v : ℕ) (first second : Best) → 1 ≤ I.lots → p ≤ q → u ≤ v → p * v < u * q
        → IsRight I p q (Closed first) → IsRight I u v (Closed second)
        → (risk_of I.market second.lots ≤ℤ risk_of I.market first.lots)
        × (return_of I.market second.lots ≤ℤ return_of I.market first.lots) }
{}
