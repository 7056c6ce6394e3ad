//! What follows of an upgrade, as contracts. Nothing is computed here.
ghost use Rattle.std.specs.Prelude.{◌≢◌, ℕ, ◌⊎◌, List, Ok, Err};
ghost use Rattle.std.specs.Option.{ForSome};
ghost use Rattle.gap_check.specs.Accepting.{Accepted};
ghost use Rattle.gap_files.specs.Outside.{FilesNow, SinkNow};
ghost use Rattle.gap_files.specs.Marks.{stream};
ghost use Rattle.gap_files.specs.Steps.{IsUnstarted};
ghost use Rattle.gap_upgrade.specs.declared.stop.Stop.{Stop};
ghost use Rattle.gap_upgrade.specs.Copies.{IfTold};
ghost use Rattle.gap_upgrade.specs.Upgrading.{Upgrades, HoldsUpgrade, HoldsFront};
ghost use Rattle.gap_valid.specs.Verdicts.{VerdictValue};

/// An upgrade that did all leaves in the new file, where contents are told, the encoding in version 2 of the certificate that
/// the bytes of the other encode.
pub fn upgrades_encode()
    ensures { (cert new : List ℕ) (f : FilesNow) (s : SinkNow) (g : FilesNow) (t : SinkNow)
        → Upgrades cert new f s g t (Ok tt) → cert ≢ new
        → ForSome (stream new f) (λ was. IfTold f cert (λ held. (v : VerdictValue) (a : Accepted held v)
        → HoldsUpgrade a.certificate (stream new g))) }
{}

/// An upgrade that stopped leaves in the new file, where contents are told and the bytes of the other encode a certificate,
/// what was there or nothing, or a proper front of the certificate's encoding in version 2.
pub fn upgrades_stop_in_fronts()
    ensures { (cert new : List ℕ) (f : FilesNow) (s : SinkNow) (g : FilesNow) (t : SinkNow) (stop : Stop)
        → Upgrades cert new f s g t (Err stop) → cert ≢ new
        → ForSome (stream new f) (λ was. IfTold f cert (λ held. (v : VerdictValue) (a : Accepted held v)
        → IsUnstarted new f s g t ⊎ HoldsFront a.certificate (stream new g))) }
{}
