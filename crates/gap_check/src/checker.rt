//! The checker of certificates, in pieces of any size.

ghost use Rattle.std.specs.Prelude.{◌≡◌, ◌⊎◌, ℕ, List, [], ◌++◌, All, Err, Ok, IfOk};
ghost use Rattle.gap_model.specs.declared.cert_fault.CertFault.{CertFault};
ghost use Rattle.gap_model.specs.Outcomes.{IsToldRight};
ghost use Rattle.gap_valid.specs.Verdicts.{VerdictValue};
ghost use Rattle.gap_check.specs.Histories.{IsFaultIn, IsFaultOf};
ghost use Rattle.gap_check.specs.States.{HasRead, IsStopped, answer_of, no_memory};
ghost use Rattle.gap_check.specs.Accepting.{Accepted};

use crate::reading::read_piece;
use gap_judge::{CertStop, Judge, Verdict};
use gap_model::{CertFault, CertKind};
use gap_scan::Scanner;
use std::alloc::Global;
use std::marker::Model;

/// Checks a certificate of either version, fed in pieces of any size. It keeps the head, what is told of the sections, one
/// section's head, one witness with its products, and of the present tree one cell a level: nothing that grows with the
/// nodes but the depth. It holds a piece while it reads it. It says that memory was refused where more than 2^62 bytes are
/// fed.
///
/// Contracts see where it stands as a `State`: it reads on, or has the first fault, or was refused memory.
#[derive(Drop)]
pub struct Checker {
    scanner: Scanner,
    judge: Judge,
    fed: u64,
    stop: Option<CertStop>,
}

impl Model for Checker {
    ghost use Rattle.gap_check.specs.States.{State};
    ghost use Rattle.gap_check.specs.Going.{standing, FitsChecker};

    ghost Value = { State };

    ghost view = { λ a. standing a.scanner a.judge a.stop };

    ghost invariant = { λ a. FitsChecker a.scanner a.judge a.fed a.stop };
}

impl Checker {
    /// A checker that was fed nothing. It takes no memory.
    pub fn new(alloc: Global) -> Checker
        ensures { HasRead result [] }
    {
        Checker {
            scanner: Scanner::new(alloc),
            judge: Judge::new(alloc),
            fed: 0,
            stop: None,
        }
    }

    /// Reads the next piece: whatever the pieces, the answer is that of the bytes fed.
    ///
    /// # Errors
    /// `Fault` with the first fault that the bytes so far decide, so that Ok means that they decide none; `OutOfMemory`
    /// where memory was refused. After either, every call answers the same again.
    pub fn feed(&mut self, piece: &[u8]) -> Result<(), CertStop>
        ensures read { (fed : List ℕ) → HasRead self.old fed → HasRead self.new (fed ++ piece.now) }
        ensures answer { result ≡ answer_of self.new }
        ensures stuck { IsStopped self.old → self.new ≡ self.old }
        ensures first { (fed : List ℕ) (f : CertFault) → HasRead self.old fed → IsFaultIn (fed ++ piece.now) f
            → (result ≡ Err (CertStop.Fault f)) ⊎ (result ≡ Err CertStop.OutOfMemory) }
    {
        if let Some(stop) = self.stop {
            return Err(stop);
        }
        let answer = read_piece(&mut self.scanner, &mut self.judge, &mut self.fed, piece);
        if let Err(stop) = answer {
            self.stop = Some(stop);
        }
        answer
    }

    /// What all bytes fed tell, exactly where they encode a valid certificate. Then no list that meets the limits of its
    /// instance has an objective below that of a closed section or below the bound of an open one, there is none where a
    /// section says so, and each portfolio meets the limits and has its objective. It takes no memory.
    ///
    /// # Errors
    /// `Fault` with the first fault of the bytes, `Short` where they end inside a certificate; `OutOfMemory` only where a
    /// feed answered it. What a feed answered is answered again.
    pub fn finish(self) -> Result<Verdict, CertStop>
        ensures yes { (fed : List ℕ) → HasRead self fed → IfOk result (Accepted fed) }
        ensures all { (fed : List ℕ) (v : VerdictValue) → HasRead self fed → Accepted fed v
            → (result ≡ Ok v) ⊎ (result ≡ Err CertStop.OutOfMemory) }
        ensures bound { (fed : List ℕ) → HasRead self fed → IfOk result (λ v. All (IsToldRight v.instance) v.sections) }
        ensures faults { (fed : List ℕ) (f : CertFault) → HasRead self fed → result ≡ Err (CertStop.Fault f)
            → IsFaultOf fed f }
        ensures first { (fed : List ℕ) (f : CertFault) → HasRead self fed → IsFaultOf fed f
            → (result ≡ Err (CertStop.Fault f)) ⊎ (result ≡ Err CertStop.OutOfMemory) }
        ensures again { (stop : CertStop) → answer_of self ≡ Err stop → result ≡ Err stop }
        ensures memory { result ≡ Err CertStop.OutOfMemory → self ≡ no_memory }
    {
        let Checker {
            judge,
            fed,
            stop,
            ..
        } = self;
        if let Some(stop) = stop {
            return Err(stop);
        }
        if !judge.is_ended() {
            return Err(CertStop::Fault(CertFault {
                place: fed,
                kind: CertKind::Short,
            }));
        }
        Ok(judge.into_verdict())
    }
}
