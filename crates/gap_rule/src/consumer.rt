//! What takes in the bytes of a file.
ghost use Rattle.std.specs.Prelude.{◌≡◌, ℕ, ◌≤◌, ◌++◌, List, [], length, Result, Err, IsOk, IfErr};
ghost use Rattle.gap_rule.specs.Reading.{StopCause, Says};

/// Why the reading of a file ended before its end.
#[derive(Clone, Copy, PartialEq, Eq, Debug)]
pub(crate) enum ReadStop<Fault> {
    /// The file couldn't be read.
    ReadFault,
    /// Its bytes are at fault.
    Refused(Fault),
    /// Memory was refused.
    OutOfMemory,
}

/// What takes in the bytes of a file piece by piece, up to their first fault.
pub(crate) trait Consumer: Drop {
    /// What is made of the bytes.
    type Made: Drop;
    /// What may be wrong with them.
    type Fault;

    /// The most bytes that are taken in without a fault.
    ghost MOST: { ℕ };

    const MOST: u64;

    /// It has taken in these bytes.
    ghost has_read: { Self → List ℕ → Type 0 };

    /// What bytes are, or their first fault.
    ghost said: { List ℕ → Result Self.Made Self.Fault → Type 0 };

    /// Takes in the next bytes, or answers the first fault that they decide.
    fn feed(&mut self, piece: &[u8]) -> Result<(), ReadStop<Self::Fault>>
        ensures read { IsOk result → (fed : List ℕ) → has_read self.old fed → has_read self.new (fed ++ piece.now) }
        ensures within { IsOk result → (fed : List ℕ) → has_read self.old fed → length (fed ++ piece.now) ≤ MOST }
        ensures refused { (fault : _) → result ≡ Err (ReadStop.Refused fault) → (fed rest : List ℕ) → has_read self.old fed
            → said ((fed ++ piece.now) ++ rest) (Err fault) }
        ensures stop { IfErr result (StopCause ⊥) };

    /// What all the bytes are.
    fn finish(self) -> Result<Self::Made, ReadStop<Self::Fault>>
        ensures told { (fed : List ℕ) → has_read self fed → Says (said fed) result }
        ensures stop { IfErr result (StopCause ⊥) };
}
