//! The items of a certificate, judged one behind another.

ghost use Rattle.std.specs.Prelude.{◌≡◌, ℕ, ◌+◌, ◌<◌, ◌≤◌, ◌^◌, ◌++◌, List, length, OnOk, IfOk, IsTrue};
ghost use Rattle.gap_check.specs.Histories.{HasJudged};
ghost use Rattle.gap_check.specs.Going.{IsOn, IsGoing, Steps, Reads};

use gap_judge::{CertStop, Judge};
use gap_scan::Scanner;

/// The most bytes that a scanner takes.
const MOST_BYTES: u64 = 1 << 62;

/// Judges the next item, where the bytes so far have one.
fn judge_next(scanner: &mut Scanner, judge: &mut Judge) -> Result<bool, CertStop>
    requires { IsOn scanner.old judge.old }
    ensures on { OnOk result (IsOn scanner.new judge.new) }
    ensures whole { OnOk result (scanner.new.place + length scanner.new.rest ≡ scanner.old.place + length scanner.old.rest) }
    ensures fewer { IfOk result (λ took. IsTrue took → length scanner.new.rest < length scanner.old.rest) }
    ensures steps { (seen : List ℕ) → HasJudged seen scanner.old judge.old → Steps result seen scanner.new judge.new }
{
    match scanner.next() {
        Err(fault) => Err(CertStop::Fault(fault)),
        Ok(None) => Ok(false),
        Ok(Some(item)) => {
            judge.take(&item.field, item.place, scanner.place())?;
            Ok(true)
        }
    }
}

/// Judges all items of the bytes so far.
fn judge_all(scanner: &mut Scanner, judge: &mut Judge) -> Result<(), CertStop>
    requires { IsOn scanner.old judge.old }
    ensures on { OnOk result (IsOn scanner.new judge.new) }
    ensures whole { OnOk result (scanner.new.place + length scanner.new.rest ≡ scanner.old.place + length scanner.old.rest) }
    ensures reads { (seen : List ℕ) → HasJudged seen scanner.old judge.old → Reads result seen scanner.new judge.new }
{
    while judge_next(scanner, judge)? {}
    Ok(())
}

/// Reads a piece, and judges the items that it ends.
pub(crate) fn read_piece(
    scanner: &mut Scanner,
    judge: &mut Judge,
    fed: &mut u64,
    piece: &[u8],
) -> Result<(), CertStop>
    requires { IsGoing scanner.old judge.old fed.old }
    ensures going { OnOk result (IsGoing scanner.new judge.new fed.new) }
    ensures reads { (seen : List ℕ) → HasJudged seen scanner.old judge.old
        → Reads result (seen ++ piece.now) scanner.new judge.new }
{
    let size = piece.len() as u64;
    if MOST_BYTES - *fed < size {
        return Err(CertStop::OutOfMemory);
    }
    scanner.feed(piece)?;
    *fed += size;
    judge_all(scanner, judge)
}
