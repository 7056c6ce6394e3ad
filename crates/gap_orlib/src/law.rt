//! The law that the reader's definition says what the words of the file do.

ghost use Rattle.std.specs.Prelude.{◌≡◌, ◌↔◌, ℕ, List, Ok, Err};
ghost use Rattle.gap_base.specs.Markets.{MarketValue};
ghost use Rattle.gap_orlib.specs.declared.fault.PortFault.{PortFault};
ghost use Rattle.gap_orlib.specs.declared.fault.PortKind.{PortKind};
ghost use Rattle.gap_orlib.specs.Tokens.{Token};
ghost use Rattle.gap_orlib.specs.Ports.{port};
ghost use Rattle.gap_orlib.specs.Fields.{IsMarketOf, HaveSameValues};
ghost use Rattle.gap_orlib.specs.Faults.{IsFaultOf, IsAtFault};

/// The law of port files, whose tokens are judged one after another: the bytes are read as a market exactly where they
/// are a file of one, and then with its values; a fault is found exactly where it is the first in the words of the file,
/// and bytes have one first fault alone; no token has two kinds of fault.
pub fn ports_are_read_as_said()
    ensures market { (bytes : List ℕ) (m : MarketValue) → port bytes ≡ Ok m → IsMarketOf bytes m }
    ensures read { (bytes : List ℕ) (m : MarketValue) → IsMarketOf bytes m
        → (k : MarketValue) × (port bytes ≡ Ok k) × HaveSameValues k m }
    ensures fault { (bytes : List ℕ) (f : PortFault) → (port bytes ≡ Err f) ↔ IsFaultOf bytes f }
    ensures one_fault { (bytes : List ℕ) (f g : PortFault) → IsFaultOf bytes f → IsFaultOf bytes g → f ≡ g }
    ensures one_kind { (ts : List Token) (k : ℕ) (a b : PortKind) → IsAtFault ts k a → IsAtFault ts k b → a ≡ b }
{}
