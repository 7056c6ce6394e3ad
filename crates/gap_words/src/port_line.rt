//! The line of a port file that is refused.
ghost use Rattle.std.specs.Prelude.{◌≡◌, IfOk};
ghost use Rattle.std.specs.String.{string_bytes};
ghost use Rattle.gap_words.specs.Lines.{port_text, kind_word, kind_pair, port_line};

use gap_base::OutOfMemory;
use gap_orlib::{PortFault, PortKind};
use std::alloc::Global;

/// The line of a fault of this kind at this place, with the numbers from 1 of the two assets of a pair where it names
/// one.
#[tactic(auto, unfolding(crate::specs::Lines::port_text))]
fn port_text(
    alloc: Global,
    kind: &str,
    place: u64,
    pair: Option<(u16, u16)>,
) -> Result<String, OutOfMemory>
    ensures { IfOk result (λ line. string_bytes line ≡ port_text kind.now place pair) }
{
    match pair {
        Some((first, second)) => Ok(format!(in alloc; "port {kind} {place} {first} {second}\n")?),
        None => Ok(format!(in alloc; "port {kind} {place}\n")?),
    }
}

/// The word of a kind of fault.
fn kind_word(kind: PortKind) -> &'static str
    ensures { result.now ≡ kind_word kind }
{
    match kind {
        PortKind::Count => "Count",
        PortKind::Numeral => "Numeral",
        PortKind::Range => "Range",
        PortKind::Deviation => "Deviation",
        PortKind::Index => "Index",
        PortKind::Diagonal => "Diagonal",
        PortKind::Conflict { .. } => "Conflict",
        PortKind::Short => "Short",
        PortKind::Missing { .. } => "Missing",
        PortKind::TooLong => "TooLong",
    }
}

/// The numbers of the two assets that a kind of fault names, if it names some.
fn kind_pair(kind: PortKind) -> Option<(u16, u16)>
    ensures { result ≡ kind_pair kind }
{
    match kind {
        PortKind::Conflict { i, j } => Some((i, j)),
        PortKind::Missing { i, j } => Some((i, j)),
        _ => None,
    }
}

/// The line of a port file with this fault.
pub(crate) fn port_line(alloc: Global, fault: PortFault) -> Result<String, OutOfMemory>
    ensures { IfOk result (λ line. string_bytes line ≡ port_line fault) }
{
    port_text(
        alloc,
        kind_word(fault.kind),
        fault.place,
        kind_pair(fault.kind),
    )
}
