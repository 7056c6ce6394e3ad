//! Whole sections.

ghost use Rattle.std.specs.Prelude.{◌≡◌};
ghost use Rattle.gap_files.specs.Outside.{SinkNow};
ghost use Rattle.gap_writer.specs.Filled.{FillsSection};

use crate::pieces::append_some;
use crate::tree::write_tree;
use crate::writer::Writer;
use gap_base::Witness;
use gap_files::{Files, Halt};
use gap_instance::Instance;
use gap_model::SectionHead;
use gap_solved::Solved;
use std::alloc::Global;

/// How many bytes a piece has.
const PIECE: usize = 65_536;

/// What the section of a weight says before its tree.
fn head_of(solved: &Solved<'_>) -> SectionHead
    ensures { result ≡ record { weight = solved.now.weight; outcome = solved.now.outcome; overall = solved.now.overall } }
{
    SectionHead {
        weight: solved.weight(),
        outcome: solved.outcome().copy(),
        overall: overall_of(solved),
    }
}

/// The witness for the whole root, where there is one.
fn overall_of(solved: &Solved<'_>) -> Option<Witness>
    ensures { result ≡ solved.now.overall }
{
    match solved.overall() {
        Some(w) => Some(w.copy()),
        None => None,
    }
}

/// Appends the section of a weight over the instance to the named file, in version 2: what it says of the weight, and its
/// tree from the root on, each split's first side before its second, in pieces of 65536 bytes and a last one of 1 to 65536.
/// It keeps at most that many bytes and one item, and the numbers of nodes that are still to be written, one or two a level.
///
/// # Errors
/// `WriteFault` only where the file's count of write faults rose, and `OutOfMemory`: a front of the section was appended,
/// but not all of it.
pub fn write_section<F: Files>(
    alloc: Global,
    files: &mut F,
    name: &str,
    inst: &Instance,
    solved: &Solved<'_>,
) -> Result<(), Halt>
    ensures { (sink : SinkNow)
        → FillsSection name.now (F.files files.old) (F.files files.new) sink inst.now.market.assets solved.now result }
{
    let mut writer = Writer::new(alloc);
    writer.section(&head_of(solved))?;
    write_tree(alloc, files, name, inst, solved.tree(), &mut writer, PIECE)?;
    append_some(files, name, writer.bytes())
}
