//! The report of a certificate that was accepted.

ghost use Rattle.std.specs.Prelude.{◌≡◌, ◌++◌, OnOk, IfOk};
ghost use Rattle.gap_check.specs.Telling.{verdict_lines, verdict_report};

use gap_base::OutOfMemory;
use gap_judge::Verdict;
use gap_model::Told;
use gap_report::verdict_line;
use std::alloc::Global;

/// Appends the lines of what is told of weights, for a budget of `lots` lots.
#[tactic(auto, unfolding(crate::specs::Telling::verdict_lines))]
fn verdict_lines(text: &mut Vec<u8>, lots: u16, sections: &[Told]) -> Result<(), OutOfMemory>
    ensures { OnOk result (text.new.items ≡ text.old.items ++ verdict_lines lots sections.now) }
{
    for told in sections {
        verdict_line(text, lots, told)?;
    }
    Ok(())
}

/// The report of a verdict: the line of each weight in order, and then `yes`.
pub fn verdict_report(alloc: Global, verdict: &Verdict) -> Result<Vec<u8>, OutOfMemory>
    ensures { IfOk result (λ text. text.items ≡ verdict_report verdict.now) }
{
    let mut text = Vec::new(alloc);
    verdict_lines(&mut text, verdict.instance().lots(), verdict.sections())?;
    text.extend_from_slice(b"yes\n".as_slice())?;
    Ok(text)
}
