//! The weights one after the other.
ghost use Rattle.std.specs.Prelude.{◌≡◌, ◌≤◌, ℕ, List, []};
ghost use Rattle.std.specs.Option.{ForSome};
ghost use Rattle.gap_cert.specs.Certificates.{CertSection};
ghost use Rattle.gap_files.specs.Outside.{FilesNow};
ghost use Rattle.gap_instance.specs.Limits.{MeetsLimits};
ghost use Rattle.gap_instance.specs.Objective.{cov_of};
ghost use Rattle.gap_psd.specs.Shifts.{IsDominantShift};
ghost use Rattle.gap_valid.specs.Valid.{IsWeight};
ghost use Rattle.gap_solve.specs.Ends.{best_in};
ghost use Rattle.gap_solved.specs.Solveds.{IsSectionOf};
ghost use Rattle.gap_files.specs.Marks.{prints};
ghost use Rattle.gap_files.specs.Steps.{Step};
ghost use Rattle.gap_sweep.specs.Asked.{AreWeights};
ghost use Rattle.gap_sweep.specs.Steps.{Tries, Sweeps, IsCarried};
ghost use Rattle.gap_sweep.specs.Texts.{weight_text, portfolio_text};
ghost use Rattle.gap_sweep.specs.Traces.{weight_trace};

use crate::carried::Carried;
use crate::found::found;
use bumpalo::Bump;
use gap_base::{Weight, Weights};
use gap_files::{Files, Halt, Sink, print};
use gap_instance::Instance;
use gap_model::Outcome;
use gap_psd::Shift;
use gap_report::{lots_line, weight_line};
use gap_solve::solve_one;
use gap_solved::Solved;
use gap_writer::write_section;
use std::alloc::Global;

/// Writes the line of a weight.
fn print_weight<S: Sink>(
    alloc: Global,
    lots: u16,
    solved: &Solved<'_>,
    out: &mut S,
) -> Result<(), Halt>
    ensures { (name : List ℕ) (files : FilesNow) → Step name files (S.sink out.old) files (S.sink out.new)
        (prints (weight_text lots solved.now)) result }
{
    let mut line = Vec::new(alloc);
    weight_line(&mut line, lots, &solved.line(), solved.inner())?;
    print(out, &line)
}

/// Writes the line of the lots where there is a portfolio.
fn print_portfolio<S: Sink>(alloc: Global, outcome: &Outcome, out: &mut S) -> Result<(), Halt>
    ensures { (name : List ℕ) (files : FilesNow) → Step name files (S.sink out.old) files (S.sink out.new)
        (prints (portfolio_text (best_in outcome.now))) result }
{
    match found(outcome) {
        Some(best) => {
            let mut line = Vec::new(alloc);
            lots_line(&mut line, &best.lots)?;
            print(out, &line)
        }
        None => Ok(()),
    }
}

/// Puts out a weight that was solved: its section, its line and the line of its lots.
fn put_out<F: Files, S: Sink>(
    alloc: Global,
    inst: &Instance,
    solved: &Solved<'_>,
    files: &mut F,
    name: &str,
    out: &mut S,
) -> Result<(), Halt>
    ensures { (section : CertSection) → IsSectionOf inst.now.market.assets solved.now section
        → Step name.now (F.files files.old) (S.sink out.old) (F.files files.new) (S.sink out.new)
        (weight_trace inst.now.lots (record { solved = solved.now; section = section })) result }
{
    write_section(alloc, files, name, inst, solved)?;
    print_weight(alloc, inst.lots(), solved, out)?;
    print_portfolio(alloc, solved.outcome(), out)
}

/// Solves a weight from the portfolio of the weight before, in an arena of its own, and puts it out.
fn try_weight<F: Files, S: Sink>(
    alloc: Global,
    inst: &Instance,
    shift: &Shift,
    weight: Weight,
    number: u8,
    nodes: u32,
    workers: u8,
    carried: &mut Carried,
    files: &mut F,
    name: &str,
    out: &mut S,
) -> Result<(), Halt>
    requires same { inst.now.market.assets ≡ shift.now.assets }
    requires dominant { IsDominantShift (cov_of inst.now.market) shift.now }
    requires weight { IsWeight weight }
    requires nodes { nodes ≤ 100000 }
    requires least_workers { 1 ≤ workers }
    requires most_workers { workers ≤ 16 }
    requires warm { ForSome carried.old.warm (MeetsLimits inst.now) }
    ensures { Tries inst.now shift.now nodes weight number carried.old carried.new
        name.now (F.files files.old) (S.sink out.old) (F.files files.new) (S.sink out.new) result }
{
    let arena = Bump::new(alloc);
    let warm = carried.warm.as_ref();
    let solved = solve_one(alloc, inst, shift, weight, nodes, workers, warm, &arena)?;
    put_out(alloc, inst, &solved, files, name, out)?;
    carried.go_behind(number, inst, solved.weight(), found(solved.outcome()))?;
    Ok(())
}

/// Solves the weights in their order, each from the portfolio of the one before where that has one, and puts out each
/// before the next is begun.
pub(crate) fn try_weights<F: Files, S: Sink>(
    alloc: Global,
    inst: &Instance,
    shift: &Shift,
    weights: &Weights,
    nodes: u32,
    workers: u8,
    carried: &mut Carried,
    files: &mut F,
    name: &str,
    out: &mut S,
) -> Result<(), Halt>
    requires same { inst.now.market.assets ≡ shift.now.assets }
    requires dominant { IsDominantShift (cov_of inst.now.market) shift.now }
    requires weights { AreWeights weights.now }
    requires nodes { nodes ≤ 100000 }
    requires least_workers { 1 ≤ workers }
    requires most_workers { workers ≤ 16 }
    requires blank { IsCarried inst.now carried.old [] }
    ensures { Sweeps inst.now shift.now nodes weights.now carried.new
        name.now (F.files files.old) (S.sink out.old) (F.files files.new) (S.sink out.new) result }
{
    for k in 0..weights.len() {
        let weight = weights.get(k);
        try_weight(
            alloc,
            inst,
            shift,
            weight,
            k + 1,
            nodes,
            workers,
            carried,
            files,
            name,
            out,
        )?;
    }
    Ok(())
}
