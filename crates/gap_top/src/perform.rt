//! The work of a task: a certificate goes into its file, and the lines to the sink; or what a certificate tells is printed.
ghost use Rattle.std.specs.Prelude.{◌≡◌};
ghost use Rattle.gap_rule.specs.Steps.{IsReady, CanBeDone};
ghost use Rattle.gap_top.specs.Working.{asked_for, ended_by, Sweeps, Renews, Does};

use crate::print::end_by;
use crate::stop::Stop;
use crate::tell::tell;
use gap_files::{Files, Halt, Sink};
use gap_rule::{Halt as Ruled, Task, Work};
use gap_sweep::{Style, solve_all};
use gap_upgrade::{Stop as UpgradeStop, upgrade};
use gap_words::Refusal;
use std::alloc::Global;

/// What a run ends with, by what its sweep ended with.
fn ended(swept: Result<(), Halt>) -> Result<(), Stop>
    ensures { result ≡ ended_by swept }
{
    match swept {
        Ok(()) => Ok(()),
        Err(Halt::WriteFault) => Err(Stop::WriteFault),
        Err(Halt::OutOfMemory) => Err(Stop::OutOfMemory),
    }
}

/// Solves the weights of some work, over the named file and the sink.
fn sweep<F: Files, S: Sink>(
    alloc: Global,
    work: &Work,
    style: Style,
    name: &str,
    files: &mut F,
    out: &mut S,
) -> Result<(), Stop>
    requires { IsReady work.now }
    ensures { Sweeps (asked_for style work.now) name.now (F.files files.old) (S.sink out.old) (F.files files.new)
        (S.sink out.new) result }
{
    ended(solve_all(
        alloc,
        &work.inst,
        work.rounded,
        &work.weights,
        work.nodes,
        work.workers,
        style,
        files,
        name,
        out,
    ))
}

/// Writes the certificate of the file `source` in version 2 to the named file. A refusal, which comes where its bytes
/// changed since they were ruled, writes its line.
fn renew<F: Files, S: Sink>(
    alloc: Global,
    source: &str,
    name: &str,
    files: &mut F,
    out: &mut S,
) -> Result<(), Stop>
    ensures { Renews source.now name.now (F.files files.old) (S.sink out.old) (F.files files.new) (S.sink out.new) result }
{
    match upgrade(alloc, source, name, files, out) {
        Ok(()) => Ok(()),
        Err(UpgradeStop::Refused(fault)) => {
            let refusal = Refusal::Certificate(fault);
            Err(end_by(alloc, Ruled::Refused(refusal), out))
        }
        Err(UpgradeStop::ReadFault) => Err(Stop::ReadFault),
        Err(UpgradeStop::WriteFault) => Err(Stop::WriteFault),
        Err(UpgradeStop::OutOfMemory) => Err(Stop::OutOfMemory),
    }
}

/// Does what is to be done: the certificate goes into the named file; that of `upgrade` is read again from the file
/// `source`.
pub(crate) fn perform<F: Files, S: Sink>(
    alloc: Global,
    task: &Task,
    source: &str,
    name: &str,
    files: &mut F,
    out: &mut S,
) -> Result<(), Stop>
    requires { CanBeDone task.now }
    ensures { Does task.now source.now name.now (F.files files.old) (S.sink out.old) (F.files files.new) (S.sink out.new) result }
{
    match task {
        Task::Quick(work) => sweep(alloc, work, Style::Single, name, files, out),
        Task::Solve(work) | Task::Demo(work) => {
            sweep(alloc, work, Style::Whole, name, files, out)
        }
        Task::Check(verdict) => tell(alloc, verdict, out),
        Task::Verify(verdict) => tell(alloc, verdict, out),
        Task::Upgrade(_) => renew(alloc, source, name, files, out),
    }
}
