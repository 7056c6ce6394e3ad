//! The commands of portgap, over any files and any sink: the public call `run`.
#![tactic(auto)]

ghost use Rattle.std.specs.Prelude.{◌≡◌, map};
ghost use Rattle.std.specs.String.{string_bytes};
ghost use Rattle.gap_words.specs.Forms.{form, form_value, IsFormInRange};
ghost use Rattle.gap_top.specs.Answers.{Answers};
ghost use Rattle.gap_top.specs.Statuses.{status_number};
ghost use Rattle.gap_top.specs.Working.{cert_in, source_in};

mod laws;
mod perform;
mod print;
mod stop;
mod tell;

pub use crate::laws::{
    answers_are_complete, answers_are_right, headline_holds, upgrades_are_right,
    verdicts_are_right, verdicts_hold,
};
use crate::perform::perform;
use crate::print::end_by;
use crate::stop::{Stop, status_of};
use gap_files::{Files, Sink};
use gap_rule::rule;
use gap_words::{Form, form_of};
use std::alloc::Global;

/// Runs the command that the words after the program's name ask for, over these files and this sink, and answers the
/// exit status.
///
/// | Status | Means | Comes |
/// |---|---|---|
/// | 0 | done | the whole report was written |
/// | 1 | want of memory | free, nothing is tied to it |
/// | 2 | words | exactly where the words aren't in the form of a command |
/// | 3 | read fault | only where the count of read faults of a file that the command reads rose in this call |
/// | 4 | write fault | only where the sink's count of faults rose in this call, or the count of write faults of the file
/// that the command writes |
/// | 5 | port refused | exactly where the content of PORT is no market |
/// | 6 | job refused | exactly where the content of JOB is no job, or `quick` has HELD above the number of assets |
/// | 7 | certificate refused | exactly where the content of CERT is no encoding of a valid certificate |
/// | 8 | verify differs | exactly where its instance, budget or weights aren't those of the market and the job |
///
/// Each 'exactly where' holds if no earlier refusal in this order came: words, a fault in reading PORT, port, a fault in
/// reading JOB, job, a fault in reading CERT, certificate, difference, the work and the writes; and it yields to want of
/// memory. The status 2 comes before any read. A refusal writes its line, whole where the sink's count didn't rise. `quick`,
/// `solve` and `demo` put out their report and their certificate, or a front of both in their order; the certificate of
/// `quick` and `demo` goes into the unnamed file. `check` and `verify` write one line for each weight and `yes`, or a
/// front of
/// them, once the whole certificate is accepted; what they tell is right. `upgrade` reads CERT a second time while it
/// writes NEW, the encoding in version 2 of the certificate that CERT encodes, then writes the lines of `check`, and the end
/// mark last; where it stops NEW holds what it held, or nothing, or a proper front of that encoding. 3 writes nothing to
/// the sink.
///
/// One pass over the bytes of PORT, JOB and a CERT that is read, O(N * N) steps and memory for N assets, and what the
/// searches or the leaves of the certificate cost.
pub fn run<F: Files, S: Sink>(alloc: Global, words: &[String], files: &mut F, out: &mut S) -> u8
    ensures { Answers (form (map string_bytes words.now))
        (F.files files.old) (S.sink out.old) (F.files files.new) (S.sink out.new) result }
{
    status_of(answer(alloc, form_of(words), files, out))
}

/// Rules a form, and refuses it or does its task.
fn answer<F: Files, S: Sink>(
    alloc: Global,
    form: Form<'_>,
    files: &mut F,
    out: &mut S,
) -> Result<(), Stop>
    requires { IsFormInRange (form_value form) }
    ensures { Answers (form_value form.entry)
        (F.files files.old) (S.sink out.old) (F.files files.new) (S.sink out.new) (status_number result) }
{
    match rule(alloc, form, files) {
        Ok(task) => perform(alloc, &task, source_of(form), cert_of(form), files, out),
        Err(halt) => Err(end_by(alloc, halt, out)),
    }
}

/// The name of the file into which a command's certificate goes; the unnamed file's is empty.
fn cert_of<'a>(form: Form<'a>) -> &'a str
    ensures { result.now ≡ cert_in (form_value form.entry) }
{
    match form {
        Form::Solve { cert, .. } => cert,
        Form::Upgrade { new, .. } => new,
        _ => "",
    }
}

/// The name of the file that is read again for a task; the unnamed file's is empty.
fn source_of<'a>(form: Form<'a>) -> &'a str
    ensures { result.now ≡ source_in (form_value form.entry) }
{
    match form {
        Form::Upgrade { cert, .. } => cert,
        _ => "",
    }
}
