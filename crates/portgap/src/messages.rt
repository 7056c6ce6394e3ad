//! What the program says on standard error.

use gap_files::Failure;
use std::io;

/// What each command does, and the version.
const HELP: &str = "\
portgap 0.4: portfolios of few assets in whole lots, each with a bound that is proved
  quick    one weight of a market, without a job file
  solve    each weight of a job; writes a certificate to CERT, over what stood there
  check    judges a certificate from its bytes alone
  verify   says whether a certificate is of this market and this job
  demo     the same as solve over a market that NUMBER generates
  upgrade  writes a certificate of the first version to NEW in the second
docs/USING.md is a tour, docs/FORMATS.md has files, lines and statuses.";

/// Whether the words ask for help: there are none, or the first is one of the usual ones.
fn asks_for_help(words: &[String]) -> bool {
    match words.first() {
        Some(word) => matches!(word.as_str(), "--help" | "-h" | "help" | "--version" | "-V"),
        None => true,
    }
}

/// What a status with a line of its own on standard output means, and where to read on. Of another one its plain meaning.
fn meaning(status: u8) -> &'static str {
    match status {
        1 => "memory was refused",
        2 => "these words aren't a command; `portgap --help` says what each command does",
        3 => "a file couldn't be read",
        4 => "a file or standard output couldn't be written",
        5 =>
            "PORT is refused: the line has the kind of fault, and its place in bytes from 0 (docs/FORMATS.md, \"Refusals\")",
        6 =>
            "the job is refused: the line has the kind of fault and its key (docs/FORMATS.md, \"Refusals\")",
        7 =>
            "CERT is refused: the line has the kind of fault, and its place in bytes from 0 (docs/FORMATS.md, \"Refusals\")",
        8 =>
            "CERT is of another market or job: the line has the field, CERT's value and that of the files (docs/FORMATS.md, \"Refusals\")",
        10 => "the words aren't UTF-8",
        _ => "it ended early",
    }
}

/// Says a file's or standard output's failure with the system's reason.
fn explain_failure(
    rt: &HostRuntime,
    status: u8,
    file: Option<&Failure>,
    out: Option<&io::Error>,
) -> io::Result<()> {
    match (file, out) {
        (Some(failure), _) if status == 3 => eprintln!(rt; "portgap: couldn't read {failure}"),
        (Some(failure), _) => eprintln!(rt; "portgap: couldn't write {failure}"),
        (None, Some(error)) => eprintln!(rt; "portgap: couldn't write standard output: {error}"),
        (None, None) => eprintln!(rt; "portgap: {}", meaning(status)),
    }
}

/// Says in a line what a status that isn't 0 means; to whom asks for help what each command does.
///
/// # Errors
/// What standard error answers.
pub fn explain(
    rt: &HostRuntime,
    status: u8,
    words: &[String],
    file: Option<&Failure>,
    out: Option<&io::Error>,
) -> io::Result<()> {
    match status {
        0 => Ok(()),
        2 if asks_for_help(words) => rt.eprintln(HELP),
        3 | 4 => explain_failure(rt, status, file, out),
        _ => eprintln!(rt; "portgap: {}", meaning(status)),
    }
}
