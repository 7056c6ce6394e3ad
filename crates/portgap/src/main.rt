//! The program: hands its words, the files and the standard output of the system to `gap_top::run`, and says on standard
//! error what a status that isn't 0 means.
#![tactic(auto)]

mod messages;

use gap_files::{RealFiles, RealSink};
use messages::explain;
use std::alloc::Global;
use std::env;
use std::io::{self, ErrorKind};
use std::process::ExitCode;

/// The words after the program's name; None where memory is refused.
fn words_of(alloc: Global, args: env::Args) -> Option<Vec<String>> {
    let mut words = Vec::new(alloc);
    for word in args.skip(1) {
        if words.push(word).is_err() {
            return None;
        }
    }
    Some(words)
}

/// The status where the words can't be taken in: 1 where memory is refused, else 10.
fn refusal_of(error: &io::Error) -> u8 {
    if error.kind() == ErrorKind::OutOfMemory {
        1
    } else {
        10
    }
}

/// The words of this run, or the status where they can't be taken in.
fn words_in(rt: &HostRuntime) -> Result<Vec<String>, u8> {
    match env::args(rt) {
        Ok(args) => words_of(rt.alloc(), args).ok_or(1),
        Err(error) => Err(refusal_of(&error)),
    }
}

fn main(rt: HostRuntime) -> ExitCode {
    let alloc = rt.alloc();
    let mut files = RealFiles::new(&rt, alloc);
    let mut out = RealSink::new(&rt);
    let words = words_in(&rt);
    let status = match &words {
        Ok(words) => gap_top::run(alloc, words, &mut files, &mut out),
        Err(status) => *status,
    };
    let asked = match &words {
        Ok(words) => words.as_slice(),
        Err(_) => &[],
    };
    let _ = explain(&rt, status, asked, files.failure(), out.failure());
    ExitCode::from(status)
}
