//! Files of the system, through std.
ghost use Rattle.std.specs.Prelude.{◌≡◌, ℕ, List, [], ◌≤◌, None, length, IfOk, IsOk, IsTrue, ◌↔◌};
ghost use Rattle.gap_files.specs.Outside.{Counts, NoneFell, SameElsewhere, SameEverywhere};
ghost use Rattle.gap_files.specs.Tally.{count_of};

use crate::{Failure, Files, Tally, Trouble};
use std::alloc::Global;
use std::fs::Metadata;
use std::io::{ErrorKind, Read, Seek, SeekFrom, Write};
use std::os::unix::fs::{FileTypeExt, MetadataExt};
use std::{fs, io, rt};

/// The files of the system, reached through the runtime of `main`. What they hold isn't told: that they read and keep
/// bytes as files should is not proved. A read of a missing file is a fault, and so is one of a name that is no regular
/// file, as a directory or a pipe, which might wait for ever. A file that was read is never started, whatever name it is
/// called by then: that is a fault before anything is touched. The unnamed file, whose name has no bytes, takes what is
/// written to it and drops it.
#[derive(Drop)]
pub struct RealFiles<'a, R: rt::Files> {
    rt: &'a R,
    alloc: Global,
    reads: Tally,
    writes: Tally,
    seen: Vec<FilePlace>,
    failure: Option<Failure>,
}

// Where a file stands in the system. Names whose places are equal are names of one file.
#[derive(Clone, Copy, PartialEq, Eq)]
struct FilePlace {
    device: u64,
    number: u64,
}

impl<'a, R: rt::Files> RealFiles<'a, R> {
    /// The files that `rt` reaches, with every count at 0. It takes no memory until a file is read or a call fails.
    pub fn new(rt: &'a R, alloc: Global) -> RealFiles<'a, R>
        ensures reads { (name : List ℕ) → (⟦<RealFiles<'a, R> as Files>⟧.files result).read_faults name ≡ 0 }
        ensures writes { (name : List ℕ) → (⟦<RealFiles<'a, R> as Files>⟧.files result).write_faults name ≡ 0 }
    {
        RealFiles {
            rt,
            alloc,
            reads: Tally::new(alloc),
            writes: Tally::new(alloc),
            seen: Vec::new(alloc),
            failure: None,
        }
    }

    /// The last call that failed, for a message. None where none has, and where memory for its name was refused.
    pub fn failure(&self) -> Option<&Failure> {
        self.failure.as_ref()
    }
}

// The place that the system tells of a file.
fn place_of(about: &Metadata) -> FilePlace {
    FilePlace {
        device: about.dev(),
        number: about.ino(),
    }
}

// Opens a regular file and fills `buf` from its byte `at` on, up to the end of the file. Its place is then among those seen.
fn read_open(
    rt: &impl rt::Files,
    seen: &mut Vec<FilePlace>,
    name: &str,
    at: u64,
    buf: &mut [u8],
) -> io::Result<usize>
    ensures { IfOk result (λ count. count ≤ length buf.new) }
{
    let about = fs::metadata(rt, name)?;
    if !about.is_file() {
        return Err(io::Error::other("it is no regular file"));
    }
    let place = place_of(&about);
    if !seen.contains(&place) {
        seen.push(place)?;
    }
    let mut file = fs::open(rt, name)?;
    file.seek(SeekFrom::Start(at))?;
    fill(&mut file, buf)
}

// Whether this is the place of standard output.
fn is_standard_output(rt: &impl rt::Files, place: FilePlace) -> bool {
    match fs::metadata(rt, "/dev/stdout") {
        Ok(about) => place_of(&about) == place,
        Err(_) => false,
    }
}

// Refuses a file that was read, and what would wait or takes no bytes: of what is no regular file a device of characters and
// standard output are allowed.
fn may_be_started(rt: &impl rt::Files, seen: &[FilePlace], about: &Metadata) -> io::Result<()> {
    let place = place_of(about);
    if seen.contains(&place) {
        return Err(io::Error::other("it is a file that this run has read"));
    }
    if about.is_file() || about.file_type().is_char_device() || is_standard_output(rt, place) {
        return Ok(());
    }
    Err(io::Error::other("it is no regular file"))
}

// Whether the name is that of the unnamed file, which isn't one of the system.
fn is_unnamed(name: &str) -> bool
    ensures { IsTrue result ↔ (name.now ≡ []) }
{
    name.is_empty()
}

// Makes the file empty, also one that is missing.
fn make_empty(rt: &impl rt::Files, seen: &[FilePlace], name: &str) -> io::Result<()> {
    match fs::metadata(rt, name) {
        Ok(about) => may_be_started(rt, seen, &about)?,
        Err(error) if error.kind() == ErrorKind::NotFound => {}
        Err(error) => return Err(error),
    }
    fs::create(rt, name)?;
    Ok(())
}

// Opens the file, or starts a missing one, and writes all the bytes behind its own.
fn write_behind(rt: &impl rt::Files, name: &str, bytes: &[u8]) -> io::Result<()> {
    let mut how = fs::OpenOptions::new();
    how.append(true).create(true);
    let mut file = how.open(rt, name)?;
    write_out(&mut file, bytes)
}

// Writes until all is taken.
fn write_out(file: &mut impl Write, bytes: &[u8]) -> io::Result<()> {
    let mut done = 0;
    while done < bytes.len() {
        match file.write(&bytes[done..])? {
            0 => return Err(io::Error::from(io::ErrorKind::WriteZero)),
            more => done += more,
        }
    }
    Ok(())
}

// Reads until the buffer is full or the file ends.
fn fill(file: &mut impl Read, buf: &mut [u8]) -> io::Result<usize>
    ensures { IfOk result (λ count. count ≤ length buf.new) }
{
    let mut count = 0;
    while count < buf.len() {
        match file.read(&mut buf[count..])? {
            0 => return Ok(count),
            more => count += more,
        }
    }
    Ok(count)
}

impl<R: rt::Files> Files for RealFiles<'_, R> {
    ghost files = { λ files. record {
      content = λ _. None;
      read_faults = count_of files.reads;
      write_faults = count_of files.writes;
    } };

    fn read_at(&mut self, name: &str, at: u64, buf: &mut [u8]) -> Result<usize, Trouble> {
        match read_open(self.rt, &mut self.seen, name, at, buf) {
            Ok(count) => Ok(count),
            Err(error) if error.kind() == ErrorKind::OutOfMemory => Err(Trouble::OutOfMemory),
            Err(error) => {
                self.failure = Failure::of(self.alloc, name, error);
                Err(self.reads.fault(name))
            }
        }
    }

    fn start(&mut self, name: &str) -> Result<(), Trouble>
        ensures counted { Counts (count_of self.old.writes name.now) (count_of self.new.writes name.now) result }
        ensures later { NoneFell (count_of self.old.writes) (count_of self.new.writes) }
        ensures others { SameElsewhere name.now (count_of self.old.writes) (count_of self.new.writes) }
        ensures reads { SameEverywhere (count_of self.old.reads) (count_of self.new.reads) }

        // The unnamed file is always started.
        ensures unnamed { name.now ≡ [] → IsOk result }
    {
        if is_unnamed(name) {
            return Ok(());
        }
        match make_empty(self.rt, self.seen.as_slice(), name) {
            Ok(()) => Ok(()),
            Err(error) => {
                self.failure = Failure::of(self.alloc, name, error);
                Err(self.writes.fault(name))
            }
        }
    }

    fn append(&mut self, name: &str, bytes: &[u8]) -> Result<(), Trouble>
        ensures counted { Counts (count_of self.old.writes name.now) (count_of self.new.writes name.now) result }
        ensures later { NoneFell (count_of self.old.writes) (count_of self.new.writes) }
        ensures others { SameElsewhere name.now (count_of self.old.writes) (count_of self.new.writes) }
        ensures reads { SameEverywhere (count_of self.old.reads) (count_of self.new.reads) }

        // The unnamed file takes any bytes.
        ensures unnamed { name.now ≡ [] → IsOk result }
    {
        if is_unnamed(name) {
            return Ok(());
        }
        match write_behind(self.rt, name, bytes) {
            Ok(()) => Ok(()),
            Err(error) => {
                self.failure = Failure::of(self.alloc, name, error);
                Err(self.writes.fault(name))
            }
        }
    }
}
