//! The two traits through which portgap reaches the world.
ghost use Rattle.std.specs.Prelude.{ℕ, ◌≤◌, length, IfOk};
ghost use Rattle.std.specs.Option.{ForSome};
ghost use Rattle.gap_files.specs.Outside.{FilesNow, SinkNow, Counts, NoneFell, SameElsewhere, SameEverywhere, ReadsAt, Starts, Appends, Writes, bytes_of};

use crate::Trouble;

/// Named files. Their contents are told per name or not, and each name has a count of read faults and one of write faults.
/// No count falls, and none changes but by a failure of its kind under its name.
pub trait Files {
    /// What the files tell at a moment.
    ghost files: { Self → FilesNow };

    /// Reads bytes of the named file, from the byte `at` on (the first has the place 0), into the front of `buf`, and
    /// answers how many. Into a buffer with room it answers 0 only at or past the end of the file.
    ///
    /// # Errors
    /// `Failed` where the file couldn't be read: it is counted once. `OutOfMemory`. No other count changes, and no
    /// count changes where the call succeeds.
    fn read_at(&mut self, name: &str, at: u64, buf: &mut [u8]) -> Result<usize, Trouble>
        ensures within { IfOk result (λ count. count ≤ length buf.new) }
        ensures bytes { IfOk result
            (λ count. ForSome ((files self.old).content name.now) (λ held. ReadsAt (bytes_of held) at buf.new count)) }

        // No read changes a content.
        ensures contents { SameEverywhere (files self.old).content (files self.new).content }

        // A failure is counted once for the named file, and nothing else is counted.
        ensures counted { Counts ((files self.old).read_faults name.now) ((files self.new).read_faults name.now) result }
        ensures later { NoneFell (files self.old).read_faults (files self.new).read_faults }
        ensures others { SameElsewhere name.now (files self.old).read_faults (files self.new).read_faults }
        ensures writes { SameEverywhere (files self.old).write_faults (files self.new).write_faults };

    /// Makes the named file empty, also one that is missing.
    ///
    /// # Errors
    /// `Failed` where it couldn't, which is counted once: the file is as before or empty. `OutOfMemory`, which leaves it as
    /// before.
    fn start(&mut self, name: &str) -> Result<(), Trouble>
        ensures bytes { Starts ((files self.old).content name.now) ((files self.new).content name.now) result }
        ensures contents { SameElsewhere name.now (files self.old).content (files self.new).content }

        // A failure is counted once for the named file, and nothing else is counted.
        ensures counted { Counts ((files self.old).write_faults name.now) ((files self.new).write_faults name.now) result }
        ensures later { NoneFell (files self.old).write_faults (files self.new).write_faults }
        ensures others { SameElsewhere name.now (files self.old).write_faults (files self.new).write_faults }
        ensures reads { SameEverywhere (files self.old).read_faults (files self.new).read_faults };

    /// Writes all the bytes behind those of the named file, and starts it where it is missing.
    ///
    /// # Errors
    /// `Failed` where they couldn't all be written, which is counted once: a front of them was written, but not all,
    /// unless there are none, and a missing file stays missing. `OutOfMemory`, which leaves it as before.
    fn append(&mut self, name: &str, bytes: &[u8]) -> Result<(), Trouble>
        ensures bytes { Appends ((files self.old).content name.now) ((files self.new).content name.now) bytes.now result }
        ensures contents { SameElsewhere name.now (files self.old).content (files self.new).content }

        // A failure is counted once for the named file, and nothing else is counted.
        ensures counted { Counts ((files self.old).write_faults name.now) ((files self.new).write_faults name.now) result }
        ensures later { NoneFell (files self.old).write_faults (files self.new).write_faults }
        ensures others { SameElsewhere name.now (files self.old).write_faults (files self.new).write_faults }
        ensures reads { SameEverywhere (files self.old).read_faults (files self.new).read_faults };
}

/// Where lines are written to. The bytes written are told or not, and there is one count of faults, which never falls.
pub trait Sink {
    /// What the sink tells at a moment.
    ghost sink: { Self → SinkNow };

    /// Writes all the bytes behind those written before.
    ///
    /// # Errors
    /// `Failed` where they couldn't all be written, which is counted once: a front of them was written, but not all,
    /// unless there are none; `OutOfMemory`, which wrote nothing. Nothing else changes the count.
    fn write(&mut self, bytes: &[u8]) -> Result<(), Trouble>
        ensures bytes { Writes (sink self.old).written (sink self.new).written bytes.now result }
        ensures counted { Counts (sink self.old).faults (sink self.new).faults result }
        ensures later { (sink self.old).faults ≤ (sink self.new).faults };
}
