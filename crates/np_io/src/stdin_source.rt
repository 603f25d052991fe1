//! The readers of the standard library, as sources.
ghost use Rattle.std.specs.Prelude.{◌≡◌, ◌≤◌, None, length, IfOk, OnOk, OnErr};
ghost use Rattle.std.specs.Io.KnownBytes.{ReadConsumes};
ghost use Rattle.np_io.specs.Faults.{Rose, next_count};
ghost use Rattle.np_io.specs.Streams.{stdin_reader, stdin_faults};

use crate::source::{Failed, Source};
use std::io::Read;

/// A reader as a source. It tells nothing of what is left.
///
/// Each call of `take` reads once. A read that fails, even one that was interrupted, is a fault. The
/// count of faults stops at its last value.
#[derive(Drop)]
pub struct StdinSource<R> {
    reader: R,
    faults: u64,
}

impl<R: Read + Drop> StdinSource<R> {
    /// A source of all that the reader gives. It takes no memory.
    pub fn new(reader: R) -> StdinSource<R>
        ensures reader { stdin_reader result ≡ reader }
        ensures faults { stdin_faults result ≡ 0 }
    {
        StdinSource { reader, faults: 0 }
    }
}

impl<R: Read + Drop> Source for StdinSource<R> {
    ghost left = { λ _. None };

    ghost faults = { stdin_faults };

    fn take(&mut self, into: &mut [u8]) -> Result<usize, Failed>
        // What the trait says.
        ensures fits { IfOk result (λ count. count ≤ length into.new) }
        ensures fault_rose { OnErr result (Rose (stdin_faults self.old) (stdin_faults self.new)) }
        ensures never_falls { stdin_faults self.old ≤ stdin_faults self.new }

        // The reader's own bytes, where the reader tells them.
        ensures read { ReadConsumes (R.remaining (stdin_reader self.old))
            (R.remaining (stdin_reader self.new)) result into.new }
        ensures no_fault { OnOk result (stdin_faults self.new ≡ stdin_faults self.old) }
        ensures fault { OnErr result
            (stdin_faults self.new ≡ next_count (stdin_faults self.old)) }
    {
        match self.reader.read(into) {
            Ok(count) => Ok(count),
            Err(_) => {
                self.faults = self.faults.saturating_add(1);
                Err(Failed)
            }
        }
    }
}
