//! A source in memory that never fails.
ghost use Rattle.std.specs.Prelude.{◌≡◌, ◌<◌, ◌≤◌, Some, ◌++◌, min, length, take, drop, IsOk, IfOk, OnErr};
ghost use Rattle.std.specs.Io.KnownBytes.{prepend_known, IsAtEnd};
ghost use Rattle.np_io.specs.Faults.{Rose};

use crate::source::{Failed, Source};
use std::marker::Model;

/// A source of the bytes of a vector. It never fails, and gives as much as the buffer holds.
#[derive(Drop)]
pub struct SureSource {
    bytes: Vec<u8>,
    taken: usize,
}

impl Model for SureSource {
    ghost use Rattle.std.specs.Prelude.{ℕ, ◌≤◌, List, drop, length};

    ghost Value = { List ℕ };

    ghost view = { λ source. drop source.taken source.bytes.items };

    ghost invariant = { λ source. source.taken ≤ length source.bytes.items };
}

impl SureSource {
    /// A source with all of `bytes` left. It takes no memory.
    pub fn new(bytes: Vec<u8>) -> SureSource
        ensures { result ≡ bytes.items }
    {
        SureSource { bytes, taken: 0 }
    }

    // Moves as much as is left and the buffer holds to its front.
    pub(crate) fn move_into(&mut self, into: &mut [u8]) -> usize
        ensures count { result ≡ min (length into.old) (length self.old) }
        ensures bytes { into.new ≡ take result self.old ++ drop result into.old }
        ensures rest { self.new ≡ drop result self.old }
    {
        let left = &self.bytes[self.taken..];
        let count = into.len().min(left.len());
        into[..count].copy_from_slice(&left[..count]);
        self.taken += count;
        count
    }
}

impl Source for SureSource {
    ghost left = { λ source. Some source };

    ghost faults = { λ _. 0 };

    fn take(&mut self, into: &mut [u8]) -> Result<usize, Failed>
        // What the trait says.
        ensures fits { IfOk result (λ count. count ≤ length into.new) }
        ensures moved { IfOk result
            (λ count. Some self.old ≡ prepend_known (take count into.new) (Some self.new)) }
        ensures end { result ≡ Ok 0 → 0 < length into.new → IsAtEnd (Some self.new) }

        // It never fails, and moves all that the buffer holds.
        ensures never_fails { IsOk result }
        ensures count { IfOk result (λ count. count ≡ min (length into.old) (length self.old)) }
        ensures bytes { IfOk result
            (λ count. into.new ≡ take count self.old ++ drop count into.old) }
        ensures rest { IfOk result (λ count. self.new ≡ drop count self.old) }
    {
        Ok(self.move_into(into))
    }
}
