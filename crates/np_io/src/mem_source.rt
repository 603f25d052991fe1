//! A source in memory that gives a few bytes a call, and fails at chosen calls.
ghost use Rattle.std.specs.Prelude.{◌≡◌, ◌<◌, ◌≤◌, ◌↔◌, Some, ◌++◌, min, length, take, drop, IsErr, IfOk, OnErr};
ghost use Rattle.std.specs.Io.KnownBytes.{prepend_known, IsAtEnd};
ghost use Rattle.np_io.specs.Faults.{Rose};
ghost use Rattle.np_io.specs.Calls.{NextFails, with_call, with_fault};

use crate::calls::Calls;
use crate::source::{Failed, Source};
use crate::sure_source::SureSource;
use std::marker::Model;

/// A source of the bytes of a vector, for trying out what a caller does with short reads and
/// failed ones.
#[derive(Drop)]
pub struct MemSource {
    left: SureSource,
    most: usize,
    calls: Calls,
}

impl Model for MemSource {
    ghost use Rattle.std.specs.Prelude.{◌≤◌};
    ghost use Rattle.np_io.specs.MemoryForms.{SourceState};

    ghost Value = { SourceState };

    ghost view = { λ source. record { left = source.left; most = source.most; calls = source.calls } };

    ghost invariant = { λ source. 1 ≤ source.most };
}

impl MemSource {
    /// A source with all of `bytes` left, which moves at most `most` bytes a call. The calls of
    /// `take` whose numbers are in `fails` fail; they are counted from 1, and all past the greatest
    /// number have that one. It takes no memory.
    pub fn new(bytes: Vec<u8>, most: usize, fails: Vec<u64>) -> MemSource
        requires { 1 ≤ most }
        ensures left { result.left ≡ bytes.items }
        ensures most { result.most ≡ most }
        ensures calls { result.calls ≡ record { fails = fails.items; made = 0; faults = 0 } }
    {
        MemSource {
            left: SureSource::new(bytes),
            most,
            calls: Calls::new(fails),
        }
    }
}

impl Source for MemSource {
    ghost left = { λ source. Some source.left };

    ghost faults = { λ source. source.calls.faults };

    fn take(&mut self, into: &mut [u8]) -> Result<usize, Failed>
        // What the trait says.
        ensures fits { IfOk result (λ count. count ≤ length into.new) }
        ensures moved { IfOk result
            (λ count. Some self.old.left ≡ prepend_known (take count into.new) (Some self.new.left)) }
        ensures end { result ≡ Ok 0 → 0 < length into.new → IsAtEnd (Some self.new.left) }
        ensures fault_rose { OnErr result (Rose self.old.calls.faults self.new.calls.faults) }
        ensures nothing_moved { OnErr result (Some self.new.left ≡ Some self.old.left) }
        ensures never_falls { self.old.calls.faults ≤ self.new.calls.faults }

        // It fails exactly at the listed calls, and else moves as much as its limits allow.
        ensures fails { IsErr result ↔ NextFails self.old.calls }
        ensures failed { OnErr result
            (self.new ≡ record self.old { calls = with_fault self.old.calls }) }
        ensures count { IfOk result
            (λ count. count ≡ min (min self.old.most (length into.old)) (length self.old.left)) }
        ensures bytes { IfOk result
            (λ count. into.new ≡ take count self.old.left ++ drop count into.old) }
        ensures rest { IfOk result (λ count. self.new ≡
            record self.old { left = drop count self.old.left; calls = with_call self.old.calls }) }
    {
        self.calls.make()?;
        let most = self.most.min(into.len());
        Ok(self.left.move_into(&mut into[..most]))
    }
}
