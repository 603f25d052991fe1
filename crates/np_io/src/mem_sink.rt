//! A sink in memory that takes a few bytes a call, and fails at chosen calls.
ghost use Rattle.std.specs.Prelude.{◌≡◌, ◌+◌, ◌-◌, ◌<◌, ◌≤◌, ◌↔◌, Some, [], min, length, take, vec_len, vec_capacity, IsOk, IsErr, IfOk, OnErr};
ghost use Rattle.std.specs.Io.KnownBytes.{append_known};
ghost use Rattle.np_io.specs.Calls.{with_call, with_fault};
ghost use Rattle.np_io.specs.Faults.{Rose};
ghost use Rattle.np_io.specs.MemoryForms.{GiveFails, with_bytes};

use crate::calls::Calls;
use crate::room::Room;
use crate::sink::Sink;
use crate::source::Failed;
use std::marker::Model;

/// A sink into the spare room of a vector, for trying out what a caller does with short writes and
/// failed ones. It is sure of nothing.
#[derive(Drop)]
pub struct MemSink {
    room: Room,
    most: usize,
    calls: Calls,
}

impl Model for MemSink {
    ghost use Rattle.std.specs.Prelude.{◌≤◌};
    ghost use Rattle.np_io.specs.MemoryForms.{SinkState};

    ghost Value = { SinkState };

    ghost view = { λ sink. record { room = sink.room; most = sink.most; calls = sink.calls } };

    ghost invariant = { λ sink. 1 ≤ sink.most };
}

impl MemSink {
    /// A sink that takes at most `most` bytes a call, and keeps as many as `room` has spare, its
    /// capacity less its length. What is in `room` already does not count as written. The calls of
    /// `give` whose numbers are in `fails` fail; they are counted from 1, and all past the greatest
    /// number have that one. It takes no memory.
    pub fn new(most: usize, fails: Vec<u64>, room: Vec<u8>) -> MemSink
        requires { 1 ≤ most }
        ensures written { result.room.written ≡ [] }
        ensures spare { result.room.spare ≡ vec_capacity room - vec_len room }
        ensures most { result.most ≡ most }
        ensures calls { result.calls ≡ record { fails = fails.items; made = 0; faults = 0 } }
    {
        MemSink {
            room: Room::new(room),
            most,
            calls: Calls::new(fails),
        }
    }

    /// The bytes that were given so far.
    pub fn written(&self) -> &[u8]
        ensures { result.now ≡ self.now.room.written }
    {
        self.room.written()
    }
}

impl Sink for MemSink {
    ghost written = { λ sink. Some sink.room.written };

    ghost faults = { λ sink. sink.calls.faults };

    ghost sure = { λ _. 0 };

    fn give(&mut self, bytes: &[u8]) -> Result<usize, Failed>
        // What the trait says.
        ensures fits { IfOk result (λ count. count ≤ length bytes.now) }
        ensures some_taken { 0 < length bytes.now → IfOk result (λ count. 1 ≤ count) }
        ensures appended { IfOk result (λ count. Some self.new.room.written ≡
            append_known (Some self.old.room.written) (take count bytes.now)) }
        ensures fault_rose { OnErr result (Rose self.old.calls.faults self.new.calls.faults) }
        ensures nothing_appended { OnErr result
            (Some self.new.room.written ≡ Some self.old.room.written) }
        ensures never_falls { self.old.calls.faults ≤ self.new.calls.faults }

        // It fails exactly at the listed calls and where it is full, and else takes as much as its
        // limits allow.
        ensures fails { IsErr result ↔ GiveFails self.old bytes.now }
        ensures failed { OnErr result
            (self.new ≡ record self.old { calls = with_fault self.old.calls }) }
        ensures count { IfOk result
            (λ count. count ≡ min (min self.old.most (length bytes.now)) self.old.room.spare) }
        ensures kept { IfOk result (λ count. self.new ≡ record self.old {
          room = with_bytes self.old.room (take count bytes.now);
          calls = with_call self.old.calls;
        }) }
    {
        self.calls.make()?;
        if self.room.spare() == 0 && !bytes.is_empty() {
            self.calls.count_fault();
            return Err(Failed);
        }
        let most = self.most.min(bytes.len());
        Ok(self.room.append(&bytes[..most]))
    }
}
