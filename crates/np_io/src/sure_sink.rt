//! A sink in memory that fails where it is full, and nowhere else.
ghost use Rattle.std.specs.Prelude.{◌≡◌, ◌+◌, ◌-◌, ◌<◌, ◌≤◌, ◌↔◌, Some, [], min, length, take, vec_len, vec_capacity, IsOk, IsErr, IfOk, OnErr};
ghost use Rattle.std.specs.Io.KnownBytes.{append_known};
ghost use Rattle.np_io.specs.Faults.{Rose, next_count};
ghost use Rattle.np_io.specs.MemoryForms.{IsFullFor, with_bytes};

use crate::room::Room;
use crate::sink::Sink;
use crate::source::Failed;
use std::marker::Model;

/// A sink into the spare room of a vector. It fails where that is full, and is sure of the room
/// that is left.
#[derive(Drop)]
pub struct SureSink {
    room: Room,
    faults: u64,
}

impl Model for SureSink {
    ghost use Rattle.np_io.specs.MemoryForms.{SureState};

    ghost Value = { SureState };

    ghost view = { λ sink. record { room = sink.room; faults = sink.faults } };
}

impl SureSink {
    /// A sink that keeps as many bytes as `room` has spare, its capacity less its length. What is
    /// in `room` already does not count as written. It takes no memory.
    pub fn new(room: Vec<u8>) -> SureSink
        ensures written { result.room.written ≡ [] }
        ensures spare { result.room.spare ≡ vec_capacity room - vec_len room }
        ensures faults { result.faults ≡ 0 }
    {
        SureSink {
            room: Room::new(room),
            faults: 0,
        }
    }

    /// The bytes that were given so far.
    pub fn written(&self) -> &[u8]
        ensures { result.now ≡ self.now.room.written }
    {
        self.room.written()
    }
}

impl Sink for SureSink {
    ghost written = { λ sink. Some sink.room.written };

    ghost faults = { λ sink. sink.faults };

    ghost sure = { λ sink. sink.room.spare };

    fn give(&mut self, bytes: &[u8]) -> Result<usize, Failed>
        // What the trait says.
        ensures fits { IfOk result (λ count. count ≤ length bytes.now) }
        ensures some_taken { 0 < length bytes.now → IfOk result (λ count. 1 ≤ count) }
        ensures appended { IfOk result (λ count. Some self.new.room.written ≡
            append_known (Some self.old.room.written) (take count bytes.now)) }
        ensures sure_of_it { 1 ≤ self.old.room.spare → IsOk result }
        ensures sure_of_the_rest { IfOk result
            (λ count. self.old.room.spare ≤ self.new.room.spare + count) }
        ensures fault_rose { OnErr result (Rose self.old.faults self.new.faults) }
        ensures nothing_appended { OnErr result
            (Some self.new.room.written ≡ Some self.old.room.written) }
        ensures never_falls { self.old.faults ≤ self.new.faults }

        // It fails exactly where it is full, and else takes all that has room.
        ensures fails { IsErr result ↔ IsFullFor self.old.room bytes.now }
        ensures failed { OnErr result
            (self.new ≡ record self.old { faults = next_count self.old.faults }) }
        ensures count { IfOk result (λ count. count ≡ min (length bytes.now) self.old.room.spare) }
        ensures kept { IfOk result (λ count. self.new ≡
            record self.old { room = with_bytes self.old.room (take count bytes.now) }) }
    {
        if self.room.spare() == 0 && !bytes.is_empty() {
            self.faults = self.faults.saturating_add(1);
            return Err(Failed);
        }
        Ok(self.room.append(bytes))
    }
}
