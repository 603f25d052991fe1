//! The spare room of a vector, which is filled and never grows.
ghost use Rattle.std.specs.Prelude.{◌≡◌, ◌-◌, [], min, length, take, vec_len, vec_capacity};
ghost use Rattle.np_io.specs.MemoryForms.{with_bytes};

use std::marker::Model;

// A vector, how many bytes were in it at first, and how many more it holds without more memory.
#[derive(Drop)]
pub(crate) struct Room {
    bytes: Vec<u8>,
    start: usize,
    spare: usize,
}

impl Model for Room {
    ghost use Rattle.std.specs.Prelude.{◌+◌, ◌≤◌, drop, length, vec_capacity, vec_len};
    ghost use Rattle.np_io.specs.MemoryForms.{RoomState};

    ghost Value = { RoomState };

    ghost view = { λ room. record {
      written = drop room.start room.bytes.items;
      spare = room.spare;
    } };

    ghost invariant = { λ room. (room.start ≤ length room.bytes.items)
        × (vec_len room.bytes + room.spare ≤ vec_capacity room.bytes) };
}

impl Room {
    pub(crate) fn new(bytes: Vec<u8>) -> Room
        ensures written { result.written ≡ [] }
        ensures spare { result.spare ≡ vec_capacity bytes - vec_len bytes }
    {
        Room {
            start: bytes.len(),
            spare: bytes.capacity() - bytes.len(),
            bytes,
        }
    }

    // Appends as many of the bytes as have room, and answers how many.
    pub(crate) fn append(&mut self, bytes: &[u8]) -> usize
        ensures count { result ≡ min (length bytes.now) self.old.spare }
        ensures room { self.new ≡ with_bytes self.old (take result bytes.now) }
    {
        let count = bytes.len().min(self.spare);
        self.bytes.extend_from_slice(&bytes[..count]).unwrap();
        self.spare -= count;
        count
    }

    pub(crate) fn spare(&self) -> usize
        ensures { result ≡ self.now.spare }
    {
        self.spare
    }

    pub(crate) fn written(&self) -> &[u8]
        ensures { result.now ≡ self.now.written }
    {
        &self.bytes[self.start..]
    }
}
