//! The records of a text, one at a time, and their fields.

ghost use Rattle.std.specs.Prelude.{◌≡◌, ◌+◌, ◌*◌, ◌≤◌, ◌∷◌, [], IfOk, OnErr, MatchBool, length};
ghost use Rattle.csv.specs.Records.{fields_of};
ghost use Rattle.np_records.specs.Records.{field_of, records_of};

use csv::{ByteRecord, ErrorKind, Reader, ReaderBuilder};
use np_frac::Memory;
use std::alloc::Global;
use std::marker::Model;

/// The records that a text has left. A contract sees them as the list of these records, each as
/// the list of its fields.
#[derive(Drop)]
pub struct Records<'a> {
    reader: Reader<&'a [u8]>,
    // The text came to its end, or a read failed: the reader tells nothing of itself then.
    ended: bool,
}

impl<'a> Model for Records<'a> {
    ghost use Rattle.std.specs.Prelude.{◌≡◌, ℕ, List, [], false, if◌then◌else◌};
    ghost use Rattle.np_records.specs.Records.{IsReading, left_in};

    ghost Value = { List (List (List ℕ)) };

    ghost view = { λ s. if s.ended then [] else left_in s.reader };

    ghost invariant = { λ s. s.ended ≡ false → IsReading s.reader };
}

impl<'a> Records<'a> {
    /// The records of these bytes. A byte order mark at their very start belongs to no field.
    pub fn new(alloc: Global, bytes: &'a [u8]) -> Records<'a>
        ensures all { result ≡ records_of bytes.now }

        // Each record but the last takes two bytes at least, and the last takes one.
        ensures few { 2 * length result ≤ length bytes.now + 1 }
    {
        let reader = ReaderBuilder::new()
            .has_headers(false)
            .flexible(true)
            .from_reader(alloc, bytes);
        Records {
            reader,
            ended: false,
        }
    }

    /// Puts the next record into `row`, and tells whether there was one. Where there was none, what
    /// `row` holds is left open.
    ///
    /// `Memory` comes where memory ran out. Nothing is left then.
    pub fn read(&mut self, row: &mut ByteRecord) -> Result<bool, Memory>
        ensures next { IfOk result (λ found. MatchBool found
            (self.old ≡ fields_of row.new ∷ self.new)
            ((self.old ≡ []) × (self.new ≡ []))) }
        ensures err { OnErr result (self.new ≡ []) }
    {
        if self.ended {
            return Ok(false);
        }
        match self.reader.read_byte_record(row) {
            Ok(true) => Ok(true),
            Ok(false) => {
                self.ended = true;
                Ok(false)
            }
            Err(e) => {
                self.ended = true;
                match e.into_kind() {
                    // Reading from a slice never fails, but no contract of `csv` says so.
                    ErrorKind::Io(_) | ErrorKind::OutOfMemory => Err(Memory),
                    _ => unreachable!(),
                }
            }
        }
    }
}

/// The field of a record at a place, counted from 0, or no bytes where the record has no field
/// there. `row.len()` is the number of its fields.
pub fn field(row: &ByteRecord, place: usize) -> &[u8]
    ensures { result.now ≡ field_of (fields_of row.now) place }
{
    row.get(place).unwrap_or(b"")
}
