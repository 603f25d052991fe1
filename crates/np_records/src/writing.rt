//! Texts of records.

ghost use Rattle.std.specs.Prelude.{◌≡◌, ◌↔◌, ◌++◌, ◌∷◌, [], false, IfOk, OnOk, IsErr, IsTrue, decimal};
ghost use Rattle.np_frac.specs.Fits.{Fits};
ghost use Rattle.np_frac.specs.Text.{printed};
ghost use Rattle.np_records.specs.Texts.{record_text};

use csv::{ByteRecord, Writer, WriterBuilder};
use itoa::Buffer;
use np_frac::{Frac, Memory, write_frac};
use std::alloc::Global;
use std::marker::Model;

/// A text that is written record by record, each record on a line of its own. Fields stand between
/// commas, in quotes only where they need them, and a line feed ends each record. A contract sees
/// the bytes of the records so far, the fields of the record that is open, and whether a write
/// failed. After an `Err` each call answers `Err`.
#[derive(Drop)]
pub struct Text {
    writer: Writer<Vec<u8>>,
    // The record that is open.
    row: ByteRecord,
    // Where a fraction is written before it becomes a field.
    digits: Vec<u8>,
    failed: bool,
}

impl Model for Text {
    ghost use Rattle.std.specs.Prelude.{◌≡◌, [], false};
    ghost use Rattle.csv.specs.Records.{fields_of, partial_of};
    ghost use Rattle.np_records.specs.Texts.{IsBetween, Written, written_by};

    ghost Value = { Written };

    ghost view = { λ s. record { bytes = written_by s.writer; fields = fields_of s.row; failed = s.failed } };

    ghost invariant = { λ s. s.failed ≡ false → IsBetween s.writer × (partial_of s.row ≡ []) };
}

impl Text {
    /// The empty text.
    pub fn new(alloc: Global) -> Text
        ensures { result ≡ record { bytes = []; fields = []; failed = false } }
    {
        let writer = WriterBuilder::new()
            .flexible(true)
            .from_writer(Vec::new(alloc));
        Text {
            writer,
            row: ByteRecord::new(alloc),
            digits: Vec::new(alloc),
            failed: false,
        }
    }

    /// Adds a field of these bytes to the open record.
    ///
    /// `Memory` comes where memory ran out, and from then on. What the fields are then is left open.
    pub fn word(&mut self, bytes: &[u8]) -> Result<(), Memory>
        ensures fields { OnOk result (self.new.fields ≡ self.old.fields ++ bytes.now ∷ []) }
        ensures bytes { OnOk result (self.new.bytes ≡ self.old.bytes) }
        ensures failed { IsTrue self.new.failed ↔ IsErr result }
        ensures stays_failed { IsTrue self.old.failed → IsErr result }
    {
        if self.failed {
            return Err(Memory);
        }
        if self.row.push_field(bytes).is_err() {
            self.failed = true;
            return Err(Memory);
        }
        Ok(())
    }

    /// Adds a whole number to the open record, as `word` adds its decimal digits.
    pub fn number(&mut self, number: u64) -> Result<(), Memory>
        ensures fields { OnOk result (self.new.fields ≡ self.old.fields ++ decimal number ∷ []) }
        ensures bytes { OnOk result (self.new.bytes ≡ self.old.bytes) }
        ensures failed { IsTrue self.new.failed ↔ IsErr result }
        ensures stays_failed { IsTrue self.old.failed → IsErr result }
    {
        let mut digits = Buffer::new();
        self.word(digits.format(number).as_bytes())
    }

    /// Adds a fraction to the open record, as `word` adds its printed form.
    pub fn fraction(&mut self, value: Frac) -> Result<(), Memory>
        ensures fields { OnOk result (self.new.fields ≡ self.old.fields ++ printed value ∷ []) }
        ensures fits { OnOk result (Fits value) }
        ensures bytes { OnOk result (self.new.bytes ≡ self.old.bytes) }
        ensures failed { IsTrue self.new.failed ↔ IsErr result }
        ensures stays_failed { IsTrue self.old.failed → IsErr result }
    {
        if self.failed {
            return Err(Memory);
        }
        self.digits.clear();
        if write_frac(value, &mut self.digits).is_err() {
            self.failed = true;
            return Err(Memory);
        }
        if self.row.push_field(self.digits.as_slice()).is_err() {
            self.failed = true;
            return Err(Memory);
        }
        Ok(())
    }

    /// Ends the open record. A record of no fields is written as one empty field.
    ///
    /// `Memory` comes where memory ran out, and from then on. What the bytes are then is left open.
    #[tactic(auto, unfolding(crate::specs::Texts::record_text))]
    pub fn end(&mut self) -> Result<(), Memory>
        ensures text { OnOk result (self.new.bytes ≡ self.old.bytes ++ record_text self.old.fields) }
        ensures fields { OnOk result (self.new.fields ≡ []) }
        ensures failed { IsTrue self.new.failed ↔ IsErr result }
        ensures stays_failed { IsTrue self.old.failed → IsErr result }
    {
        if self.failed {
            return Err(Memory);
        }
        if self.writer.write_byte_record(&self.row).is_err() {
            self.failed = true;
            return Err(Memory);
        }
        self.row.clear();
        Ok(())
    }

    /// The bytes of the records. `Memory` comes where memory ran out, now or in an earlier call.
    pub fn into_bytes(self) -> Result<Vec<u8>, Memory>
        ensures text { IfOk result (λ bytes. bytes.items ≡ self.bytes) }
        ensures failed { IsTrue self.failed → IsErr result }
    {
        let Text { writer, failed, .. } = self;
        if failed {
            return Err(Memory);
        }
        match writer.into_inner() {
            Ok(bytes) => Ok(bytes),
            Err(_) => Err(Memory),
        }
    }
}
