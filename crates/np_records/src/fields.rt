//! The fields that network texts and plan texts share.

ghost use Rattle.std.specs.Prelude.{◌≡◌, ◌<◌, Some, None, if◌then◌else◌};
ghost use Rattle.csv.specs.Records.{fields_of};
ghost use Rattle.np_frac.specs.Text.{number};
ghost use Rattle.np_records.specs.Rows.{is_kind, whole_in, is_period};

use crate::reading::field;
use csv::ByteRecord;
use np_frac::read_number;

/// Whether the record has this word as its first field.
pub fn is_kind(row: &ByteRecord, word: &[u8]) -> bool
    ensures { result ≡ is_kind (fields_of row.now) word.now }
{
    field(row, 0) == word
}

/// The whole number that 1 to 9 digits write, and `None` for all other bytes.
pub fn whole(bytes: &[u8]) -> Option<u32>
    ensures { result ≡ whole_in bytes.now }
{
    match read_number(bytes, 9) {
        Some(number) => Some(number as u32),
        None => None,
    }
}

/// The period from 1 to `last` that 1 to 9 digits write, and `None` for all other bytes.
pub fn period(last: u32, bytes: &[u8]) -> Option<u32>
    ensures { result ≡ (if is_period last bytes.now then Some (number bytes.now) else None) }
{
    match read_number(bytes, 9) {
        None => None,
        Some(period) if period < 1 => None,
        Some(period) if u64::from(last) < period => None,
        Some(period) => Some(period as u32),
    }
}
