//! The fields of plan texts.

ghost use Rattle.std.specs.Prelude.{◌≡◌, ◌<◌, ◌≤◌, IfOk, not, length};
ghost use Rattle.np_frac.specs.Text.{number};
ghost use Rattle.np_records.specs.Records.{field_of};
ghost use Rattle.csv.specs.Records.{fields_of};
ghost use Rattle.np_records.specs.Names.{place_in};
ghost use Rattle.np_records.specs.Rows.{is_kind, whole_in};
ghost use Rattle.certificates.specs.declared.refused.PlanCode.TheVariants as code;
ghost use Rattle.np_records.specs.Faults.{Reads, unless};
ghost use Rattle.certificates.specs.Fields.{fraction_in, fields_fault, used_fault, period_fault, place_in_row, past_in, overflow_in, entry_in};

use crate::refused::PlanCode;
use crate::words::{check_row_of, mark_of, op_of, row_of};
use np_frac::{Frac, Past, read_frac};
use np_model::{Entry, Overflow, Place, Row};
use np_records::{ByteRecord, NameTable, field, period, whole};

/// A fraction.
pub(crate) fn fraction(bytes: &[u8]) -> Option<Frac>
    ensures { result ≡ fraction_in bytes.now }
{
    read_frac(bytes)
}

/// Looks whether the record has this many fields.
pub(crate) fn fields(row: &ByteRecord, count: usize) -> Result<(), PlanCode>
    ensures { Reads result (fields_fault count (fields_of row.now)) tt }
{
    if row.len() != count {
        return Err(PlanCode::FieldCount);
    }
    Ok(())
}

/// The number of a name that is used.
pub(crate) fn used_name(names: &NameTable, name: &[u8]) -> Result<usize, PlanCode>
    ensures value { Reads result (used_fault names.now name.now) (place_in names.now name.now) }
    ensures within { IfOk result (λ place. place < length names.now) }
{
    names.index_of(name).ok_or(PlanCode::NoSuchName)
}

/// A period from 1 to the last one.
pub(crate) fn period_up_to(last: u32, bytes: &[u8]) -> Result<u32, PlanCode>
    ensures value { Reads result (period_fault last bytes.now) (number bytes.now) }
    ensures some { IfOk result (λ period. 1 ≤ period) }
    ensures within { IfOk result (λ period. period ≤ last) }
{
    match period(last, bytes) {
        Some(period) => Ok(period),
        None => Err(PlanCode::BadPeriod),
    }
}

/// A field is wrong that gives nothing.
pub(crate) fn is_given(given: bool) -> Result<(), PlanCode>
    ensures { Reads result (unless given code.BadNumber) tt }
{
    if given {
        return Ok(());
    }
    Err(PlanCode::BadNumber)
}

/// What was given before is not to be given again.
pub(crate) fn is_new(before: bool) -> Result<(), PlanCode>
    ensures { Reads result (unless (not before) code.Repeated) tt }
{
    if before {
        return Err(PlanCode::Repeated);
    }
    Ok(())
}

// An arc or the turn to the second stage.
fn arc_or_turn(bytes: &[u8]) -> Option<Place>
    ensures { result ≡ place_in_row Row.A3 bytes.now }
{
    if bytes == b"turn".as_slice() {
        return Some(Place::Turn);
    }
    Some(Place::Arc(whole(bytes)?))
}

// The place of an operation, as its row asks for it.
fn place_in_row(row: Row, bytes: &[u8]) -> Option<Place>
    ensures { result ≡ place_in_row row bytes.now }
{
    match row {
        Row::A1 => Some(Place::Node(whole(bytes)?)),
        Row::A2 | Row::A4 | Row::A5 | Row::A6 => Some(Place::Arc(whole(bytes)?)),
        Row::A3 | Row::A7 => arc_or_turn(bytes),
        Row::A8 => Some(Place::Check(check_row_of(bytes)?)),
    }
}

// The operation of a record and its operands.
fn past(row: &ByteRecord) -> Option<Past>
    ensures { result ≡ past_in (fields_of row.now) }
{
    let op = op_of(field(row, 3))?;
    let left = fraction(field(row, 4))?;
    let right = fraction(field(row, 5))?;
    Some(Past { op, left, right })
}

/// The operation that overflowed, with its row and its place.
pub(crate) fn overflow(row: &ByteRecord) -> Option<Overflow>
    ensures { result ≡ overflow_in (fields_of row.now) }
{
    let kind = row_of(field(row, 1))?;
    let place = place_in_row(kind, field(row, 2))?;
    let past = past(row)?;
    Some(Overflow {
        row: kind,
        place,
        past,
    })
}

/// The arc that enters, the arc that leaves, and where it comes to rest.
pub(crate) fn entry(row: &ByteRecord) -> Option<Entry>
    ensures { result ≡ entry_in (fields_of row.now) }
{
    let enter = whole(field(row, 2))?;
    let leave = whole(field(row, 3))?;
    let leave_at = mark_of(field(row, 4))?;
    Some(Entry {
        enter,
        leave,
        leave_at,
    })
}
