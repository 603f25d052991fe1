//! Reading the records of a network text.

ghost use Rattle.std.specs.Prelude.{◌≤◌, ◌<◌, ◌+◌, ◌-◌, ◌^◌, IfOk, MatchResult, length};
ghost use Rattle.csv.specs.Records.{fields_of};
ghost use Rattle.np_frac.specs.Text.{number};
ghost use Rattle.np_records.specs.Records.{field_of, records_of};
ghost use Rattle.net_csv.specs.declared.refused.Code.TheVariants as code;
ghost use Rattle.np_records.specs.Faults.{Reads, unless};
ghost use Rattle.net_csv.specs.Steps.Tables.{HasRoom, IsReady, TakesRow};
ghost use Rattle.net_csv.specs.Grammar.{is_header, periods_fault, read_records};
ghost use Rattle.net_csv.specs.Reading.{IsRefusal, ReadsScheme};
ghost use Rattle.net_csv.specs.Steps.Reading.{IsHeadRead, IsTextRead, IsWholeRead, RefusesAt};

use crate::draft::Draft;
use crate::fields::fields;
use crate::refused::{Code, Refused, Stop, Tail};
use np_model::Scheme;
use np_records::{ByteRecord, Records, field, is_kind, period};
use std::alloc::Global;

const MAX_PERIODS: u32 = 20_000;

// Looks whether the record is the first one of a network text.
fn header(row: &ByteRecord) -> Result<(), Code>
    ensures { Reads result (unless (is_header (fields_of row.now)) code.Header) tt }
{
    if row.len() != 2 || !is_kind(row, b"netplan") {
        return Err(Code::Header);
    }
    if field(row, 1) != b"1".as_slice() {
        return Err(Code::Header);
    }
    Ok(())
}

// Reads the number of periods.
fn read_periods(row: &ByteRecord) -> Result<u32, Code>
    ensures value { Reads result (periods_fault (fields_of row.now)) (number (field_of (fields_of row.now) 1)) }
    ensures few { IfOk result (λ periods. periods ≤ 20000) }
    ensures some { IfOk result (λ periods. 0 < periods) }
{
    if !is_kind(row, b"periods") {
        return Err(Code::Header);
    }
    fields(row, 2)?;
    match period(MAX_PERIODS, field(row, 1)) {
        Some(periods) => Ok(periods),
        None => Err(Code::BadPeriod),
    }
}

// Reads the two records at the head, and answers the number of periods.
fn read_head(records: &mut Records, row: &mut ByteRecord) -> Result<u32, Refused>
    ensures { MatchResult result (λ periods. IsHeadRead records.old records.new periods) (λ refused. RefusesAt refused records.old) }
{
    if !records.read(row)? {
        return Err(Refused::Fault {
            place: 1,
            code: Code::NoEnd,
        });
    }
    if let Err(code) = header(row) {
        return Err(Refused::Fault { place: 1, code });
    }
    if !records.read(row)? {
        return Err(Refused::Fault {
            place: 2,
            code: Code::NoEnd,
        });
    }
    match read_periods(row) {
        Ok(periods) => Ok(periods),
        Err(code) => Err(Refused::Fault { place: 2, code }),
    }
}

// Takes the record with this number, and tells whether it was `end`.
fn take(alloc: Global, draft: &mut Draft, row: &ByteRecord, place: u32) -> Result<bool, Refused>
    requires { HasRoom draft.old }
    ensures { TakesRow result draft.old draft.new (fields_of row.now) place }
{
    if is_kind(row, b"end") {
        return match fields(row, 1) {
            Ok(()) => Ok(true),
            Err(code) => Err(Refused::Fault { place, code }),
        };
    }
    match draft.take(alloc, row) {
        Ok(()) => Ok(false),
        Err(Stop::Fault(code)) => Err(Refused::Fault { place, code }),
        Err(Stop::Memory) => Err(Refused::Memory),
    }
}

/// Reads the records of a network text up to its `end`, and answers what they give and how many they are. The records
/// behind it are left.
pub(crate) fn read_text(alloc: Global, records: &mut Records) -> Result<(Draft, u32), Refused>
    requires { length records.old < 2 ^ 32 - 2 }
    ensures { MatchResult result
        (λ read. IsTextRead records.old records.new read.0 read.1 × IsReady read.0)
        (λ refused. RefusesAt refused records.old) }
{
    let mut row = ByteRecord::new(alloc);
    let periods = read_head(records, &mut row)?;
    let mut draft = Draft::new(alloc, periods);
    let mut place = 2;
    'rows: loop {
        place += 1;
        if !records.read(&mut row)? {
            return Err(Refused::Fault {
                place,
                code: Code::NoEnd,
            });
        }
        if take(alloc, &mut draft, &row, place)? {
            return Ok((draft, place));
        }
    }
}

// Reads a whole text, and answers what it gives and how many records it has up to and with `end`.
fn read_whole(alloc: Global, bytes: &[u8], tail: Tail) -> Result<(Draft, u32), Refused>
    requires { length bytes.now < 2 ^ 32 }
    ensures { MatchResult result
        (λ read. IsWholeRead tail (records_of bytes.now) read.0 read.1)
        (λ refused. IsRefusal refused (read_records tail (records_of bytes.now))) }
{
    let mut records = Records::new(alloc, bytes);
    let (draft, count) = read_text(alloc, &mut records)?;
    match tail {
        Tail::Plan => Ok((draft, count)),
        Tail::Nothing => {
            let mut row = ByteRecord::new(alloc);
            if records.read(&mut row)? {
                return Err(Refused::Fault {
                    place: count + 1,
                    code: Code::AfterEnd,
                });
            }
            Ok((draft, count))
        }
    }
}

/// Reads a network text: its scheme, and how many records it has up to and with `end`.
///
/// Where the bytes are no network text, its first fault is answered: the number of its record, from 1, and what is wrong
/// there. With `Tail::Plan` what stands behind `end` is not read. `Memory` comes where memory ran out. It takes time and
/// memory in proportion to the text and to the nodes over all periods.
pub fn read_scheme(alloc: Global, bytes: &[u8], tail: Tail) -> Result<(Scheme, u32), Refused>
    requires { length bytes.now < 2 ^ 32 }
    ensures { ReadsScheme tail (records_of bytes.now) result }
{
    let (draft, count) = read_whole(alloc, bytes, tail)?;
    let scheme = draft.into_scheme(alloc)?;
    Ok((scheme, count))
}
