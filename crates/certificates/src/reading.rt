//! Reading the records of a plan text.

ghost use Rattle.std.specs.Prelude.{◌≡◌, ◌≤◌, ◌<◌, ◌+◌, ◌-◌, ◌^◌, MatchResult, OnOk, Some, None, is_some, length, drop};
ghost use Rattle.csv.specs.Records.{fields_of};
ghost use Rattle.np_records.specs.Records.{records_of};
ghost use Rattle.certificates.specs.declared.refused.PlanCode.TheVariants as code;
ghost use Rattle.np_records.specs.Faults.{Reads, unless};
ghost use Rattle.certificates.specs.Claims.{outline_of};
ghost use Rattle.certificates.specs.Faults.{end_fault};
ghost use Rattle.certificates.specs.Grammar.{is_header, verdict_in};
ghost use Rattle.certificates.specs.Steps.Texts.{IsHeadRead, IsTextRead, IsWholeRead, IsRowTaken, RefusesAt, RefusesHead};
ghost use Rattle.certificates.specs.Steps.Claims.{IsOutline, HasAmountPlaces};
ghost use Rattle.certificates.specs.Reading.{ReadsPlan};

use crate::claims::Draft;
use crate::fields::fields;
use crate::index::Index;
use crate::refused::{PlanCode, PlanRefused, Stop};
use crate::words::verdict_of;
use np_frac::Memory;
use np_model::{Plan, Scheme, Verdict};
use np_records::{ByteRecord, Records, field, is_kind};
use std::alloc::Global;

// Whether the record is the first one of a plan text.
fn is_header(row: &ByteRecord) -> bool
    ensures { result ≡ is_header (fields_of row.now) }
{
    row.len() == 2 && is_kind(row, b"netplan-plan") && field(row, 1) == b"1".as_slice()
}

// The verdict that the record gives.
fn verdict_in(row: &ByteRecord) -> Option<Verdict>
    ensures { result ≡ verdict_in (fields_of row.now) }
{
    if row.len() != 2 || !is_kind(row, b"verdict") {
        return None;
    }
    verdict_of(field(row, 1))
}

// Passes over so many records.
fn pass_over(alloc: Global, records: &mut Records<'_>, count: u32) -> Result<(), Memory>
    ensures { OnOk result (records.new ≡ drop count records.old) }
{
    let mut row = ByteRecord::new(alloc);
    for _place in 0..count {
        records.read(&mut row)?;
    }
    Ok(())
}

// Reads the two records at the head, behind so many others, and answers the verdict.
fn read_head(records: &mut Records, row: &mut ByteRecord, skip: u32) -> Result<Verdict, PlanRefused>
    requires { skip + length records.old < 2 ^ 32 - 2 }
    ensures { MatchResult result (λ verdict. IsHeadRead records.old records.new verdict) (λ refused. RefusesHead refused skip records.old) }
{
    if !records.read(row)? {
        return Err(PlanRefused::Fault {
            place: skip + 1,
            code: PlanCode::NoEnd,
        });
    }
    if !is_header(row) {
        return Err(PlanRefused::Fault {
            place: skip + 1,
            code: PlanCode::Header,
        });
    }
    if !records.read(row)? {
        return Err(PlanRefused::Fault {
            place: skip + 2,
            code: PlanCode::NoEnd,
        });
    }
    match verdict_in(row) {
        Some(verdict) => Ok(verdict),
        None => Err(PlanRefused::Fault {
            place: skip + 2,
            code: PlanCode::Header,
        }),
    }
}

// Looks whether `end` is as it has to be.
fn take_end(draft: &Draft, verdict: Verdict, row: &ByteRecord) -> Result<(), PlanCode>
    ensures { Reads result (end_fault verdict draft.now (fields_of row.now)) tt }
{
    fields(row, 1)?;
    if draft.is_complete(verdict) {
        return Ok(());
    }
    Err(PlanCode::Missing)
}

// Takes the record with this number, and tells whether it was `end`.
fn take(
    draft: &mut Draft,
    index: &Index,
    verdict: Verdict,
    row: &ByteRecord,
    place: u32,
) -> Result<bool, PlanRefused>
    requires outline { IsOutline index.now }
    requires places { HasAmountPlaces index.now draft.old }
    ensures { IsRowTaken result index.now verdict draft.old draft.new (fields_of row.now) place }
{
    if is_kind(row, b"end") {
        return match take_end(draft, verdict, row) {
            Ok(()) => Ok(true),
            Err(code) => Err(PlanRefused::Fault { place, code }),
        };
    }
    match draft.take(index, row) {
        Ok(()) => Ok(false),
        Err(Stop::Fault(code)) => Err(PlanRefused::Fault { place, code }),
        Err(Stop::Memory) => Err(PlanRefused::Memory),
    }
}

// Reads the records of a plan text, behind so many others, up to its `end`, and answers its verdict, its claims, and the
// number of its last record.
fn read_text(
    alloc: Global,
    records: &mut Records,
    index: &Index,
    skip: u32,
) -> Result<(Verdict, Draft, u32), PlanRefused>
    requires few { skip + length records.old < 2 ^ 32 - 2 }
    requires outline { IsOutline index.now }
    ensures { MatchResult result
        (λ read. IsTextRead skip index.now records.old records.new read.0 read.1 read.2)
        (λ refused. RefusesAt refused skip index.now records.old) }
{
    let mut row = ByteRecord::new(alloc);
    let verdict = read_head(records, &mut row, skip)?;
    let mut draft = Draft::new(alloc, index)?;
    let mut place = skip + 2;
    'rows: loop {
        place += 1;
        if !records.read(&mut row)? {
            return Err(PlanRefused::Fault {
                place,
                code: PlanCode::NoEnd,
            });
        }
        if take(&mut draft, index, verdict, &row, place)? {
            return Ok((verdict, draft, place));
        }
    }
}

// Reads a whole plan text.
fn read_whole(
    alloc: Global,
    bytes: &[u8],
    skip: u32,
    index: &Index,
) -> Result<(Verdict, Draft), PlanRefused>
    requires size { length bytes.now < 2 ^ 32 }
    requires skipped { skip ≤ length (records_of bytes.now) }
    requires outline { IsOutline index.now }
    ensures { MatchResult result
        (λ read. IsWholeRead skip index.now (drop skip (records_of bytes.now)) read.0 read.1)
        (λ refused. RefusesAt refused skip index.now (drop skip (records_of bytes.now))) }
{
    let mut records = Records::new(alloc, bytes);
    pass_over(alloc, &mut records, skip)?;
    let (verdict, draft, place) = read_text(alloc, &mut records, index, skip)?;
    let mut row = ByteRecord::new(alloc);
    if records.read(&mut row)? {
        return Err(PlanRefused::Fault {
            place: place + 1,
            code: PlanCode::AfterEnd,
        });
    }
    Ok((verdict, draft))
}

/// Reads the plan text that stands behind so many records: the plan, for a scheme.
///
/// There are at least so many records, as behind a network text those of that text, and fewer than 2^32 bytes.
///
/// Where the records are no plan text, their first fault is answered: the number of its record among all records of the
/// bytes, from 1, and what is wrong there. Of the parts that the verdict does not use the plan has nothing. `Memory` comes
/// where memory ran out. It takes time and memory in proportion to the text, and to the nodes and flows over all periods.
pub fn read_plan(
    alloc: Global,
    bytes: &[u8],
    skip: u32,
    scheme: &Scheme,
) -> Result<Plan, PlanRefused>
    requires size { length bytes.now < 2 ^ 32 }
    requires skipped { skip ≤ length (records_of bytes.now) }
    ensures { ReadsPlan skip scheme.now (drop skip (records_of bytes.now)) result }
{
    let index = Index::new(alloc, scheme)?;
    let (verdict, draft) = read_whole(alloc, bytes, skip, &index)?;
    let plan = draft.into_plan(alloc, verdict, scheme)?;
    Ok(plan)
}
