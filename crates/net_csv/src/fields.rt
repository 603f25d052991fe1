//! The fields of network texts.

ghost use Rattle.std.specs.Prelude.{◌≡◌, ◌<◌, true, IfOk, length, Some, None};
ghost use Rattle.np_frac.specs.Text.{number};
ghost use Rattle.np_frac.specs.Amount.{amount_of, is_amount};
ghost use Rattle.np_records.specs.Names.{place_in};
ghost use Rattle.np_model.specs.Scheme.Valid.{is_amount_or_infinite};
ghost use Rattle.csv.specs.Records.{fields_of};
ghost use Rattle.np_records.specs.Faults.{Reads};
ghost use Rattle.net_csv.specs.Fields.{amount_fault, upper_fault, upper_of, gain_fault, period_fault, period_of, new_fault, used_fault, fields_fault};

use crate::refused::Code;
use np_frac::{Frac, read_amount};
use np_model::{Upper, is_name};
use np_records::{ByteRecord, NameTable};

/// An amount.
pub(crate) fn amount(bytes: &[u8]) -> Result<Frac, Code>
    ensures value { Reads result (amount_fault bytes.now) (amount_of bytes.now) }
    ensures amount { IfOk result (λ f. is_amount f ≡ true) }
{
    read_amount(bytes).ok_or(Code::BadNumber)
}

/// An upper bound or a width: an amount or `inf`.
pub(crate) fn upper(bytes: &[u8]) -> Result<Upper, Code>
    ensures value { Reads result (upper_fault bytes.now) (upper_of bytes.now) }
    ensures amount { IfOk result (λ u. is_amount_or_infinite u ≡ true) }
{
    if bytes == b"inf".as_slice() {
        return Ok(Upper::Infinite);
    }
    Ok(Upper::Finite(amount(bytes)?))
}

/// A gain: an amount above 0.
pub(crate) fn gain(bytes: &[u8]) -> Result<Frac, Code>
    ensures value { Reads result (gain_fault bytes.now) (amount_of bytes.now) }
    ensures amount { IfOk result (λ f. is_amount f ≡ true) }
{
    let gain = amount(bytes)?;
    if !Frac::whole(0).is_below(gain) {
        return Err(Code::BadGain);
    }
    Ok(gain)
}

/// The period of a supply, or `None` for every period.
pub(crate) fn period(periods: u32, bytes: &[u8]) -> Result<Option<u32>, Code>
    ensures { Reads result (period_fault periods bytes.now) (period_of bytes.now) }
{
    if bytes == b"*".as_slice() {
        return Ok(None);
    }
    match np_records::period(periods, bytes) {
        Some(period) => Ok(Some(period)),
        None => Err(Code::BadPeriod),
    }
}

/// Looks whether a name may be defined.
pub(crate) fn new_name(names: &NameTable, name: &[u8]) -> Result<(), Code>
    ensures { Reads result (new_fault names.now name.now) tt }
{
    if !is_name(name) {
        return Err(Code::BadName);
    }
    if names.index_of(name).is_some() {
        return Err(Code::Repeated);
    }
    Ok(())
}

/// The number of a name that is used.
pub(crate) fn used_name(names: &NameTable, name: &[u8]) -> Result<usize, Code>
    ensures value { Reads result (used_fault names.now name.now) (place_in names.now name.now) }
    ensures within { IfOk result (λ place. place < length names.now) }
{
    names.index_of(name).ok_or(Code::NoSuchName)
}

/// Looks whether the record has this many fields.
pub(crate) fn fields(row: &ByteRecord, count: usize) -> Result<(), Code>
    ensures { Reads result (fields_fault count (fields_of row.now)) tt }
{
    if row.len() != count {
        return Err(Code::FieldCount);
    }
    Ok(())
}
