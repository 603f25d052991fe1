//! Amounts by name and period.

ghost use Rattle.std.specs.Prelude.{◌≡◌, ◌+◌, ◌-◌, ◌*◌, ◌++◌, ◌∷◌, ◌^◌, ◌<◌, ◌≤◌, [], None, IfOk, OnOk, length, replicate};
ghost use Rattle.csv.specs.Records.{fields_of};
ghost use Rattle.np_frac.specs.Ratio.{zero_ratio};
ghost use Rattle.np_records.specs.Records.{field_of};
ghost use Rattle.np_records.specs.Names.{place_in};
ghost use Rattle.np_records.specs.Faults.{Reads, first_fault};
ghost use Rattle.certificates.specs.Fields.{fields_fault, used_fault, period_fault};
ghost use Rattle.certificates.specs.Faults.{put_fault, place_named};
ghost use Rattle.certificates.specs.Grammar.{amount_at, staged_amounts, node_amounts};
ghost use Rattle.certificates.specs.Steps.Amounts.{amount_in, period_amounts};
ghost use Rattle.certificates.specs.Steps.Claims.{Becomes, with_amount};

use crate::fields::{fields, fraction, is_given, is_new, period_up_to, used_name};
use crate::refused::PlanCode;
use np_frac::{Frac, Memory};
use np_model::{FlowKind, Fracs, Scheme};
use np_records::{ByteRecord, NameTable, field};
use std::alloc::Global;
use std::vec;

// ---- while records are read

// The place of the name of a record in the period of the record.
fn place(names: &NameTable, number: usize, last: u32, row: &ByteRecord) -> Result<usize, PlanCode>
    requires named { number ≡ place_in names.now (field_of (fields_of row.now) 1) }
    requires within { number < length names.now }
    requires few { last ≤ 20000 }
    requires few_names { length names.now < 2 ^ 32 }
    ensures value { Reads result (period_fault last (field_of (fields_of row.now) 2)) (place_named names.now (fields_of row.now)) }
    ensures within { IfOk result (λ place. place < last * length names.now) }
{
    let period = period_up_to(last, field(row, 2))? as usize;
    Ok((period - 1) * names.len() + number)
}

/// The number of the name of a record with an amount.
pub(crate) fn named(names: &NameTable, row: &ByteRecord) -> Result<usize, PlanCode>
    ensures value { Reads result (first_fault (fields_fault 4 (fields_of row.now) ∷ used_fault names.now (field_of (fields_of row.now) 1) ∷ []))
        (place_in names.now (field_of (fields_of row.now) 1)) }
    ensures within { IfOk result (λ number. number < length names.now) }
{
    fields(row, 4)?;
    used_name(names, field(row, 1))
}

/// An amount for each name in each period, `None` where none is given.
pub(crate) fn no_amounts(
    alloc: Global,
    periods: u32,
    names: &NameTable,
) -> Result<Vec<Option<Frac>>, Memory>
    requires few { periods ≤ 20000 }
    requires few_names { length names.now < 2 ^ 32 }
    ensures { IfOk result (λ given. given.items ≡ replicate (periods * length names.now) None) }
{
    Ok(vec![in alloc; None; names.len() * periods as usize]?)
}

/// Takes the amount of a record for the name with this number.
pub(crate) fn put(
    given: &mut Vec<Option<Frac>>,
    names: &NameTable,
    number: usize,
    last: u32,
    row: &ByteRecord,
) -> Result<(), PlanCode>
    requires named { number ≡ place_in names.now (field_of (fields_of row.now) 1) }
    requires within { number < length names.now }
    requires few { last ≤ 20000 }
    requires few_names { length names.now < 2 ^ 32 }
    requires places { last * length names.now ≤ length given.old.items }
    ensures { Becomes result (put_fault names.now last given.old.items (fields_of row.now)) given.new.items
        (with_amount names.now given.old.items (fields_of row.now)) }
{
    let place = place(names, number, last, row)?;
    let amount = fraction(field(row, 3));
    is_given(amount.is_some())?;
    is_new(given[place].is_some())?;
    given[place] = amount;
    Ok(())
}

// ---- of a plan

/// No amounts.
pub(crate) fn no_fracs(alloc: Global) -> Fracs
    ensures { result ≡ [] }
{
    Fracs {
        items: Vec::new(alloc),
    }
}

// The amount at a place, 0 where none is given.
fn amount_at(given: &[Option<Frac>], place: usize) -> Frac
    ensures { result ≡ amount_at given.now place }
{
    match given.get(place) {
        Some(amount) => amount.unwrap_or(Frac::whole(0)),
        None => Frac::whole(0),
    }
}

// The amount of a flow in a period, where it has an arc there.
fn amount_in(
    given: &[Option<Frac>],
    scheme: &Scheme,
    period: u32,
    number: usize,
    kind: &FlowKind,
) -> Option<Frac>
    requires first { 1 ≤ period }
    requires last { period ≤ scheme.now.periods }
    requires number { number < length scheme.now.flows }
    ensures { result ≡ amount_in given.now scheme.now period number kind.now }
{
    if kind.periods(scheme.periods) < period {
        return None;
    }
    let count = scheme.flows.as_slice().len();
    let place = (period as usize - 1) * count + number;
    Some(amount_at(given, place))
}

// Appends the amounts of the flows in a period.
fn push_period(
    items: &mut Vec<Frac>,
    scheme: &Scheme,
    given: &[Option<Frac>],
    period: u32,
) -> Result<(), Memory>
    requires first { 1 ≤ period }
    requires last { period ≤ scheme.now.periods }
    ensures { OnOk result (items.new.items ≡ items.old.items ++ period_amounts given.now scheme.now period) }
{
    for (number, flow) in scheme.flows.as_slice().iter().enumerate() {
        match amount_in(given, scheme, period, number, &flow.kind) {
            Some(amount) => items.push(amount)?,
            None => {}
        }
    }
    Ok(())
}

/// The amounts of the staged arcs.
pub(crate) fn staged_amounts(
    alloc: Global,
    scheme: &Scheme,
    given: &[Option<Frac>],
) -> Result<Fracs, Memory>
    ensures { IfOk result (λ amounts. amounts ≡ staged_amounts scheme.now given.now) }
{
    let mut items = Vec::new(alloc);
    for before in 0..scheme.periods {
        push_period(&mut items, scheme, given, before + 1)?;
    }
    Ok(Fracs { items })
}

/// The amounts of the nodes in each period.
pub(crate) fn node_amounts(alloc: Global, given: &[Option<Frac>]) -> Result<Fracs, Memory>
    ensures { IfOk result (λ amounts. amounts ≡ node_amounts given.now) }
{
    let items = given
        .iter()
        .map(|amount| amount.unwrap_or(Frac::whole(0)))
        .collect(alloc)?;
    Ok(Fracs { items })
}
