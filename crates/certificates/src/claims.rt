//! What the records of a plan text claim, one record after the other.

ghost use Rattle.std.specs.Prelude.{◌≡◌, ◌++◌, ◌∷◌, ◌≤◌, [], IfOk, OnOk, length};
ghost use Rattle.csv.specs.Records.{fields_of};
ghost use Rattle.np_records.specs.Records.{field_of};
ghost use Rattle.certificates.specs.Fields.{fraction_in, overflow_in, entry_in};
ghost use Rattle.np_records.specs.Rows.{whole_in};
ghost use Rattle.certificates.specs.Claims.{claims_of};
ghost use Rattle.certificates.specs.Faults.{once_fault, amount_fault, pivot_fault, is_next, last_for, record_fault, is_there, is_complete};
ghost use Rattle.std.specs.Option.{option_to_list};
ghost use Rattle.certificates.specs.Steps.Claims.{IsOutline, HasAmountPlaces, Becomes, ClaimsBecome, with_amount, with_record};

use crate::amounts::{named, no_amounts, put};
use crate::fields::{entry, fields, fraction, is_given, is_new, overflow};
use crate::index::Index;
use crate::refused::{PlanCode, Stop};
use np_frac::{Frac, Memory};
use np_model::{Entry, Overflow, Verdict};
use np_records::{ByteRecord, field, is_kind, whole};
use std::alloc::Global;
use std::marker::Model;

/// What the records so far claim: each part once, with an amount for each flow and each node in each period.
#[derive(Drop)]
pub(crate) struct Draft {
    pub cost: Option<Frac>,
    pub gap: Option<Frac>,
    pub arc: Option<u32>,
    pub overflow: Option<Overflow>,
    pub flows: Vec<Option<Frac>>,
    pub prices: Vec<Option<Frac>>,
    pub ray: Vec<Option<Frac>>,
    pub turned: Option<u32>,
    pub entries: Vec<Entry>,
}

impl Model for Draft {
    ghost use Rattle.certificates.specs.Claims.{Claims};

    ghost Value = { Claims };

    ghost view = { λ s. record {
      cost = s.cost;
      gap = s.gap;
      arc = s.arc;
      overflow = s.overflow;
      flows = s.flows.items;
      prices = s.prices.items;
      ray = s.ray.items;
      turned = s.turned;
      entries = s.entries.items;
    } };
}

// A pivot's number is one more than the last.
fn is_next(count: usize, bytes: &[u8]) -> bool
    requires { count ≤ 1000000 }
    ensures { result ≡ is_next count bytes.now }
{
    match whole(bytes) {
        Some(number) => number as usize == count + 1 && number <= 1_000_000,
        None => false,
    }
}

// Takes what a record with this many fields gives for a part that is claimed at most once.
fn put_once<T: Drop>(
    part: &mut Option<T>,
    given: Option<T>,
    count: usize,
    row: &ByteRecord,
) -> Result<(), PlanCode>
    ensures { Becomes result (once_fault count given part.old (fields_of row.now)) part.new given }
{
    fields(row, count)?;
    is_given(given.is_some())?;
    is_new(part.is_some())?;
    *part = given;
    Ok(())
}

// A part is claimed, if it is asked for.
fn is_there<T>(asked: bool, part: &Option<T>) -> bool
    ensures { result ≡ is_there asked part.now }
{
    !asked || part.is_some()
}

impl Draft {
    /// Nothing claimed.
    pub(crate) fn new(alloc: Global, index: &Index) -> Result<Draft, Memory>
        requires { IsOutline index.now }
        ensures { IfOk result (λ draft. draft ≡ claims_of index.now []) }
    {
        let flows = no_amounts(alloc, index.periods, &index.flows)?;
        let prices = no_amounts(alloc, index.periods, &index.nodes)?;
        let ray = no_amounts(alloc, index.periods, &index.flows)?;
        Ok(Draft {
            cost: None,
            gap: None,
            arc: None,
            overflow: None,
            flows,
            prices,
            ray,
            turned: None,
            entries: Vec::new(alloc),
        })
    }

    // Takes a cost.
    fn cost(&mut self, row: &ByteRecord) -> Result<(), Stop>
        ensures { ClaimsBecome result (once_fault 2 (fraction_in (field_of (fields_of row.now) 1)) self.old.cost (fields_of row.now)) self.new
            (record self.old { cost = fraction_in (field_of (fields_of row.now) 1) }) }
    {
        put_once(&mut self.cost, fraction(field(row, 1)), 2, row)?;
        Ok(())
    }

    // Takes a gap.
    fn gap(&mut self, row: &ByteRecord) -> Result<(), Stop>
        ensures { ClaimsBecome result (once_fault 2 (fraction_in (field_of (fields_of row.now) 1)) self.old.gap (fields_of row.now)) self.new
            (record self.old { gap = fraction_in (field_of (fields_of row.now) 1) }) }
    {
        put_once(&mut self.gap, fraction(field(row, 1)), 2, row)?;
        Ok(())
    }

    // Takes the arc at which the budget ended.
    fn arc(&mut self, row: &ByteRecord) -> Result<(), Stop>
        ensures { ClaimsBecome result (once_fault 2 (whole_in (field_of (fields_of row.now) 1)) self.old.arc (fields_of row.now)) self.new
            (record self.old { arc = whole_in (field_of (fields_of row.now) 1) }) }
    {
        put_once(&mut self.arc, whole(field(row, 1)), 2, row)?;
        Ok(())
    }

    // Takes the operation that overflowed.
    fn past(&mut self, row: &ByteRecord) -> Result<(), Stop>
        ensures { ClaimsBecome result (once_fault 6 (overflow_in (fields_of row.now)) self.old.overflow (fields_of row.now)) self.new
            (record self.old { overflow = overflow_in (fields_of row.now) }) }
    {
        put_once(&mut self.overflow, overflow(row), 6, row)?;
        Ok(())
    }

    // Takes the number of pivots before the second stage.
    fn turned(&mut self, row: &ByteRecord) -> Result<(), Stop>
        ensures { ClaimsBecome result (once_fault 2 (whole_in (field_of (fields_of row.now) 1)) self.old.turned (fields_of row.now)) self.new
            (record self.old { turned = whole_in (field_of (fields_of row.now) 1) }) }
    {
        put_once(&mut self.turned, whole(field(row, 1)), 2, row)?;
        Ok(())
    }

    // Adds a pivot.
    fn push_entry(&mut self, entry: Entry) -> Result<(), Memory>
        ensures { OnOk result (self.new ≡ record self.old { entries = self.old.entries ++ entry ∷ [] }) }
    {
        self.entries.push(entry)?;
        Ok(())
    }

    // Takes a pivot.
    fn pivot(&mut self, row: &ByteRecord) -> Result<(), Stop>
        requires { length self.old.entries ≤ 1000000 }
        ensures { ClaimsBecome result (pivot_fault (length self.old.entries) (fields_of row.now)) self.new
            (record self.old { entries = self.old.entries ++ option_to_list (entry_in (fields_of row.now)) }) }
    {
        fields(row, 5)?;
        is_given(is_next(self.entries.len(), field(row, 1)))?;
        match entry(row) {
            Some(entry) => Ok(self.push_entry(entry)?),
            None => Err(Stop::Fault(PlanCode::BadNumber)),
        }
    }

    // Takes the amount of a flow.
    fn flow(&mut self, index: &Index, row: &ByteRecord) -> Result<(), Stop>
        requires outline { IsOutline index.now }
        requires places { HasAmountPlaces index.now self.old }
        ensures { ClaimsBecome result (amount_fault index.now.flows (last_for index.now (fields_of row.now)) self.old.flows (fields_of row.now)) self.new
            (record self.old { flows = with_amount index.now.flows self.old.flows (fields_of row.now) }) }
    {
        let number = named(&index.flows, row)?;
        put(
            &mut self.flows,
            &index.flows,
            number,
            index.last[number],
            row,
        )?;
        Ok(())
    }

    // Takes the price of a node.
    fn price(&mut self, index: &Index, row: &ByteRecord) -> Result<(), Stop>
        requires outline { IsOutline index.now }
        requires places { HasAmountPlaces index.now self.old }
        ensures { ClaimsBecome result (amount_fault index.now.nodes index.now.periods self.old.prices (fields_of row.now)) self.new
            (record self.old { prices = with_amount index.now.nodes self.old.prices (fields_of row.now) }) }
    {
        let number = named(&index.nodes, row)?;
        put(&mut self.prices, &index.nodes, number, index.periods, row)?;
        Ok(())
    }

    // Takes the amount of a flow along the ray.
    fn ray(&mut self, index: &Index, row: &ByteRecord) -> Result<(), Stop>
        requires outline { IsOutline index.now }
        requires places { HasAmountPlaces index.now self.old }
        ensures { ClaimsBecome result (amount_fault index.now.flows (last_for index.now (fields_of row.now)) self.old.ray (fields_of row.now)) self.new
            (record self.old { ray = with_amount index.now.flows self.old.ray (fields_of row.now) }) }
    {
        let number = named(&index.flows, row)?;
        put(&mut self.ray, &index.flows, number, index.last[number], row)?;
        Ok(())
    }

    /// Takes a record of the body, other than `end`.
    pub(crate) fn take(&mut self, index: &Index, row: &ByteRecord) -> Result<(), Stop>
        requires outline { IsOutline index.now }
        requires places { HasAmountPlaces index.now self.old }
        ensures { ClaimsBecome result (record_fault index.now self.old (fields_of row.now)) self.new (with_record index.now self.old (fields_of row.now)) }
    {
        if is_kind(row, b"cost") {
            return self.cost(row);
        }
        if is_kind(row, b"gap") {
            return self.gap(row);
        }
        if is_kind(row, b"arc") {
            return self.arc(row);
        }
        if is_kind(row, b"past") {
            return self.past(row);
        }
        if is_kind(row, b"flow") {
            return self.flow(index, row);
        }
        if is_kind(row, b"price") {
            return self.price(index, row);
        }
        if is_kind(row, b"ray") {
            return self.ray(index, row);
        }
        if is_kind(row, b"turned") {
            return self.turned(row);
        }
        if is_kind(row, b"pivot") {
            return self.pivot(row);
        }
        Err(Stop::Fault(PlanCode::Unknown))
    }

    /// Whether the verdict has all that it cannot do without.
    pub(crate) fn is_complete(&self, verdict: Verdict) -> bool
        ensures { result ≡ is_complete verdict self.now }
    {
        let parts = verdict.parts();
        is_there(parts.cost, &self.cost)
            && is_there(parts.gap, &self.gap)
            && is_there(parts.arc, &self.arc)
            && is_there(parts.overflow, &self.overflow)
    }
}
