//! The records of a plan's text, each with what it tells.

ghost use Rattle.std.specs.Prelude.{◌≡◌, ◌<◌, ◌++◌, ◌∷◌, [], IfSome, OnOk, length, option_map, codes};
ghost use Rattle.std.specs.Option.{option_to_list};
ghost use Rattle.np_frac.specs.Fits.{Fits};
ghost use Rattle.np_model.specs.Scheme.Names.{flow_names};
ghost use Rattle.np_records.specs.Texts.{record_text, records_text};
ghost use Rattle.certificates.specs.Steps.Writing.{GrowsBy};
ghost use Rattle.certificates.specs.Writing.{place_word, head_rows, amount_row, number_row, past_row, staged_row, price_row, pivot_row};

use np_frac::{Frac, Memory};
use np_model::{Entry, Overflow, Place, Scheme, Verdict};
use np_records::Text;
use period_expand::Staged;

/// Writes the two records at the head.
pub(crate) fn push_head(text: &mut Text, verdict: Verdict) -> Result<(), Memory>
    requires { text.old.fields ≡ [] }
    ensures { OnOk result (GrowsBy text.old text.new (records_text (head_rows verdict))) }
{
    text.word(b"netplan-plan")?;
    text.word(b"1")?;
    text.end()?;
    text.word(b"verdict")?;
    text.word(verdict.word())?;
    text.end()
}

/// Writes the last record.
pub(crate) fn push_end(text: &mut Text) -> Result<(), Memory>
    requires { text.old.fields ≡ [] }
    ensures { OnOk result (GrowsBy text.old text.new (record_text (codes "end" ∷ []))) }
{
    text.word(b"end")?;
    text.end()
}

// ---- what a verdict claims

/// Writes the record of an amount, where there is one.
pub(crate) fn push_amount(text: &mut Text, word: &[u8], amount: Option<Frac>) -> Result<(), Memory>
    requires { text.old.fields ≡ [] }
    ensures text { OnOk result (GrowsBy text.old text.new (records_text (option_to_list (option_map (amount_row word.now) amount)))) }
    ensures fits { OnOk result (IfSome amount Fits) }
{
    match amount {
        Some(value) => {
            text.word(word)?;
            text.fraction(value)?;
            text.end()
        }
        None => Ok(()),
    }
}

/// Writes the record of a number, where there is one.
pub(crate) fn push_number(text: &mut Text, word: &[u8], number: Option<u32>) -> Result<(), Memory>
    requires { text.old.fields ≡ [] }
    ensures { OnOk result (GrowsBy text.old text.new (records_text (option_to_list (option_map (number_row word.now) number)))) }
{
    match number {
        Some(number) => {
            text.word(word)?;
            text.number(u64::from(number))?;
            text.end()
        }
        None => Ok(()),
    }
}

// Adds the place of an operation to the open record.
fn add_place(text: &mut Text, place: Place) -> Result<(), Memory>
    ensures fields { OnOk result (text.new.fields ≡ text.old.fields ++ place_word place ∷ []) }
    ensures bytes { OnOk result (text.new.bytes ≡ text.old.bytes) }
{
    match place {
        Place::Node(node) => text.number(u64::from(node)),
        Place::Arc(arc) => text.number(u64::from(arc)),
        Place::Turn => text.word(b"turn"),
        Place::Check(row) => text.word(row.word()),
    }
}

// Writes the record of an operation that overflowed, with its row and its place.
fn push_past(text: &mut Text, overflow: &Overflow) -> Result<(), Memory>
    requires { text.old.fields ≡ [] }
    ensures text { OnOk result (GrowsBy text.old text.new (record_text (past_row overflow.now))) }
    ensures fits { OnOk result (Fits overflow.now.past.left × Fits overflow.now.past.right) }
{
    text.word(b"past")?;
    text.word(overflow.row.word())?;
    add_place(text, overflow.place)?;
    text.word(overflow.past.op.word())?;
    text.fraction(overflow.past.left)?;
    text.fraction(overflow.past.right)?;
    text.end()
}

/// Writes the record of an operation that overflowed, where there is one.
pub(crate) fn push_overflow(text: &mut Text, overflow: &Option<Overflow>) -> Result<(), Memory>
    requires { text.old.fields ≡ [] }
    ensures text { OnOk result (GrowsBy text.old text.new (records_text (option_to_list (option_map past_row overflow.now)))) }
    ensures fits { OnOk result (IfSome overflow.now (λ overflow. Fits overflow.past.left × Fits overflow.past.right)) }
{
    match overflow {
        Some(overflow) => push_past(text, overflow),
        None => Ok(()),
    }
}

// ---- flows, prices and rays

/// Writes the amount of a staged arc.
pub(crate) fn push_stage(
    text: &mut Text,
    word: &[u8],
    scheme: &Scheme,
    arc: &Staged,
    amount: Frac,
) -> Result<(), Memory>
    requires { text.old.fields ≡ [] }
    ensures text { OnOk result (GrowsBy text.old text.new (record_text (staged_row word.now (flow_names scheme.now.flows) (arc.now, amount)))) }
    ensures fits { OnOk result (Fits amount) }
{
    text.word(word)?;
    text.word(scheme.flows.name_at(arc.flow as usize))?;
    text.number(u64::from(arc.period))?;
    text.fraction(amount)?;
    text.end()
}

/// Writes the price at a place.
pub(crate) fn push_price(
    text: &mut Text,
    scheme: &Scheme,
    place: usize,
    price: Frac,
) -> Result<(), Memory>
    requires some { 0 < length scheme.now.nodes }
    requires few { place < 20000 }
    requires closed { text.old.fields ≡ [] }
    ensures text { OnOk result (GrowsBy text.old text.new (record_text (price_row scheme.now.nodes (place, price)))) }
    ensures fits { OnOk result (Fits price) }
{
    let count = scheme.nodes.as_slice().len();
    text.word(b"price")?;
    text.word(scheme.nodes.name_at(place % count))?;
    text.number((place / count + 1) as u64)?;
    text.fraction(price)?;
    text.end()
}

// ---- the log

/// Writes the pivot with this number.
pub(crate) fn push_pivot(text: &mut Text, number: usize, entry: &Entry) -> Result<(), Memory>
    requires { text.old.fields ≡ [] }
    ensures { OnOk result (GrowsBy text.old text.new (record_text (pivot_row (number, entry.now)))) }
{
    text.word(b"pivot")?;
    text.number(number as u64)?;
    text.number(u64::from(entry.enter))?;
    text.number(u64::from(entry.leave))?;
    text.word(entry.leave_at.word())?;
    text.end()
}
