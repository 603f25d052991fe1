//! Writing a plan as a plan text.

ghost use Rattle.std.specs.Prelude.{◌≡◌, ◌≤◌, ◌||◌, [], IfOk, IfSome, OnOk, IsTrue, length, map};
ghost use Rattle.std.specs.List.{All, zip, enumerate_from};
ghost use Rattle.np_frac.specs.Fits.{Fits};
ghost use Rattle.np_records.specs.Records.{records_of};
ghost use Rattle.np_records.specs.Texts.{records_text};
ghost use Rattle.np_model.specs.Scheme.Fits.{PlanFits};
ghost use Rattle.np_model.specs.Scheme.Names.{flow_names};
ghost use Rattle.np_model.specs.Scheme.Plans.{staged};
ghost use Rattle.certificates.specs.Reading.{IsReadAs};
ghost use Rattle.certificates.specs.Steps.Writing.{GrowsBy};
ghost use Rattle.certificates.specs.Writing.{staged_row, staged_rows, price_row, price_rows, pivot_row, log_rows, part_if, list_if, claim_rows, shown_rows, plan_rows, told, HasFractions};

use crate::rows::{
    push_amount, push_end, push_head, push_number, push_overflow, push_pivot, push_price,
    push_stage,
};
use np_frac::{Frac, Memory};
use np_model::{Entry, Log, Parts, Plan, Scheme};
use np_records::Text;
use period_expand::{Staged, expand_periods};
use std::alloc::Global;

// ---- what a verdict claims

// A part, where it is printed.
fn part_if<T: Drop>(printed: bool, part: Option<T>) -> Option<T>
    ensures { result ≡ part_if printed part }
{
    if printed { part } else { None }
}

// Writes what a verdict claims: its cost, its gap, the arc or the operation that overflowed.
fn push_claim(text: &mut Text, parts: Parts, plan: &Plan) -> Result<(), Memory>
    requires { text.old.fields ≡ [] }
    ensures text { OnOk result (GrowsBy text.old text.new (records_text (claim_rows parts plan.now))) }
    ensures amount { OnOk result (IfSome (part_if (parts.cost || parts.gap) plan.now.amount) Fits) }
    ensures operands { OnOk result (IfSome (part_if parts.overflow plan.now.overflow) (λ overflow. Fits overflow.past.left × Fits overflow.past.right)) }
{
    push_amount(text, b"cost", part_if(parts.cost, plan.amount))?;
    push_amount(text, b"gap", part_if(parts.gap, plan.amount))?;
    push_number(text, b"arc", part_if(parts.arc, plan.arc))?;
    push_overflow(text, &part_if(parts.overflow, plan.overflow))
}

// ---- flows, prices and rays

// Writes the amounts of staged arcs.
fn push_stages(
    text: &mut Text,
    word: &[u8],
    scheme: &Scheme,
    arcs: &[Staged],
    amounts: &[Frac],
) -> Result<(), Memory>
    requires paired { length amounts.now ≡ length arcs.now }
    requires closed { text.old.fields ≡ [] }
    ensures text { OnOk result (GrowsBy text.old text.new (records_text (map (staged_row word.now (flow_names scheme.now.flows)) (zip arcs.now amounts.now)))) }
    ensures fits { OnOk result (All Fits amounts.now) }
{
    for (place, arc) in arcs.iter().enumerate() {
        push_stage(text, word, scheme, arc, amounts[place])?;
    }
    Ok(())
}

// Writes the amounts of all staged arcs, where they are printed.
fn push_staged(
    alloc: Global,
    text: &mut Text,
    printed: bool,
    word: &[u8],
    scheme: &Scheme,
    amounts: &[Frac],
) -> Result<(), Memory>
    requires all { IsTrue printed → length amounts.now ≡ length (staged scheme.now) }
    requires closed { text.old.fields ≡ [] }
    ensures text { OnOk result (GrowsBy text.old text.new (records_text (list_if printed (staged_rows word.now scheme.now amounts.now)))) }
    ensures fits { OnOk result (All Fits (list_if printed amounts.now)) }
{
    if !printed {
        return Ok(());
    }
    let expanded = expand_periods(alloc, scheme)?;
    push_stages(text, word, scheme, expanded.staged.as_slice(), amounts)
}

// Writes prices.
fn push_prices(text: &mut Text, scheme: &Scheme, prices: &[Frac]) -> Result<(), Memory>
    requires all { length prices.now ≡ length scheme.now.supply }
    requires closed { text.old.fields ≡ [] }
    ensures text { OnOk result (GrowsBy text.old text.new (records_text (price_rows scheme.now prices.now))) }
    ensures fits { OnOk result (All Fits prices.now) }
{
    for (place, price) in prices.iter().enumerate() {
        push_price(text, scheme, place, *price)?;
    }
    Ok(())
}

// Writes the prices, where they are printed.
fn push_all_prices(
    text: &mut Text,
    printed: bool,
    scheme: &Scheme,
    prices: &[Frac],
) -> Result<(), Memory>
    requires all { IsTrue printed → length prices.now ≡ length scheme.now.supply }
    requires closed { text.old.fields ≡ [] }
    ensures text { OnOk result (GrowsBy text.old text.new (records_text (list_if printed (price_rows scheme.now prices.now)))) }
    ensures fits { OnOk result (All Fits (list_if printed prices.now)) }
{
    if !printed {
        return Ok(());
    }
    push_prices(text, scheme, prices)
}

// Writes what a verdict shows: its flows, its prices and its ray.
fn push_shown(
    alloc: Global,
    text: &mut Text,
    parts: Parts,
    scheme: &Scheme,
    plan: &Plan,
) -> Result<(), Memory>
    requires flows { IsTrue parts.flows → length plan.now.flows ≡ length (staged scheme.now) }
    requires prices { IsTrue parts.prices → length plan.now.prices ≡ length scheme.now.supply }
    requires ray { IsTrue parts.ray → length plan.now.ray ≡ length (staged scheme.now) }
    requires closed { text.old.fields ≡ [] }
    ensures text { OnOk result (GrowsBy text.old text.new (records_text (shown_rows parts scheme.now plan.now))) }
    ensures flows { OnOk result (All Fits (list_if parts.flows plan.now.flows)) }
    ensures prices { OnOk result (All Fits (list_if parts.prices plan.now.prices)) }
    ensures ray { OnOk result (All Fits (list_if parts.ray plan.now.ray)) }
{
    let flows = plan.flows.as_slice();
    push_staged(alloc, text, parts.flows, b"flow", scheme, flows)?;
    let prices = plan.prices.as_slice();
    push_all_prices(text, parts.prices, scheme, prices)?;
    let ray = plan.ray.as_slice();
    push_staged(alloc, text, parts.ray, b"ray", scheme, ray)
}

// ---- the log

// Writes the pivots, numbered from 1.
fn push_pivots(text: &mut Text, entries: &[Entry]) -> Result<(), Memory>
    requires few { length entries.now ≤ 1000000 }
    requires closed { text.old.fields ≡ [] }
    ensures { OnOk result (GrowsBy text.old text.new (records_text (map pivot_row (enumerate_from 1 entries.now)))) }
{
    for (before, entry) in entries.iter().enumerate() {
        push_pivot(text, before + 1, entry)?;
    }
    Ok(())
}

// Writes the log where it is asked for.
fn push_log(text: &mut Text, log: &Log, asked: bool) -> Result<(), Memory>
    requires few { length log.now.entries ≤ 1000000 }
    requires closed { text.old.fields ≡ [] }
    ensures { OnOk result (GrowsBy text.old text.new (records_text (list_if asked (log_rows log.now)))) }
{
    if !asked {
        return Ok(());
    }
    push_number(text, b"turned", log.turned)?;
    push_pivots(text, log.entries.as_slice())
}

// ---- the whole

/// The text of a plan: of its parts those that its verdict prints, and with `log` its pivots.
///
/// Behind the verdict come its cost, its gap, the arc at which the budget ended or the operation that overflowed; then a
/// flow for each staged arc, a price for each node in each period, and a ray for each staged arc, also where they are 0;
/// and then what the log tells. Read again, behind any records, it gives these parts.
///
/// The plan has to fit the scheme, as each plan does that `read_plan` answers: what its verdict prints is there, `flows`
/// and `ray` by staged arc, `prices` by node and period as the scheme's supply, and its numbers have at most 9 digits, its
/// log at most a million pivots. `Memory` comes where memory ran out. It takes time and memory in proportion to the text
/// and to the staged arcs with their bands.
pub fn plan_text(alloc: Global, scheme: &Scheme, plan: &Plan, log: bool) -> Result<Vec<u8>, Memory>
    requires fits { PlanFits scheme.now plan.now }
    ensures text { IfOk result (λ bytes. bytes.items ≡ records_text (plan_rows scheme.now plan.now log)) }

    // Read again, behind so many records or none, it has no fault, and it is that of what it tells of the plan.
    ensures read_back { IfOk result (λ bytes. IsReadAs scheme.now (records_of bytes.items) (told plan.now log)) }

    // What it tells fits fractions: so it can be read.
    ensures fractions { OnOk result (HasFractions (told plan.now log)) }
{
    let parts = plan.verdict.parts();
    let mut text = Text::new(alloc);
    push_head(&mut text, plan.verdict)?;
    push_claim(&mut text, parts, plan)?;
    push_shown(alloc, &mut text, parts, scheme, plan)?;
    push_log(&mut text, &plan.log, log)?;
    push_end(&mut text)?;
    text.into_bytes()
}
