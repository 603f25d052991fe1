//! All arcs that may enter, in cyclic order.

ghost use Rattle.std.specs.Prelude.{◌≡◌, ℕ, ◌-◌, ◌<◌, ◌≤◌, ◌⊎◌, ◌↔◌, ◌++◌, ◌∷◌, [], if◌then◌else◌, length, filter, IfOk, OnOk, IfErr, MatchResult};
ghost use Rattle.std.specs.List.{range_with_len};
ghost use Rattle.gain_graphs.specs.Arcs.{IsIn};
ghost use Rattle.np_model.specs.Basis.Moves.{IsEligible};
ghost use Rattle.np_model.specs.Basis.Phases.{phase_net, real_arcs};
ghost use Rattle.arc_pricing.specs.Prices.{is_eligible};
ghost use Rattle.arc_pricing.specs.Candidates.{cyclic, values_by, PriceFits, AreCandidates, IsTested, IsFirstOverflow, IsCause};

use crate::prices::{gains, is_open, price};
use crate::refusal::PriceRefusal;
use np_frac::{Frac, Memory};
use np_model::{FullNet, Mark, Nums, Overflow, Phase};
use std::alloc::Global;
use std::thread::Threads;

// Whether a real arc may enter. An arc that is basic or fixed is not priced.
fn may_enter(
    full: &FullNet,
    phase: Phase,
    potentials: &[Frac],
    marks: &[Mark],
    arc: u32,
) -> Result<bool, Overflow>
    requires is_real { arc < real_arcs full.now }
    requires one_mark_each { length marks.now ≡ real_arcs full.now }
    requires one_potential_each { length potentials.now ≡ length full.now.net.supply }
    ensures { IsTested (phase_net phase full.now) (real_arcs full.now) (values_by marks.now potentials.now) arc result }
{
    let mark = marks[arc as usize];
    if mark == Mark::Basic || !is_open(full, arc) {
        return Ok(false);
    }
    let ends = &full.ends(arc);
    let first = potentials[ends.tail() as usize];
    let second = potentials[ends.head() as usize];
    match price(full, phase, arc, first, second) {
        Ok(reduced) => Ok(gains(mark, reduced)),
        Err(overflow) => Err(overflow),
    }
}

// An empty list with room for so many numbers.
fn with_room(alloc: Global, count: usize) -> Result<Vec<u32>, Memory>
    ensures { IfOk result (λ list. list.items ≡ []) }
{
    let list = Vec::with_capacity(alloc, count)?;
    Ok(list)
}

// Appends the arc where it may enter.
fn keep(found: &mut Vec<u32>, arc: u32, may_enter: bool) -> Result<(), Memory>
    ensures { OnOk result (found.new.items ≡ found.old.items ++ (if may_enter then arc ∷ [] else [])) }
{
    if may_enter {
        found.push(arc)?;
    }
    Ok(())
}

// Appends those of the real arcs from `start` up to `end` that may enter.
fn scan(
    full: &FullNet,
    phase: Phase,
    potentials: &[Frac],
    marks: &[Mark],
    start: u32,
    end: u32,
    found: &mut Vec<u32>,
) -> Result<(), PriceRefusal>
    requires in_order { start ≤ end }
    requires are_real { end ≤ real_arcs full.now }
    requires one_mark_each { length marks.now ≡ real_arcs full.now }
    requires one_potential_each { length potentials.now ≡ length full.now.net.supply }
    ensures eligible { OnOk result (found.new.items ≡ found.old.items
        ++ filter (is_eligible (phase_net phase full.now) (real_arcs full.now) (values_by marks.now potentials.now)) (range_with_len start (end - start))) }
    ensures fit { OnOk result ((a : ℕ) → start ≤ a → a < end → PriceFits (phase_net phase full.now) (real_arcs full.now) (values_by marks.now potentials.now) a) }
    ensures cause { IfErr result (IsCause (phase_net phase full.now) (real_arcs full.now) (values_by marks.now potentials.now) (range_with_len start (end - start))) }
{
    for arc in start..end {
        match may_enter(full, phase, potentials, marks, arc) {
            Ok(enters) => keep(found, arc, enters)?,
            Err(overflow) => return Err(PriceRefusal::Past(overflow)),
        }
    }
    Ok(())
}

/// The arcs that may enter the basis, in cyclic order from `from` on: from, from + 1, and so on up to the last real arc, and then those
/// from 0 up to `from`. There is a potential for each node and a mark for each real arc. An arc is listed where its lower bound is below
/// its upper one, and it stands at its lower bound with a price below 0, or at its upper bound with one above 0.
///
/// [`PriceRefusal::Past`] exactly where the price (row A2) of an arc overflows that has its lower bound below its upper one and is not
/// basic: the first such arc in this order is told. Basic arcs and fixed ones are not priced.
///
/// Takes one pass over the arcs, in the thread of the caller: the list that several threads would give is the same. All memory is taken
/// before the first operation.
///
/// Eligible arcs are those of Ahuja, Magnanti and Orlin, Network Flows, chapters 11 and 15, and so is a scan that goes on from a cursor and
/// wraps around; a list of all of them is this project's own.
pub fn candidates(
    _rt: &(impl Threads + Sync),
    alloc: Global,
    full: &FullNet,
    phase: Phase,
    potentials: &[Frac],
    marks: &[Mark],
    from: u32,
) -> Result<Nums, PriceRefusal>
    requires one_potential_each { length potentials.now ≡ length full.now.net.supply }
    requires one_mark_each { length marks.now ≡ real_arcs full.now }
    requires begins { (from < real_arcs full.now) ⊎ (real_arcs full.now ≡ 0) }
    ensures answer { MatchResult result
        (λ list. AreCandidates (phase_net phase full.now) (real_arcs full.now) (values_by marks.now potentials.now) (cyclic from (real_arcs full.now)) list)
        (IsCause (phase_net phase full.now) (real_arcs full.now) (values_by marks.now potentials.now) (cyclic from (real_arcs full.now))) }
    ensures all { IfOk result (λ list. (a : ℕ) → IsIn a list ↔ IsEligible (phase_net phase full.now) (real_arcs full.now) (values_by marks.now potentials.now) a) }
{
    let count = marks.len() as u32;
    let begin = from.min(count);
    let mut found = with_room(alloc, marks.len())?;
    scan(full, phase, potentials, marks, begin, count, &mut found)?;
    match scan(full, phase, potentials, marks, 0, begin, &mut found) {
        Ok(()) => Ok(Nums { items: found }),
        Err(refusal) => Err(refusal),
    }
}
