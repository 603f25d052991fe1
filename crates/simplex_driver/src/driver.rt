//! The driver: stages, steps and the budget.

ghost use Rattle.std.specs.Prelude.{◌≡◌, ◌≤◌, ◌<◌, ◌⊎◌, length, IfOk, None, []};
ghost use Rattle.np_model.specs.Basis.Phases.{network_of, phase_net, real_arcs};
ghost use Rattle.np_runs.specs.Ended.{IsEnded};
ghost use Rattle.np_runs.specs.Runs.{stage_of};
ghost use Rattle.simplex_driver.specs.Budgets.{IsCrew};
ghost use Rattle.simplex_driver.specs.Runs.{IsGood, Goes, IsDue};

use crate::forest::Forest;
use crate::stepping::Found;
use crate::telling::{log_of, tell};
use crate::turning::carries;
use np_frac::Memory;
use np_model::{Entry, FullNet, Gate, Outcome, Overflow, Phase};
use std::alloc::Global;
use std::thread::Threads;
use tree_potentials::PotentialRefusal;

/// The stage that is due.
#[derive(Drop)]
pub(crate) enum Due {
    /// The run goes on; it has turned behind so many entries, or has not turned.
    Live(Option<u32>),
    /// The turn is due, and an operation of the potentials overflows.
    Past(Overflow),
    /// There is not enough memory.
    Memory,
}

/// Turns to stage two where stage one has done its work.
pub(crate) fn turn_if_due(
    alloc: Global,
    full: &FullNet,
    forest: &mut Forest,
    turned: Option<u32>,
    entries: &[Entry],
) -> Due
    requires good { IsGood full.now }
    requires goes { Goes full.now turned entries.now forest.old }
    requires few { length entries.now ≤ 1000000 }
    ensures { IsDue full.now entries.now forest.new result }
{
    match turned {
        Some(number) => Due::Live(Some(number)),
        None => {
            if carries(&forest.flows, full.net.arcs.items.len()) {
                return Due::Live(None);
            }
            match forest.turn(alloc, full) {
                Ok(()) => Due::Live(Some(entries.len() as u32)),
                Err(PotentialRefusal::Past(overflow)) => Due::Past(overflow),
                Err(PotentialRefusal::Memory) => Due::Memory,
            }
        }
    }
}

/// The phase after a turn, or before it.
pub(crate) fn phase_of(turned: Option<u32>) -> Phase
    ensures { result ≡ stage_of turned }
{
    match turned {
        None => Phase::One,
        Some(_) => Phase::Two,
    }
}

/// The arc from which prices are taken after this one entered: the next one, or the first one behind the last.
pub(crate) fn after(enter: u32, real: u32) -> u32
    requires { enter < real }
    ensures { result < real }
{
    if enter + 1 < real { enter + 1 } else { 0 }
}

/// Drives the pivots of a network from its start until they end: one pivot and one round at each step.
pub(crate) fn run<G: Gate>(
    rt: &(impl Threads + Sync),
    alloc: Global,
    full: &FullNet,
    start: Forest,
    workers: u32,
    budget: u32,
    gate: &G,
) -> Result<Outcome, Memory>
    requires good { IsGood full.now }
    requires start { Goes full.now None [] start }
    requires crew { IsCrew workers }
    requires few { budget ≤ 1000000 }
    ensures { IfOk result (IsEnded (network_of full.now.net) budget) }
{
    let real = full.net.arcs.items.len() as u32;
    let mut forest = start;
    let mut entries = Vec::new(alloc);
    let mut turned = None;
    let mut from = 0;
    'steps: loop {
        match turn_if_due(alloc, full, &mut forest, turned, &entries) {
            Due::Live(now) => turned = now,
            Due::Past(overflow) => {
                let log = log_of(Some(entries.len() as u32), entries);
                return Ok(Outcome::Overflow { overflow, log });
            }
            Due::Memory => return Err(Memory),
        }
        let phase = phase_of(turned);
        let spent = entries.len() == budget as usize;
        let homes = forest.homes(alloc)?;
        match forest.find(rt, alloc, full, phase, &homes, spent, from) {
            Found::Pivot {
                entry,
                change,
                list,
            } => {
                forest.pivot(full, phase, &homes, entry, change);
                from = after(entry.enter, real);
                entries.push(entry)?;
                let left = budget - entries.len() as u32;
                let listed = list.items.as_slice();
                let made = forest.round(rt, alloc, full, phase, listed, workers, left, gate)?;
                entries.extend_from_slice(made.as_slice())?;
            }
            Found::Memory => return Err(Memory),
            found => return tell(alloc, full, forest, turned, entries, budget, spent, found),
        }
    }
}
