//! What one worker does.

ghost use Rattle.std.specs.Prelude.{◌-◌, ◌<◌, ◌≤◌, length};
ghost use Rattle.std.specs.List.{All};
ghost use Rattle.np_model.specs.Basis.Phases.{real_arcs};
ghost use Rattle.tree_table.specs.Calls.{IsOf};
ghost use Rattle.pivot_workers.specs.Openings.{NameSlots};
ghost use Rattle.pivot_workers.specs.Sweeps.{dealt};
ghost use Rattle.pivot_workers.specs.Work.{IsReady, HasWorked};
ghost use Rattle.pivot_workers.specs.Steps.Visits.{IsVisited};

use crate::attempting::{Attempted, attempt};
use crate::report::Report;
use crate::seeing::see;
use np_model::{FullNet, Gate, Phase, Piece, Pivoter};
use std::alloc::Global;
use tree_table::{Pass, TreeTable};

// What came of one arc.
#[derive(Clone, Copy, PartialEq, Eq)]
pub(crate) enum Visit {
    Pivoted,
    Passed,
    Memory,
}

// Tries one arc at the slots named for its ends.
fn try_arc<T: Piece, P: Pivoter<T>, G: Gate>(
    alloc: Global,
    table: &TreeTable<T>,
    pass: &mut Pass<T>,
    pivoter: &P,
    full: &FullNet,
    phase: Phase,
    arc: u32,
    openings: &[u32],
    gate: &G,
    worker: u32,
    turn: u64,
) -> Visit
    requires table { IsOf table.now pass.old }
    requires ready { IsReady full.now phase pass.old }
    requires arc { arc < real_arcs full.now }
    requires room { 1 ≤ pass.old.spare }
    requires slots { NameSlots (length full.now.net.supply) openings.now }
    ensures { IsVisited openings.now pass.old pass.new arc result }
{
    let seen = see(openings, full, arc);
    match attempt(
        alloc, table, pass, pivoter, full, phase, arc, seen, gate, worker, turn,
    ) {
        Attempted::Pivoted { .. } => Visit::Pivoted,
        Attempted::Memory => Visit::Memory,
        Attempted::Busy { .. } => Visit::Passed,
        Attempted::Stale { .. } => Visit::Passed,
        Attempted::NotEligible => Visit::Passed,
        Attempted::Ray => Visit::Passed,
        Attempted::Past(_) => Visit::Passed,
    }
}

/// Tries the arcs at this worker's places of the list, that of its number and each one that is so many workers further on, once each and in
/// order, at the slots that are named for their ends, until it has made the quota of pivots or there is not enough memory.
pub fn work<T: Piece, P: Pivoter<T>, G: Gate>(
    alloc: Global,
    table: &TreeTable<T>,
    pass: &mut Pass<T>,
    pivoter: &P,
    full: &FullNet,
    phase: Phase,
    list: &[u32],
    openings: &[u32],
    worker: u32,
    workers: u32,
    quota: u32,
    gate: &G,
) -> Report
    requires table { IsOf table.now pass.old }
    requires ready { IsReady full.now phase pass.old }
    requires arcs { All (λ a. a < real_arcs full.now) list.now }
    requires slots { NameSlots (length full.now.net.supply) openings.now }
    requires worker { (1 ≤ worker) × (worker ≤ workers) × (workers ≤ 16) }
    requires room { quota ≤ pass.old.spare }
    ensures worked { HasWorked openings.now pass.old pass.new (dealt (workers - 1) (worker - 1) list.now) quota result }
{
    let mut pivots = 0;
    let mut turn = 0;
    let mut place = worker as usize - 1;
    while place < list.len() && pivots < quota {
        let arc = list[place];
        match try_arc(
            alloc, table, pass, pivoter, full, phase, arc, openings, gate, worker, turn,
        ) {
            Visit::Pivoted => pivots += 1,
            Visit::Passed => {}
            Visit::Memory => {
                return Report {
                    pivots,
                    memory: true,
                };
            }
        }
        turn += 1;
        place += workers as usize;
    }
    Report {
        pivots,
        memory: false,
    }
}
