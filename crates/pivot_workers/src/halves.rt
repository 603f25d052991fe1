//! Several workers, each in a thread of its own where one can be made.

ghost use Rattle.std.specs.Prelude.{◌≡◌, ◌<◌, ◌≤◌, ◌+◌, ◌-◌, length};
ghost use Rattle.std.specs.List.{All};
ghost use Rattle.std.specs.Thread.{IsSync};
ghost use Rattle.np_model.specs.Basis.Phases.{real_arcs};
ghost use Rattle.tree_table.specs.Calls.{IsOf};
ghost use Rattle.pivot_workers.specs.Openings.{NameSlots};
ghost use Rattle.pivot_workers.specs.Sweeps.{dealt};
ghost use Rattle.pivot_workers.specs.Work.{IsReady, CanCrew, HasWorked, HaveWorked, dealt_to};

use crate::report::Report;
use crate::working::work;
use np_model::{FullNet, Gate, Phase, Piece, Pivoter};
use std::alloc::Global;
use std::thread::{Threads, join};
use tree_table::{Pass, TreeTable};

/// The work of so many workers, from this one on: one works with the pass, and of several one half works with it, and the other, at the same time
/// where a thread can be made, with a pass that is forked from it and folded into it again. Where there is no memory for the fork, the work of that
/// half is left undone: that there was a take for each arc, or a quota of pivots, is said only where the report tells no want of memory.
#[cycle(crew)]
pub(crate) fn crew<T: Piece, P: Pivoter<T>, G: Gate, R: Threads + Sync>(
    rt: &R,
    alloc: Global,
    table: &TreeTable<T>,
    pass: Pass<T>,
    pivoter: &P,
    full: &FullNet,
    phase: Phase,
    list: &[u32],
    openings: &[u32],
    first: u32,
    count: u32,
    workers: u32,
    quota: u32,
    gate: &G,
) -> (Pass<T>, Report)
    requires table { IsOf table.now pass }
    requires ready { IsReady full.now phase pass }
    requires can { CanCrew pass count quota }
    requires arcs { All (λ a. a < real_arcs full.now) list.now }
    requires slots { NameSlots (length full.now.net.supply) openings.now }
    requires workers { (1 ≤ first) × (first + count ≤ workers + 1) × (workers ≤ 16) }
    ensures crew { HaveWorked pass result.0 (dealt_to (workers - 1) (first - 1) count list.now) count quota result.1 }
    ensures one { count ≡ 1 → HasWorked openings.now pass result.0 (dealt (workers - 1) (first - 1) list.now) quota result.1 }
{
    let mut pass = pass;
    if count == 1 {
        let report = work(
            alloc, table, &mut pass, pivoter, full, phase, list, openings, first, workers, quota,
            gate,
        );
        return (pass, report);
    }
    let other_half = count / 2;
    let half = count - other_half;
    match table.fork(alloc, &mut pass, other_half * quota) {
        Err(_) => {
            let (pass, report) = crew(
                rt, alloc, table, pass, pivoter, full, phase, list, openings, first, half, workers,
                quota, gate,
            );
            let report = Report {
                pivots: report.pivots,
                memory: true,
            };
            (pass, report)
        }
        Ok(other) => {
            let ((mut pass, mine), (other, theirs)) = join(
                rt,
                || -> (Pass<T>, Report)
                    requires { IsSync R.row × IsOf table.now pass × IsReady full.now phase pass × CanCrew pass half quota × All (λ a. a < real_arcs full.now) list.now × NameSlots (length full.now.net.supply) openings.now × (1 ≤ first) × (first + half ≤ workers + 1) × (workers ≤ 16) }
                    ensures { HaveWorked pass result.0 (dealt_to (workers - 1) (first - 1) half list.entry.now) half quota result.1 }
                {
                    crew(
                        rt, alloc, table, pass, pivoter, full, phase, list, openings, first, half,
                        workers, quota, gate,
                    )
                },
                || -> (Pass<T>, Report)
                    requires { IsSync R.row × IsOf table.now other × IsReady full.now phase other × CanCrew other other_half quota × All (λ a. a < real_arcs full.now) list.now × NameSlots (length full.now.net.supply) openings.now × (1 ≤ first) × (first + half + other_half ≤ workers + 1) × (workers ≤ 16) }
                    ensures { HaveWorked other result.0 (dealt_to (workers - 1) (first + half - 1) other_half list.entry.now) other_half quota result.1 }
                {
                    crew(
                        rt,
                        alloc,
                        table,
                        other,
                        pivoter,
                        full,
                        phase,
                        list,
                        openings,
                        first + half,
                        other_half,
                        workers,
                        quota,
                        gate,
                    )
                },
            );
            table.fold(&mut pass, other);
            (pass, mine.with(theirs))
        }
    }
}
