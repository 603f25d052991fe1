//! A round: a table is set up, the workers work at it, and it is closed.

ghost use Rattle.std.specs.Prelude.{◌≡◌, ◌<◌, map, length, IfOk, IfErr};
ghost use Rattle.std.specs.List.{All};
ghost use Rattle.np_model.specs.Basis.Phases.{phase_net, real_arcs};
ghost use Rattle.tree_table.specs.Passes.{opening_of};
ghost use Rattle.pivot_workers.specs.Forests.{AreForest};
ghost use Rattle.pivot_workers.specs.Rounds.{CanWork, IsRound};

use crate::halves::crew;
use crate::openings::opening_slots;
use crate::report::Round;
use np_model::{FullNet, Gate, Phase, Piece, Pivoter};
use std::alloc::Global;
use std::thread::Threads;
use tree_table::laws::{seen, tickets};
use tree_table::{SetupRefusal, TreeTable};

/// A round: sets up a table with these pieces, lets the workers pivot on the arcs of the list, and closes the table. Worker k, from 1, tries the
/// arcs at the places k - 1, k - 1 + workers, and so on, each once, and makes at most the quota of pivots. The workers run at the same time where
/// threads can be made.
///
/// It asks that the pieces are all pieces of a state of the full network in the phase, that each arc of the list is a real one, and that there are 1 to
/// 16 workers with at most 1,000,000 pivots in all. The entries, in order, lead from that state to the one whose pieces it gives, whatever the
/// order in which the workers come. With one worker and memory they are those of a sweep over the list.
///
/// Where there is not enough memory for the table, the pieces come back as they were; where there is not enough for some of the work, that is left
/// undone, and of what was done the clauses say no more than above.
pub fn run_round<T: Piece, P: Pivoter<T>, G: Gate>(
    rt: &(impl Threads + Sync),
    alloc: Global,
    full: &FullNet,
    phase: Phase,
    pieces: Vec<T>,
    pivoter: &P,
    list: &[u32],
    workers: u32,
    quota: u32,
    gate: &G,
) -> Result<Round<T>, SetupRefusal<T>>
    requires forest { AreForest (phase_net phase full.now) (map T.lists pieces.items) }
    requires arcs { All (λ a. a < real_arcs full.now) list.now }
    requires work { CanWork workers quota }
    ensures round { IfOk result (λ r. IsRound (opening_of full.now phase (map T.lists pieces.items)) list.now workers quota (map T.lists r.pieces.items) r.entries r.report) }
    ensures memory { IfErr result (λ r. r.pieces.items ≡ pieces.items) }
{
    seen();
    tickets();
    let nodes = full.net.supply.items.len() as u32;
    let Ok(openings) = opening_slots(alloc, &pieces, nodes) else {
        return Err(SetupRefusal { pieces });
    };
    let (table, pass) = TreeTable::set_up(alloc, full, phase, pieces, workers * quota)?;
    let (pass, report) = crew(
        rt,
        alloc,
        &table,
        pass,
        pivoter,
        full,
        phase,
        list,
        openings.items.as_slice(),
        1,
        workers,
        workers,
        quota,
        gate,
    );
    let closed = table.close(pass);
    Ok(Round {
        pieces: closed.pieces,
        entries: closed.entries,
        report,
    })
}
