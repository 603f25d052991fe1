//! One attempt at an arc.

ghost use Rattle.std.specs.Prelude.{◌≡◌, ◌<◌, ◌≤◌, List, length};
ghost use Rattle.std.specs.List.{All};
ghost use Rattle.np_model.specs.Basis.Graphs.{ends_at};
ghost use Rattle.np_model.specs.Basis.Phases.{phase_net, real_arcs};
ghost use Rattle.np_model.specs.Basis.Pieces.{PieceLists};
ghost use Rattle.tree_table.specs.Calls.{IsOf, Stays};
ghost use Rattle.tree_table.specs.Passes.{IsIdle};
ghost use Rattle.tree_table.specs.Replay.{HasSeen};
ghost use Rattle.pivot_workers.specs.Attempts.{IsAttempted, IsReached};
ghost use Rattle.pivot_workers.specs.Takes.{slots_of, HasSecond, IsRight};
ghost use Rattle.pivot_workers.specs.Work.{IsReady};

use crate::pivoting::pivot_held;
use crate::seeing::{Grabbed, Seen, grab};
use crate::stale::find_stale;
use np_model::{FullNet, Gate, Overflow, Phase, Piece, Pivoter, Spot};
use std::alloc::Global;
use tree_table::{Pass, TreeTable};

/// What an attempt at an arc answers.
#[derive(Clone, Copy, Debug, PartialEq, Eq)]
pub enum Attempted {
    /// The arc entered, by a pivot with this ticket.
    Pivoted { ticket: u64 },
    /// No piece was at home in this slot: its claim word showed this, 1 where the slot was taken and 2 where it was empty.
    Busy { slot: u32, word: u64 },
    /// The piece taken from this slot lacks the end that was seen there, which is this node.
    Stale { node: u32, slot: u32 },
    /// The arc may not enter.
    NotEligible,
    /// Nothing stops the flows along the direction of the arc.
    Ray,
    /// An operation does not fit.
    Past(Overflow),
    /// There was not enough memory.
    Memory,
}

/// Tries to let an arc enter at the slots where the pieces of its ends were seen. It asks that the pass has nothing in hand and room for an entry,
/// and that there is a second slot exactly for a link.
///
/// 1. It passes the gate at [`Spot::Seen`].
/// 2. It takes one piece, or two in the order of their slots, and answers [`Attempted::Busy`] where a slot shows none at home.
/// 3. It answers [`Attempted::Stale`] exactly where the piece taken from the slot of an end lacks that end. The tail is tested first.
/// 4. It passes the gate at [`Spot::Held`], prepares the pivot, and makes it or answers why it cannot be made.
///
/// Unless it pivots, all pieces go home as they were. With all shares of the table, and slots that are right at present, neither Busy nor Stale
/// comes.
pub fn attempt<T: Piece, P: Pivoter<T>, G: Gate>(
    alloc: Global,
    table: &TreeTable<T>,
    pass: &mut Pass<T>,
    pivoter: &P,
    full: &FullNet,
    phase: Phase,
    arc: u32,
    seen: Seen,
    gate: &G,
    worker: u32,
    turn: u64,
) -> Attempted
    requires table { IsOf table.now pass.old }
    requires ready { IsReady full.now phase pass.old }
    requires arc { arc < real_arcs full.now }
    requires room { 1 ≤ pass.old.spare }
    requires near { All (λ k. k < length full.now.net.supply) (slots_of seen) }
    requires second { HasSecond (ends_at (phase_net phase full.now).arcs arc) seen.second }
    ensures same { Stays pass.old pass.new × IsIdle pass.new.view }
    ensures told { (pass.new.view.shares ≡ pass.old.view.shares) × (pass.new.view.opening ≡ pass.old.view.opening) }
    ensures answer { IsAttempted (phase_net phase full.now) (real_arcs full.now) pass.old pass.new seen arc result }
    ensures right { pass.old.view.shares ≡ 64 → (now : List PieceLists) → HasSeen pass.old.view now
        → IsRight now (ends_at (phase_net phase full.now).arcs arc) seen → IsReached result }
{
    gate.pass(worker, turn, Spot::Seen);
    match grab(table, pass, seen) {
        Grabbed::Busy { slot, word } => Attempted::Busy { slot, word },
        Grabbed::Got(hands) => match find_stale(&hands, full.ends(arc), seen) {
            Some(gone) => {
                table.put_back(pass, hands);
                Attempted::Stale {
                    node: gone.node,
                    slot: gone.slot,
                }
            }
            None => {
                gate.pass(worker, turn, Spot::Held);
                pivot_held(alloc, table, pass, pivoter, full, phase, hands, arc)
            }
        },
    }
}
