//! A pivot on the pieces in hand.

ghost use Rattle.std.specs.Prelude.{◌≡◌, ◌<◌, ◌≤◌, None};
ghost use Rattle.np_model.specs.Basis.Attempts.{IsPrepared, OnReady};
ghost use Rattle.np_model.specs.Basis.Graphs.{ends_at};
ghost use Rattle.np_model.specs.Basis.Needed.{AreNeededFor};
ghost use Rattle.np_model.specs.Basis.Phases.{phase_net, real_arcs, all_arcs};
ghost use Rattle.np_model.specs.Basis.Sound.{AreSound};
ghost use Rattle.tree_table.specs.Calls.{IsOf, Stays, lists_in};
ghost use Rattle.tree_table.specs.Passes.{IsIdle};
ghost use Rattle.pivot_workers.specs.Forests.{IsFor};
ghost use Rattle.pivot_workers.specs.Steps.Held.{NamesHands, IsTriedOn};

use crate::attempting::Attempted;
use np_model::{FullNet, Hands, Phase, Piece, Pivoter, Prepared};
use std::alloc::Global;
use tree_table::{Pass, TreeTable};

// No second piece. A table of such pieces outlives the reference that there is none of.
fn no_second<'a, T: Piece>(_table: &'a TreeTable<T>) -> Option<&'a mut T>
    ensures { result ≡ None }
{
    None
}

// Prepares a pivot on the one piece in hand, or on the two.
fn prepare_held<T: Piece, P: Pivoter<T>>(
    alloc: Global,
    table: &TreeTable<T>,
    pivoter: &P,
    full: &FullNet,
    phase: Phase,
    hands: &mut Hands<T>,
    arc: u32,
) -> Prepared<P::Change>
    requires is_arc { arc < all_arcs full.now }
    requires sound { AreSound (phase_net phase full.now) (lists_in T.lists hands.old) }
    requires needed { AreNeededFor (lists_in T.lists hands.old) (ends_at (phase_net phase full.now).arcs arc) }
    ensures stay { lists_in T.lists hands.new ≡ lists_in T.lists hands.old }
    ensures prepared { IsPrepared (phase_net phase full.now) (real_arcs full.now) (lists_in T.lists hands.old) arc P.gives result }
    ensures named { OnReady (λ change. NamesHands (P.names change full.now phase) hands.new) result }
{
    match hands {
        Hands::One(piece) => { pivoter.prepare(alloc, full, phase, piece, no_second(table), arc) },
        Hands::Two(piece, other) => { pivoter.prepare(alloc, full, phase, piece, Some(other), arc) }
    }
}

// The pieces after the pivot.
fn apply_held<T: Piece, P: Pivoter<T>>(
    pivoter: &P,
    full: &FullNet,
    phase: Phase,
    change: P::Change,
    hands: Hands<T>,
) -> Hands<T>
    requires named { NamesHands (P.names change full.now phase) hands }
    ensures { lists_in T.lists result ≡ P.gives change }
{
    match hands {
        Hands::One(piece) => pivoter.apply(full, phase, change, piece, None),
        Hands::Two(piece, other) => pivoter.apply(full, phase, change, piece, Some(other)),
    }
}

// Pivots on the pieces in hand, or puts them home.
pub(crate) fn pivot_held<T: Piece, P: Pivoter<T>>(
    alloc: Global,
    table: &TreeTable<T>,
    pass: &mut Pass<T>,
    pivoter: &P,
    full: &FullNet,
    phase: Phase,
    mut hands: Hands<T>,
    arc: u32,
) -> Attempted
    requires table { IsOf table.now pass.old }
    requires full { IsFor full.now phase pass.old.view.opening }
    requires hands { pass.old.view.hands ≡ lists_in T.lists hands }
    requires is_arc { arc < all_arcs full.now }
    requires sound { AreSound (phase_net phase full.now) (lists_in T.lists hands) }
    requires needed { AreNeededFor (lists_in T.lists hands) (ends_at (phase_net phase full.now).arcs arc) }
    requires room { 1 ≤ pass.old.spare }
    ensures same { Stays pass.old pass.new × IsIdle pass.new.view }
    ensures told { (pass.new.view.shares ≡ pass.old.view.shares) × (pass.new.view.opening ≡ pass.old.view.opening) }
    ensures looked { (pass.new.view.got ≡ pass.old.view.got) × (pass.new.view.looks ≡ pass.old.view.looks) }
    ensures answer { IsTriedOn (phase_net phase full.now) (real_arcs full.now) pass.old pass.new (lists_in T.lists hands) arc result }
{
    match prepare_held(alloc, table, pivoter, full, phase, &mut hands, arc) {
        Prepared::Ready { entry, change } => {
            let after = apply_held(pivoter, full, phase, change, hands);
            let ticket = table.commit(pass, after, entry);
            Attempted::Pivoted { ticket }
        }
        Prepared::NotEligible => {
            table.put_back(pass, hands);
            Attempted::NotEligible
        }
        Prepared::Ray(_) => {
            table.put_back(pass, hands);
            Attempted::Ray
        }
        Prepared::Past(overflow) => {
            table.put_back(pass, hands);
            Attempted::Past(overflow)
        }
        Prepared::Memory => {
            table.put_back(pass, hands);
            Attempted::Memory
        }
    }
}
