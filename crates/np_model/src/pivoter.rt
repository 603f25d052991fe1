//! Pivots of pieces, as all who make them see them.

ghost use Rattle.std.specs.Prelude.{◌≡◌, ◌<◌};
ghost use Rattle.np_model.specs.Basis.Attempts.{IsPrepared, OnReady};
ghost use Rattle.np_model.specs.Basis.Graphs.{ends_at};
ghost use Rattle.np_model.specs.Basis.Needed.{lists_of, lists_held, left_behind, AreNeededFor};
ghost use Rattle.np_model.specs.Basis.Phases.{phase_net, real_arcs, all_arcs};
ghost use Rattle.np_model.specs.Basis.Sound.{AreSound};

use crate::network::FullNet;
use crate::phase::Phase;
use crate::piece::{Hands, Piece, Prepared};
use std::alloc::Global;

/// Lets arcs enter the basis, on the one piece that holds the ends of the arc or on the two that it links.
pub trait Pivoter<T: Piece>: Sync {
    ghost use Rattle.std.specs.Prelude.{List, Option};
    ghost use Rattle.np_model.specs.declared.network.FullNet.{FullNet};
    ghost use Rattle.np_model.specs.declared.phase.Phase.{Phase};
    ghost use Rattle.np_model.specs.Basis.Pieces.{PieceLists};

    /// A pivot that can be made, with all the memory that it takes.
    type Change;

    // The pieces after the pivot.
    ghost gives: { Self.Change → List PieceLists };

    // The pivot is one of this network in this phase, on the first piece and the second one, where there is one, as they stand.
    ghost names: { Self.Change → FullNet → Phase → T → Option T → Type 0 };

    /// Tries to let an arc enter the basis: tests its price, finds its direction and how far the flows go along it, and makes all that the
    /// pivot needs. The pieces say after it what they said before, whatever the answer.
    ///
    /// The pieces are sound in the full network in this phase and share no node. The answer is the first of these that holds:
    ///
    /// 1. [`Prepared::Past`] of row A2, where an operation of the price of the arc overflows.
    /// 2. [`Prepared::NotEligible`], where the arc may not enter.
    /// 3. [`Prepared::Past`] of row A3 or A4, where an operation of its direction overflows on one of the pieces.
    /// 4. [`Prepared::Past`] of row A5, where an operation of the ratio test overflows.
    /// 5. [`Prepared::Ray`] with the direction, where nothing stops the flows along it.
    /// 6. [`Prepared::Past`] of row A6, where an operation of the new flows overflows.
    /// 7. [`Prepared::Past`] of row A3 or A7, where an operation of the new potentials overflows.
    /// 8. [`Prepared::Ready`] with the entry of the pivot.
    ///
    /// Want of memory comes only where the arc is eligible.
    fn prepare(
        &self,
        alloc: Global,
        full: &FullNet,
        phase: Phase,
        first: &mut T,
        second: Option<&mut T>,
        arc: u32,
    ) -> Prepared<Self::Change>
        requires is_arc { arc < all_arcs full.now }
        requires sound { AreSound (phase_net phase full.now) (lists_of (λ p. T.lists p.now) (T.lists first.old) second) }
        requires needed { AreNeededFor (lists_of (λ p. T.lists p.now) (T.lists first.old) second) (ends_at (phase_net phase full.now).arcs arc) }
        ensures stay { lists_of T.lists (T.lists first.new) (left_behind second.exit) ≡ lists_of (λ p. T.lists p.now) (T.lists first.old) second.entry }
        ensures prepared { IsPrepared (phase_net phase full.now) (real_arcs full.now) (lists_of (λ p. T.lists p.now) (T.lists first.old) second.entry) arc gives result }
        ensures named { OnReady (λ change. names change full.now phase first.new (left_behind second.exit)) result };

    /// The pieces after a pivot that was prepared on these pieces, in place of them: one, or two with the lesser least node first. Takes no
    /// memory.
    fn apply(
        &self,
        full: &FullNet,
        phase: Phase,
        change: Self::Change,
        first: T,
        second: Option<T>,
    ) -> Hands<T>
        requires named { names change full.now phase first second }
        ensures { lists_held T.lists result ≡ gives change };
}
