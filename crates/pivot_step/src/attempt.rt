//! An attempt to let an arc enter.

ghost use Rattle.std.specs.Prelude.{◌≡◌, ◌<◌, IfOk};
ghost use Rattle.std.specs.Option.{option_copied};
ghost use Rattle.np_model.specs.Basis.Graphs.{ends_at};
ghost use Rattle.np_model.specs.Basis.Moves.{IsEligible};
ghost use Rattle.np_model.specs.Basis.Phases.{phase_net, real_arcs, all_arcs};
ghost use Rattle.np_model.specs.Basis.Sound.{values_in, AreSound};
ghost use Rattle.np_model.specs.Basis.Needed.{AreNeededFor, lists_of};
ghost use Rattle.piece_lists.specs.Parts.{lists_in};
ghost use Rattle.np_model.specs.Basis.Attempts.{goes_up, PriceFits, IsPrepared};
ghost use Rattle.pivot_step.specs.Asked.{of_direction};
ghost use Rattle.pivot_step.specs.Overflows.{AreReady};

use crate::change::Change;
use crate::following::follow;
use crate::testing::test;
use np_frac::Frac;
use np_model::{FullNet, Mark, Phase, Prepared};
use quasi_tree::Quasi;
use std::alloc::Global;
use tree_flows::{DirRefusal, direction};

// Whether an arc with this mark enters upwards.
fn goes_up(mark: Mark) -> bool
    ensures { result ≡ goes_up mark }
{
    match mark {
        Mark::Lower => true,
        Mark::Upper | Mark::Basic => false,
    }
}

// The answer where there is no direction.
fn refused(refusal: DirRefusal) -> Prepared<Change>
    ensures { result ≡ of_direction refusal }
{
    match refusal {
        DirRefusal::Past(overflow) => Prepared::Past(overflow),
        DirRefusal::Memory => Prepared::Memory,
    }
}

// Goes on with an arc that may enter.
fn aim(
    alloc: Global,
    full: &FullNet,
    phase: Phase,
    first: &Quasi,
    second: Option<&Quasi>,
    arc: u32,
    mark: Mark,
    flow: Frac,
) -> Prepared<Change>
    requires ready { AreReady (phase_net phase full.now) (real_arcs full.now) (lists_of (λ s. s.lists) first.now.lists (option_copied second)) arc }
    requires price_fits { PriceFits (phase_net phase full.now) (real_arcs full.now) (lists_of (λ s. s.lists) first.now.lists (option_copied second)) arc }
    requires its_mark { mark ≡ (values_in (phase_net phase full.now) (lists_of (λ s. s.lists) first.now.lists (option_copied second))).mark arc }
    requires its_flow { flow ≡ (values_in (phase_net phase full.now) (lists_of (λ s. s.lists) first.now.lists (option_copied second))).flow arc }
    ensures { IsPrepared (phase_net phase full.now) (real_arcs full.now) (lists_of (λ s. s.lists) first.now.lists (option_copied second.entry)) arc lists_in result }
{
    match direction(alloc, full, first, second, arc, goes_up(mark)) {
        Ok(direction) => follow(alloc, full, phase, first, second, flow, direction),
        Err(refusal) => refused(refusal),
    }
}

/// Tries to let an arc enter the basis, on the one piece that holds its ends or on the two that it links: tests its price, finds its
/// direction and how far the flows go along it, and makes the pieces after that pivot, which [`apply`](crate::apply) then hands out. The
/// pieces given stay as they are.
///
/// The pieces are sound pieces of the full network in this phase that share no node. The answer is the first of these that holds:
///
/// 1. [`Prepared::Past`] of row A2, where an operation of the price of the arc overflows.
/// 2. [`Prepared::NotEligible`], where the arc may not enter.
/// 3. [`Prepared::Past`] of row A3 or A4, where an operation of its direction overflows on one of the pieces.
/// 4. [`Prepared::Past`] of row A5, where an operation of the ratio test overflows.
/// 5. [`Prepared::Ray`] with the direction, where nothing stops the flows along it.
/// 6. [`Prepared::Past`] of row A6, where an operation of the new flows overflows.
/// 7. [`Prepared::Past`] of row A3 or A7, where an operation of the new potentials overflows. On a flip, where the arc that enters leaves
///    at its other bound, the potentials stay.
/// 8. [`Prepared::Ready`] with the entry of the pivot and its change: one piece, or two with the lesser least node first.
///
/// The place of each overflow is [`Place::Arc`](np_model::Place) of the arc. [`Prepared::Memory`] comes only after the test of the arc.
/// Takes time in proportion to the pieces, to a binary search for each end of an arc, and to a sort of the direction.
///
/// Pivots are those of Ahuja, Magnanti and Orlin, Network Flows, chapters 11 and 15.
pub fn prepare(
    alloc: Global,
    full: &FullNet,
    phase: Phase,
    first: &Quasi,
    second: Option<&Quasi>,
    arc: u32,
) -> Prepared<Change>
    requires is_arc { arc < all_arcs full.now }
    requires sound { AreSound (phase_net phase full.now) (lists_of (λ s. s.lists) first.now.lists (option_copied second)) }
    requires needed { AreNeededFor (lists_of (λ s. s.lists) first.now.lists (option_copied second)) (ends_at (phase_net phase full.now).arcs arc) }
    ensures { IsPrepared (phase_net phase full.now) (real_arcs full.now) (lists_of (λ s. s.lists) first.now.lists (option_copied second.entry)) arc lists_in result }
{
    match test(full, phase, first, second, arc) {
        Err(overflow) => Prepared::Past(overflow),
        Ok(None) => Prepared::NotEligible,
        Ok(Some(found)) => {
            aim(
                alloc, full, phase, first, second, arc, found.mark, found.flow,
            )
        }
    }
}
