//! A direction, followed as far as the flows can go.

ghost use Rattle.std.specs.Prelude.{◌≡◌};
ghost use Rattle.std.specs.Option.{option_copied};
ghost use Rattle.np_model.specs.Basis.Phases.{phase_net, real_arcs};
ghost use Rattle.np_model.specs.Basis.Sound.{values_in};
ghost use Rattle.piece_lists.specs.Parts.{lists_in};
ghost use Rattle.ratio_test.specs.Asked.{far_bound};
ghost use Rattle.ratio_test.specs.Answers.{IsAnswer};
ghost use Rattle.np_model.specs.Basis.Attempts.{IsAimed, IsPrepared};
ghost use Rattle.pivot_step.specs.Asked.{IsMoved};
ghost use Rattle.pivot_step.specs.Overflows.{AreReady, IsMoveBy};
ghost use Rattle.np_model.specs.Basis.Needed.{lists_of};

use crate::change::Change;
use crate::exchange::pieces_after;
use np_frac::Frac;
use np_model::{Direction, Entry, FullNet, Mark, Phase, Prepared};
use piece_lists::MoveRefusal;
use quasi_tree::Quasi;
use ratio_test::{RatioAnswer, ratio};
use std::alloc::Global;

// The bound to which an arc goes.
fn far_bound(up: bool) -> Mark
    ensures { result ≡ far_bound up }
{
    if up { Mark::Upper } else { Mark::Lower }
}

// The answer to a move.
fn moved(
    alloc: Global,
    full: &FullNet,
    phase: Phase,
    first: &Quasi,
    second: Option<&Quasi>,
    entry: Entry,
    flow: Frac,
    steps: &[(u32, Frac)],
    step: Frac,
) -> Prepared<Change>
    requires ready { AreReady (phase_net phase full.now) (real_arcs full.now) (lists_of (λ s. s.lists) first.now.lists (option_copied second)) entry.enter }
    requires moves { IsMoveBy (phase_net phase full.now) (lists_of (λ s. s.lists) first.now.lists (option_copied second)) entry steps.now step }
    requires its_flow { flow ≡ (values_in (phase_net phase full.now) (lists_of (λ s. s.lists) first.now.lists (option_copied second))).flow entry.enter }
    ensures { IsMoved (phase_net phase full.now) (real_arcs full.now) (lists_of (λ s. s.lists) first.now.lists (option_copied second.entry)) entry steps.now step result }
{
    match pieces_after(alloc, full, phase, first, second, entry, flow, steps, step) {
        Ok(pieces) => Prepared::Ready {
            entry,
            change: Change { pieces },
        },
        Err(MoveRefusal::Past(overflow)) => Prepared::Past(overflow),
        Err(MoveRefusal::Memory) => Prepared::Memory,
    }
}

// The answer to what the ratio test finds.
fn answered(
    alloc: Global,
    full: &FullNet,
    phase: Phase,
    first: &Quasi,
    second: Option<&Quasi>,
    flow: Frac,
    direction: Direction,
    answer: RatioAnswer,
) -> Prepared<Change>
    requires ready { AreReady (phase_net phase full.now) (real_arcs full.now) (lists_of (λ s. s.lists) first.now.lists (option_copied second)) direction.enter }
    requires aimed { IsAimed (phase_net phase full.now) (real_arcs full.now) (lists_of (λ s. s.lists) first.now.lists (option_copied second)) direction.enter direction }
    requires its_flow { flow ≡ (values_in (phase_net phase full.now) (lists_of (λ s. s.lists) first.now.lists (option_copied second))).flow direction.enter }
    requires ratio { IsAnswer (phase_net phase full.now) (lists_of (λ s. s.lists) first.now.lists (option_copied second)) direction answer }
    ensures { IsPrepared (phase_net phase full.now) (real_arcs full.now) (lists_of (λ s. s.lists) first.now.lists (option_copied second.entry)) direction.enter lists_in result }
{
    let enter = direction.enter;
    match answer {
        RatioAnswer::Flip(step) => {
            let entry = Entry {
                enter,
                leave: enter,
                leave_at: far_bound(direction.up),
            };
            moved(
                alloc,
                full,
                phase,
                first,
                second,
                entry,
                flow,
                direction.steps.as_slice(),
                step,
            )
        }
        RatioAnswer::Leave {
            arc,
            leave_at,
            step,
        } => {
            let entry = Entry {
                enter,
                leave: arc,
                leave_at,
            };
            moved(
                alloc,
                full,
                phase,
                first,
                second,
                entry,
                flow,
                direction.steps.as_slice(),
                step,
            )
        }
        RatioAnswer::Ray => Prepared::Ray(direction),
    }
}

// Follows a direction as far as the flows can go.
pub(crate) fn follow(
    alloc: Global,
    full: &FullNet,
    phase: Phase,
    first: &Quasi,
    second: Option<&Quasi>,
    flow: Frac,
    direction: Direction,
) -> Prepared<Change>
    requires ready { AreReady (phase_net phase full.now) (real_arcs full.now) (lists_of (λ s. s.lists) first.now.lists (option_copied second)) direction.enter }
    requires aimed { IsAimed (phase_net phase full.now) (real_arcs full.now) (lists_of (λ s. s.lists) first.now.lists (option_copied second)) direction.enter direction }
    requires its_flow { flow ≡ (values_in (phase_net phase full.now) (lists_of (λ s. s.lists) first.now.lists (option_copied second))).flow direction.enter }
    ensures { IsPrepared (phase_net phase full.now) (real_arcs full.now) (lists_of (λ s. s.lists) first.now.lists (option_copied second.entry)) direction.enter lists_in result }
{
    match ratio(full, phase, first, second, &direction) {
        Ok(answer) => answered(alloc, full, phase, first, second, flow, direction, answer),
        Err(overflow) => Prepared::Past(overflow),
    }
}
