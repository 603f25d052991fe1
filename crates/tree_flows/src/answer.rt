//! The direction of an entering arc.

ghost use Rattle.std.specs.Prelude.{◌≡◌, IfOk, MatchResult};
ghost use Rattle.std.specs.Option.{option_copied};
ghost use Rattle.np_frac.specs.declared.frac.Past.{Past as ThePast};
ghost use Rattle.np_model.specs.declared.phase.Phase.{Phase as ThePhase};
ghost use Rattle.np_model.specs.declared.rows.Row.{Row as TheRow};
ghost use Rattle.np_model.specs.Basis.Phases.{phase_net};
ghost use Rattle.tree_flows.specs.Answers.{CanEnter, IsAnswer, GivesPast, IsCause};
ghost use Rattle.np_basis.specs.PivotLaws.{unit_of};
ghost use Rattle.np_model.specs.Basis.Needed.{lists_of};

use crate::moves::in_order;
use crate::pieces::steps_on;
use crate::refusal::DirRefusal;
use crate::sums::Entering;
use np_frac::Frac;
use np_model::{Direction, FullNet, Steps};
use quasi_tree::Quasi;
use std::alloc::Global;

// The amount on an arc that enters.
fn unit(up: bool) -> Frac
    ensures { result ≡ unit_of up }
{
    if up {
        Frac::whole(1)
    } else {
        Frac::whole(1).negated()
    }
}

/// The direction of an arc that enters, upwards or downwards, on the piece or the two pieces of a full network that hold its ends: with 1 or
/// -1 on the arc itself, the amounts on basic arcs that take nothing from any node. They exist and are the only ones. The answer has the
/// arcs whose amount is not 0, the entering one among them, in ascending number. Directions along a tree and round a cycle are those of
/// Ahuja, Magnanti and Orlin, Network Flows, chapter 15.
///
/// The amounts go inwards from the far nodes of each piece to its extra arc, an arc with one end or a cycle, by row A4; where something
/// comes to a node of the cycle, row A3 is what an amount of 1 on its first arc leaves at its least node. On a tree no operation
/// is made on an amount or a sum of 0, so its arithmetic is on the way from the ends of the entering arc to the extra arcs; round a cycle there may
/// be some.
///
/// [`DirRefusal::Past`] exactly where an operation of these rows overflows on one of the pieces. Its place is
/// [`Place::Arc`](np_model::Place) of the entering arc. The piece with the lesser least node comes first. All lists are made before the
/// first operation. Takes time in proportion to the pieces, to a binary search for each end of an arc, and to a sort of the answer.
pub fn direction(
    alloc: Global,
    full: &FullNet,
    first: &Quasi,
    second: Option<&Quasi>,
    enter: u32,
    up: bool,
) -> Result<Direction, DirRefusal>
    requires enters { (phase : ThePhase) × CanEnter (phase_net phase full.now) (lists_of (λ s. s.lists) first.now.lists (option_copied second)) enter }
    ensures answer { (phase : ThePhase) → CanEnter (phase_net phase full.now) (lists_of (λ s. s.lists) first.now.lists (option_copied second.entry)) enter
        → MatchResult result (IsAnswer (phase_net phase full.now) (lists_of (λ s. s.lists) first.now.lists (option_copied second.entry)) enter up)
        (IsCause (phase_net phase full.now) (lists_of (λ s. s.lists) first.now.lists (option_copied second.entry)) enter up) }
    ensures exact { (phase : ThePhase) (row : TheRow) (past : ThePast) → CanEnter (phase_net phase full.now) (lists_of (λ s. s.lists) first.now.lists (option_copied second.entry)) enter
        → GivesPast (phase_net phase full.now) (lists_of (λ s. s.lists) first.now.lists (option_copied second.entry)) enter up row past → IfOk result (λ _. ⊥) }
{
    let entering = Entering {
        arc: enter,
        ends: full.ends(enter),
        amount: unit(up),
    };
    match steps_on(alloc, first, second, &entering) {
        Ok(found) => Ok(Direction {
            enter,
            up,
            steps: Steps {
                items: in_order(found),
            },
        }),
        Err(refusal) => Err(refusal),
    }
}
