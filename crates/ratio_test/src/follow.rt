//! The ratio test.

ghost use Rattle.std.specs.Prelude.{◌≡◌, MatchResult};
ghost use Rattle.np_model.specs.Basis.Phases.{phase_net};
ghost use Rattle.ratio_test.specs.Asked.{AreWithin, IsOutside, IsAlong};
ghost use Rattle.np_model.specs.Basis.Needed.{lists_of};
ghost use Rattle.ratio_test.specs.Answers.{IsAnswer};
ghost use Rattle.np_model.specs.Basis.Attempts.{LimitsOverflow};

use crate::answer::RatioAnswer;
use crate::flow::flow_of;
use crate::limit::limit_of;
use crate::stop::{Stop, answer_of, with_limit};
use np_model::{Direction, FullNet, Overflow, Phase, Piece, Place, Row};

/// How far the flows can go along a direction, and what stops them there: the ratio test over the entering arc and the basic arcs of one
/// piece or of two.
///
/// The pieces are pieces of the network that share no node, with flows within the bounds of the phase. The entering arc is basic in neither,
/// has its ends among their nodes, and stands at a bound that it has, which is its flow. The steps are in ascending order, none of them is 0,
/// the entering arc has 1 where the direction is upwards and else -1, and the other arcs are basic ones of the pieces.
///
/// The step is the greatest at which all these flows keep their bounds. [`RatioAnswer::Flip`] exactly where the entering arc is among those
/// that come to rest there at the bound towards which they go; else [`RatioAnswer::Leave`] with the arc of the least number that does, and
/// this bound. [`RatioAnswer::Ray`] exactly where no arc does at any step.
///
/// An [`Overflow`] of row A5 at the entering arc exactly where an operation overflows. They are, of each arc with a step in ascending order:
/// where the amount is above 0 and there is an upper bound, that bound less the flow, and this over the amount; where the amount is below 0,
/// the flow less the lower bound, and this over the amount negated. The first one is told.
///
/// Takes no memory, and the time of three look-ups in a piece for each step.
///
/// The ratio test is that of Ahuja, Magnanti and Orlin, Network Flows, chapters 11 and 15.
pub fn ratio<T: Piece>(
    full: &FullNet,
    phase: Phase,
    first: &T,
    second: Option<&T>,
    direction: &Direction,
) -> Result<RatioAnswer, Overflow>
    requires within { AreWithin (phase_net phase full.now) (lists_of (λ p. T.lists p.now) (T.lists first.now) second) }
    requires outside { IsOutside (phase_net phase full.now) (lists_of (λ p. T.lists p.now) (T.lists first.now) second) direction.now.enter }
    requires along { IsAlong (lists_of (λ p. T.lists p.now) (T.lists first.now) second) direction.now }
    ensures { MatchResult result
        (IsAnswer (phase_net phase full.now) (lists_of (λ p. T.lists p.now) (T.lists first.now) second.entry) direction.now)
        (LimitsOverflow (phase_net phase full.now) (lists_of (λ p. T.lists p.now) (T.lists first.now) second.entry) direction.now) }
{
    let enter = direction.enter;
    let steps = direction.steps.as_slice();
    let mut stop: Option<Stop> = None;
    for step in steps {
        let flow = flow_of(full, phase, first, second, enter, step.0);
        match limit_of(full, phase, step.0, flow, step.1) {
            Ok(limit) => stop = with_limit(enter, stop, step, limit),
            Err(past) => {
                return Err(Overflow {
                    row: Row::A5,
                    place: Place::Arc(enter),
                    past,
                });
            }
        }
    }
    Ok(answer_of(enter, stop))
}
