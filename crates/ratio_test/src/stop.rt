//! The arc that stops the flows first.

ghost use Rattle.std.specs.Prelude.{◌≡◌};
ghost use Rattle.ratio_test.specs.Limits.{bound_ahead};
ghost use Rattle.ratio_test.specs.Steps.Soonest.{is_sooner, soonest, with_limit, answer_of};

use crate::answer::RatioAnswer;
use np_frac::Frac;
use np_model::Mark;

/// An arc that stops the flows: the bound at which it comes to rest, and the step at which it does.
#[derive(Clone, Copy, PartialEq, Eq)]
pub(crate) struct Stop {
    pub arc: u32,
    pub bound: Mark,
    pub step: Frac,
}

// The bound towards which a flow goes that changes by this amount.
fn bound_ahead(amount: Frac) -> Mark
    ensures { result ≡ bound_ahead amount }
{
    if Frac::whole(0).is_below(amount) {
        Mark::Upper
    } else {
        Mark::Lower
    }
}

// Whether an arc stops the flows before one that follows it: at a lesser step, or at the same one where the other is not the entering arc.
fn is_sooner(enter: u32, best: &Stop, other: &Stop) -> bool
    ensures { result ≡ is_sooner enter best.now other.now }
{
    best.step.is_below(other.step) || (!other.step.is_below(best.step) && other.arc != enter)
}

// The arc that stops the flows first, of those so far and one that follows them.
fn soonest(enter: u32, best: Option<Stop>, other: Stop) -> Stop
    ensures { result ≡ soonest enter best other }
{
    match best {
        None => other,
        Some(best) => {
            if is_sooner(enter, &best, &other) {
                best
            } else {
                other
            }
        }
    }
}

/// The arc that stops the flows first, of those so far and the arc of this step, whose flow has this limit.
pub(crate) fn with_limit(
    enter: u32,
    best: Option<Stop>,
    step: &(u32, Frac),
    limit: Option<Frac>,
) -> Option<Stop>
    ensures { result ≡ with_limit enter best step.now limit }
{
    match limit {
        None => best,
        Some(most) => Some(soonest(
            enter,
            best,
            Stop {
                arc: step.0,
                bound: bound_ahead(step.1),
                step: most,
            },
        )),
    }
}

/// What the arc that stops the flows first makes the answer.
pub(crate) fn answer_of(enter: u32, stop: Option<Stop>) -> RatioAnswer
    ensures { result ≡ answer_of enter stop }
{
    match stop {
        None => RatioAnswer::Ray,
        Some(stop) => {
            if stop.arc == enter {
                RatioAnswer::Flip(stop.step)
            } else {
                RatioAnswer::Leave {
                    arc: stop.arc,
                    leave_at: stop.bound,
                    step: stop.step,
                }
            }
        }
    }
}
