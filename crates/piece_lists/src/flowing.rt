//! The basic arcs after a pivot, with their flows.

ghost use Rattle.std.specs.Prelude.{◌≡◌, ◌++◌, ◌∷◌, [], ℕ, MatchResult, IfOk};
ghost use Rattle.std.specs.List.Sorted.{IsStrictlyIncreasing};
ghost use Rattle.gain_graphs.specs.Arcs.{IsIn};
ghost use Rattle.np_frac.specs.Fits.{Fits};
ghost use Rattle.np_model.specs.Rows.Arcs.{flow_after};
ghost use Rattle.tree_search.specs.Places.{numbers_of_arcs};
ghost use Rattle.piece_lists.specs.Flowing.{AreFlowsAfter, IsFirstPast};
ghost use Rattle.np_model.specs.Rows.Moving.{numbers_of_steps};
ghost use Rattle.piece_lists.specs.Steps.{AreMoved, IsAmountAt};

use crate::numbered::{merged, without};
use crate::refusal::MoveRefusal;
use np_frac::{Frac, Memory, Past};
use np_model::{Ends, Overflow, Place, Row};
use std::alloc::Global;

// The flow after a step along an amount.
fn flow_after(step: Frac, flow: Frac, amount: Frac) -> Result<Frac, Past>
    ensures row { result ≡ flow_after step flow amount }
    ensures fits { IfOk result (λ after. Fits after) }
{
    let product = match step.times(amount) {
        Ok(product) => product,
        Err(past) => return Err(past),
    };
    let after = match flow.plus(product) {
        Ok(after) => after,
        Err(past) => return Err(past),
    };
    // That it fits is told by its numerator.
    let _numerator = after.num();
    Ok(after)
}

// An empty list with room for so many arcs.
fn with_room(alloc: Global, arcs: usize) -> Result<Vec<(u32, Ends, Frac)>, Memory>
    ensures { IfOk result (λ list. list.items ≡ []) }
{
    let list = Vec::with_capacity(alloc, arcs)?;
    Ok(list)
}

// The list with an arc more.
fn pushed(
    mut list: Vec<(u32, Ends, Frac)>,
    arc: (u32, Ends, Frac),
) -> Result<Vec<(u32, Ends, Frac)>, Memory>
    ensures { IfOk result (λ longer. longer.items ≡ list.items ++ arc ∷ []) }
{
    list.push(arc)?;
    Ok(list)
}

// The arc, whose flow is known to fit once its numerator is read.
fn kept(arc: (u32, Ends, Frac)) -> (u32, Ends, Frac)
    ensures same { result ≡ arc }
    ensures fits { Fits result.2 }
{
    let _numerator = arc.2.num();
    arc
}

// The amount on the arc, where the step at this place is its own.
fn amount_of(steps: &[(u32, Frac)], place: usize, arc: u32) -> Option<Frac>
    ensures { IsAmountAt steps.now place arc result }
{
    if place >= steps.len() {
        return None;
    }
    let own = steps[place];
    if own.0 == arc {
        return Some(own.1);
    }
    None
}

// The arcs after a step, each with its new flow. The steps are amounts on some of the arcs; both lists ascend, and are gone over once. An
// overflow is told at the arc that enters.
fn moved(
    alloc: Global,
    arcs: &[(u32, Ends, Frac)],
    enter: u32,
    steps: &[(u32, Frac)],
    step: Frac,
) -> Result<Vec<(u32, Ends, Frac)>, MoveRefusal>
    requires arcs_ascend { IsStrictlyIncreasing (numbers_of_arcs arcs.now) }
    requires steps_ascend { IsStrictlyIncreasing (numbers_of_steps steps.now) }
    requires own { (a : ℕ) → IsIn a (numbers_of_steps steps.now) → IsIn a (numbers_of_arcs arcs.now) }
    ensures { MatchResult result (λ after. AreMoved arcs.now steps.now step after.items) (IsFirstPast arcs.now enter steps.now step) }
{
    let mut list = with_room(alloc, arcs.len())?;
    let mut next = 0;
    for arc in arcs {
        let Some(amount) = amount_of(steps, next, arc.0) else {
            list = pushed(list, kept(*arc))?;
            continue;
        };
        let flow = match flow_after(step, arc.2, amount) {
            Ok(flow) => flow,
            Err(past) => {
                return Err(MoveRefusal::Past(Overflow {
                    row: Row::A6,
                    place: Place::Arc(enter),
                    past,
                }));
            }
        };
        list = pushed(list, (arc.0, arc.1, flow))?;
        next += 1;
    }
    Ok(list)
}

/// The basic arcs after a pivot: with the arc that enters, each with its flow after the step along these amounts, and without the arc that
/// leaves. The amounts are those of a direction, in ascending number of their arcs, which are basic or the one that enters.
///
/// [`MoveRefusal::Past`] exactly where an operation of row A6 overflows, on whichever of the arcs that move, the one that leaves among them:
/// the first one in ascending number of the arcs is told, at the arc that enters. Takes time in proportion to both lists.
pub fn flows_after(
    alloc: Global,
    basics: &[(u32, Ends, Frac)],
    entering: (u32, Ends, Frac),
    leave: u32,
    steps: &[(u32, Frac)],
    step: Frac,
) -> Result<Vec<(u32, Ends, Frac)>, MoveRefusal>
    requires basics_ascend { IsStrictlyIncreasing (numbers_of_arcs basics.now) }
    requires steps_ascend { IsStrictlyIncreasing (numbers_of_steps steps.now) }
    requires enters { ¬ IsIn entering.0 (numbers_of_arcs basics.now) }
    requires own { (a : ℕ) → IsIn a (numbers_of_steps steps.now) → IsIn a (entering.0 ∷ numbers_of_arcs basics.now) }
    ensures { MatchResult result (λ after. AreFlowsAfter basics.now entering leave steps.now step after.items) (IsFirstPast (entering ∷ basics.now) entering.0 steps.now step) }
{
    let enter = entering.0;
    let all = merged(alloc, basics, &[entering])?;
    let after = match moved(alloc, all.as_slice(), enter, steps, step) {
        Ok(after) => after,
        Err(refusal) => return Err(refusal),
    };
    let rest = without(alloc, after.as_slice(), leave)?;
    Ok(rest)
}
