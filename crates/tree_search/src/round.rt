//! The cycle of a piece, from its least node along the lower of its two arcs there.

ghost use Rattle.std.specs.Prelude.{◌≡◌, ◌<◌, ◌↔◌, ◌+◌, ◌++◌, drop, take, length, reverse, true, IfOk};
ghost use Rattle.tree_search.specs.Finding.{flips, back_from, IsLeastEnd, StepsUp, IsTurned};

use crate::piece::Step;
use np_frac::Memory;
use std::alloc::Global;

// The way back from a node to where a search began.
pub(crate) fn way_back(alloc: Global, steps: &[Step], node: u32) -> Result<Vec<Step>, Memory>
    ensures { IfOk result (λ way. way.items ≡ back_from (reverse steps.now) node) }
{
    let mut way = Vec::with_capacity(alloc, steps.len())?;
    let mut at = node;
    let mut left = steps.len();
    while left > 0 {
        left -= 1;
        let step = steps[left];
        if step.far == at {
            way.push(Step {
                arc: step.arc,
                near: step.far,
                far: step.near,
            })?;
            at = step.near;
        }
    }
    Ok(way)
}

// The place of the step to the least node.
fn least_end(round: &[Step]) -> usize
    requires some { 0 < length round.now }
    ensures { IsLeastEnd round.now result }
{
    let mut least = 0;
    let mut i = 1;
    while i < round.len() {
        if round[i].far < round[least].far {
            least = i;
        }
        i += 1;
    }
    least
}

// The round from behind this step on.
fn begun_at(alloc: Global, round: &[Step], at: usize) -> Result<Vec<Step>, Memory>
    requires inside { at < length round.now }
    ensures { IfOk result (λ list. list.items ≡ drop (at + 1) round.now ++ take (at + 1) round.now) }
{
    let mut list = Vec::with_capacity(alloc, round.len())?;
    for i in at + 1..round.len() {
        list.push(round[i])?;
    }
    for i in 0..at + 1 {
        list.push(round[i])?;
    }
    Ok(list)
}

// The round the other way.
fn turned_round(alloc: Global, round: &[Step]) -> Result<Vec<Step>, Memory>
    ensures { IfOk result (λ list. list.items ≡ flips (reverse round.now)) }
{
    let mut list = Vec::with_capacity(alloc, round.len())?;
    let mut left = round.len();
    while left > 0 {
        left -= 1;
        let step = round[left];
        list.push(Step {
            arc: step.arc,
            near: step.far,
            far: step.near,
        })?;
    }
    Ok(list)
}

// Whether the first arc comes before the last.
fn goes_up(round: &[Step]) -> bool
    ensures { (result ≡ true) ↔ StepsUp round.now }
{
    let mut last = 0;
    for step in round {
        last = step.arc;
    }
    0 < round.len() && round[0].arc < last
}

// The round from its least node along the lower of its two arcs there.
pub(crate) fn from_least(alloc: Global, round: &[Step]) -> Result<Vec<Step>, Memory>
    requires some { 0 < length round.now }
    ensures { IfOk result (λ cycle. IsTurned round.now cycle.items) }
{
    let at = least_end(round);
    let begun = begun_at(alloc, round, at)?;
    if goes_up(begun.as_slice()) {
        return Ok(begun);
    }
    turned_round(alloc, begun.as_slice())
}
