//! The first listed arc whose pivot can be made.

ghost use Rattle.std.specs.Prelude.{◌≡◌, ◌<◌, ℕ, length};
ghost use Rattle.gain_graphs.specs.Arcs.{IsIn};
ghost use Rattle.np_model.specs.Basis.Moves.{IsEligible};
ghost use Rattle.np_model.specs.Basis.Phases.{phase_net, real_arcs};
ghost use Rattle.np_model.specs.Basis.States.{values_of, IsState};
ghost use Rattle.simplex_driver.specs.Homes.{AreHomes};
ghost use Rattle.simplex_driver.specs.Store.{state_of, IsKept};
ghost use Rattle.simplex_driver.specs.Picks.{IsPick, first_or};

use crate::forest::Forest;
use np_model::{Direction, Entry, FullNet, Overflow, Phase, Prepared};
use pivot_step::Change;
use std::alloc::Global;

/// What the attempts with listed arcs come to.
#[derive(Drop)]
pub(crate) enum Picked {
    /// The pivot of this entry can be made.
    Ready { entry: Entry, change: Change },
    /// Nothing stops the flows along this direction.
    Ray(Direction),
    /// Each attempt overflows, and the first one so.
    Past(Overflow),
    /// There is not enough memory.
    Memory,
}

// The first of two overflows.
fn first_of(found: Option<Overflow>, now: Overflow) -> Overflow
    ensures { result ≡ first_or found now }
{
    match found {
        Some(before) => before,
        None => now,
    }
}

impl Forest {
    /// Tries the listed arcs in order until a pivot can be made or a ray is found, by the homes of all nodes.
    pub(crate) fn pick(
        &self,
        alloc: Global,
        full: &FullNet,
        phase: Phase,
        homes: &[u32],
        list: &[u32],
    ) -> Picked
        requires kept { IsKept (phase_net phase full.now) self.now }
        requires homes { AreHomes self.now.slots.items homes.now }
        requires state { IsState (phase_net phase full.now) (state_of self.now) }
        requires some { 0 < length list.now }
        requires listed { (a : ℕ) → IsIn a list.now → IsEligible (phase_net phase full.now) (real_arcs full.now) (values_of (state_of self.now)) a }
        ensures { IsPick (phase_net phase full.now) (real_arcs full.now) (values_of (state_of self.now)) list.now result }
    {
        let mut found = None;
        for arc in list {
            match self.attempt(alloc, full, phase, homes, *arc) {
                Prepared::Ready { entry, change } => return Picked::Ready { entry, change },
                Prepared::NotEligible => unreachable!(),
                Prepared::Ray(direction) => return Picked::Ray(direction),
                Prepared::Past(overflow) => found = Some(first_of(found, overflow)),
                Prepared::Memory => return Picked::Memory,
            }
        }
        match found {
            Some(overflow) => Picked::Past(overflow),
            None => unreachable!(),
        }
    }
}
