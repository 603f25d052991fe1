//! One step of the driver: prices, and the first listed arc whose pivot can be made.

ghost use Rattle.std.specs.Prelude.{◌≡◌, ◌<◌, ◌≤◌, ◌⊎◌, MatchResult, length, take};
ghost use Rattle.np_model.specs.Basis.Phases.{phase_net, real_arcs};
ghost use Rattle.np_model.specs.Basis.States.{values_of, IsState};
ghost use Rattle.simplex_driver.specs.Homes.{AreHomes};
ghost use Rattle.simplex_driver.specs.Store.{state_of, IsKept};
ghost use Rattle.simplex_driver.specs.Found.{AreListed, IsPriceCause, IsFound};

use crate::forest::Forest;
use crate::picking::Picked;
use arc_pricing::laws::cyclic_order;
use arc_pricing::{PriceRefusal, candidates};
use np_model::{Direction, Entry, FullNet, Mark, Nums, Overflow, Phase};
use pivot_step::Change;
use std::alloc::Global;
use std::thread::Threads;

/// What the next step of a run is.
#[derive(Drop)]
pub(crate) enum Found {
    /// The pivot of this entry can be made, of the first listed arc for which one can.
    Pivot {
        entry: Entry,
        change: Change,
        list: Nums,
    },
    /// No arc may enter.
    NoneEnters,
    /// The budget is spent, and this arc may enter.
    Spent(u32),
    /// Nothing stops the flows along this direction.
    Ray(Direction),
    /// The price of an open arc overflows.
    Price(Overflow),
    /// Each attempt with an arc that may enter overflows, and the first one so.
    Attempts(Overflow),
    /// There is not enough memory.
    Memory,
}

// The first marks, so many.
fn first_marks(marks: &[Mark], count: usize) -> &[Mark]
    requires { count ≤ length marks.now }
    ensures { result.now ≡ take count marks.now }
{
    &marks[..count]
}

impl Forest {
    // The arcs that may enter, from the cursor on.
    fn listed(
        &self,
        rt: &(impl Threads + Sync),
        alloc: Global,
        full: &FullNet,
        phase: Phase,
        from: u32,
    ) -> Result<Nums, PriceRefusal>
        requires state { IsState (phase_net phase full.now) (state_of self.now) }
        requires begins { (from < real_arcs full.now) ⊎ (real_arcs full.now ≡ 0) }
        ensures { MatchResult result
            (AreListed (phase_net phase full.now) (real_arcs full.now) (values_of (state_of self.now)))
            (IsPriceCause (phase_net phase full.now) (real_arcs full.now) (values_of (state_of self.now))) }
    {
        cyclic_order();
        let marks = first_marks(&self.marks, full.net.arcs.items.len());
        candidates(rt, alloc, full, phase, &self.potentials, marks, from)
    }

    /// What the next step is: prices all arcs from the cursor on, and tries those that may enter unless the budget is spent, by the homes of
    /// all nodes.
    pub(crate) fn find(
        &self,
        rt: &(impl Threads + Sync),
        alloc: Global,
        full: &FullNet,
        phase: Phase,
        homes: &[u32],
        spent: bool,
        from: u32,
    ) -> Found
        requires kept { IsKept (phase_net phase full.now) self.now }
        requires homes { AreHomes self.now.slots.items homes.now }
        requires state { IsState (phase_net phase full.now) (state_of self.now) }
        requires begins { (from < real_arcs full.now) ⊎ (real_arcs full.now ≡ 0) }
        ensures { IsFound (phase_net phase full.now) (real_arcs full.now) (values_of (state_of self.now)) spent result }
    {
        let list = match self.listed(rt, alloc, full, phase, from) {
            Ok(list) => list,
            Err(PriceRefusal::Past(overflow)) => return Found::Price(overflow),
            Err(PriceRefusal::Memory) => return Found::Memory,
        };
        if list.items.is_empty() {
            return Found::NoneEnters;
        }
        if spent {
            return Found::Spent(list.items[0]);
        }
        match self.pick(alloc, full, phase, homes, list.items.as_slice()) {
            Picked::Ready { entry, change } => Found::Pivot {
                entry,
                change,
                list,
            },
            Picked::Ray(direction) => Found::Ray(direction),
            Picked::Past(overflow) => Found::Attempts(overflow),
            Picked::Memory => Found::Memory,
        }
    }
}
