//! An attempt with one arc, and the pivot that it prepares.

ghost use Rattle.std.specs.Prelude.{◌≡◌, ◌<◌, ◌==◌, length};
ghost use Rattle.np_model.specs.Basis.Phases.{phase_net, real_arcs, all_arcs};
ghost use Rattle.np_model.specs.Basis.Pivots.{IsPivot};
ghost use Rattle.np_model.specs.Basis.States.{values_of, IsState};
ghost use Rattle.piece_lists.specs.Parts.{lists_in};
ghost use Rattle.simplex_driver.specs.Homes.{home_at, AreHomes};
ghost use Rattle.simplex_driver.specs.Store.{state_of, IsKept};
ghost use Rattle.simplex_driver.specs.Picks.{IsAttempt, CanPivot};

use crate::forest::Forest;
use np_model::{Ends, Entry, FullNet, Phase, Prepared};
use pivot_step::{Change, apply, flow_at, prepare};
use std::alloc::Global;

// Whether two nodes lie in the same piece.
fn share_home(homes: &[u32], node: u32, other: u32) -> bool
    requires one { node < length homes.now }
    requires another { other < length homes.now }
    ensures { result ≡ (home_at homes.now node == home_at homes.now other) }
{
    homes[node as usize] == homes[other as usize]
}

impl Forest {
    /// Tries to let an arc enter, on the pieces that it needs, by the homes of all nodes.
    pub(crate) fn attempt(
        &self,
        alloc: Global,
        full: &FullNet,
        phase: Phase,
        homes: &[u32],
        arc: u32,
    ) -> Prepared<Change>
        requires kept { IsKept (phase_net phase full.now) self.now }
        requires homes { AreHomes self.now.slots.items homes.now }
        requires state { IsState (phase_net phase full.now) (state_of self.now) }
        requires is_arc { arc < all_arcs full.now }
        ensures { IsAttempt (phase_net phase full.now) (real_arcs full.now) (values_of (state_of self.now)) arc result }
    {
        match full.ends(arc) {
            Ends::Drain(node) => prepare(alloc, full, phase, self.piece_of(homes, node), None, arc),
            Ends::Feed(node) => prepare(alloc, full, phase, self.piece_of(homes, node), None, arc),
            Ends::Link { from, to, .. } => {
                let first = self.piece_of(homes, from);
                if share_home(homes, from, to) {
                    return prepare(alloc, full, phase, first, None, arc);
                }
                prepare(
                    alloc,
                    full,
                    phase,
                    first,
                    Some(self.piece_of(homes, to)),
                    arc,
                )
            }
        }
    }

    /// Makes a pivot that was prepared, by the homes of all nodes before it: the pieces after it take the place of those that its arc needs,
    /// and the tables become those of the state after. No other slot is touched.
    pub(crate) fn pivot(
        &mut self,
        full: &FullNet,
        phase: Phase,
        homes: &[u32],
        entry: Entry,
        change: Change,
    )
        requires kept { IsKept (phase_net phase full.now) self.old }
        requires homes { AreHomes self.old.slots.items homes.now }
        requires state { IsState (phase_net phase full.now) (state_of self.old) }
        requires can { CanPivot (phase_net phase full.now) (real_arcs full.now) (values_of (state_of self.old)) entry (lists_in change) }
        ensures pivot { IsPivot (phase_net phase full.now) (real_arcs full.now) (state_of self.old) entry (state_of self.new) }
        ensures kept { IsKept (phase_net phase full.now) self.new }
    {
        self.vacate(homes, full.ends(entry.enter));
        self.house_all(apply(change));
        self.mark(entry, flow_at(full, phase, entry.leave, entry.leave_at));
    }
}
