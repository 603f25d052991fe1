//! The arcs of a full network, in the two stages of the solver.

ghost use Rattle.std.specs.Prelude.{◌≡◌, ◌<◌};
ghost use Rattle.np_model.specs.Basis.Graphs.{arc_at, ends_at, cost_at};
ghost use Rattle.np_model.specs.Basis.Phases.{phase_net, all_arcs};
ghost use Rattle.np_model.specs.declared.phase.Phase.{Phase};

use crate::arc::{Ends, Upper};
use crate::network::FullNet;
use crate::phase::Phase;
use np_frac::Frac;

impl FullNet {
    /// The ends of the arc with this number, in either phase.
    pub fn ends(&self, arc: u32) -> Ends
        requires { arc < all_arcs self.now }
        ensures { (phase : Phase) → result ≡ ends_at (phase_net phase self.now).arcs arc }
    {
        let place = arc as usize;
        let real = self.net.arcs.items.len();
        if place < real {
            self.net.arcs.items[place].ends
        } else {
            self.artificial.items[place - real]
        }
    }

    /// The lower bound of the arc with this number, in either phase: 0 for an artificial one.
    #[tactic(auto, using(crate::proofs::FullNets::real_lower, crate::proofs::FullNets::artificial_lower))]
    pub fn lower(&self, arc: u32) -> Frac
        requires { arc < all_arcs self.now }
        ensures { (phase : Phase) → result ≡ (arc_at (phase_net phase self.now).arcs arc).lower }
    {
        let place = arc as usize;
        if place < self.net.arcs.items.len() {
            self.net.arcs.items[place].lower
        } else {
            Frac::whole(0)
        }
    }

    /// The upper bound of the arc with this number: an artificial one has none in stage one, and 0 in stage two.
    #[tactic(auto, using(crate::proofs::FullNets::real_upper, crate::proofs::FullNets::artificial_at))]
    pub fn upper(&self, phase: Phase, arc: u32) -> Upper
        requires { arc < all_arcs self.now }
        ensures { result ≡ (arc_at (phase_net phase self.now).arcs arc).upper }
    {
        let place = arc as usize;
        if place < self.net.arcs.items.len() {
            return self.net.arcs.items[place].upper;
        }
        match phase {
            Phase::One => Upper::Infinite,
            Phase::Two => Upper::Finite(Frac::whole(0)),
        }
    }

    /// The cost of the arc with this number: in stage one that of a real arc is 0 and of an artificial one 1, in stage two that of a real
    /// arc its own and of an artificial one 0.
    #[tactic(auto, using(crate::proofs::FullNets::real_at, crate::proofs::FullNets::artificial_at))]
    pub fn cost(&self, phase: Phase, arc: u32) -> Frac
        requires { arc < all_arcs self.now }
        ensures { result ≡ cost_at (phase_net phase self.now).arcs arc }
    {
        let place = arc as usize;
        let is_real = place < self.net.arcs.items.len();
        match phase {
            Phase::One if is_real => Frac::whole(0),
            Phase::One => Frac::whole(1),
            Phase::Two if is_real => self.net.arcs.items[place].cost,
            Phase::Two => Frac::whole(0),
        }
    }
}
