//! The price of one arc, and whether the arc may enter by it.

ghost use Rattle.std.specs.Prelude.{◌≡◌, ◌<◌, ◌↔◌, IsTrue, IfOk};
ghost use Rattle.np_model.specs.declared.phase.Phase.{Phase as ThePhase};
ghost use Rattle.np_model.specs.Network.Arcs.{reduced_cost};
ghost use Rattle.np_model.specs.Basis.Graphs.{ends_at, cost_at};
ghost use Rattle.np_model.specs.Basis.Moves.{IsOpen, Gains};
ghost use Rattle.np_model.specs.Basis.Phases.{phase_net, real_arcs, all_arcs};
ghost use Rattle.arc_pricing.specs.Prices.{gains, is_open};
ghost use Rattle.np_model.specs.Rows.Prices.{price_at};

use np_frac::Frac;
use np_model::{FullNet, Mark, Overflow, Phase, Place, Row};

/// The price of an arc: its reduced cost in the phase, from the potential at its tail, or at its only node, and the one at its head, which
/// an arc with one end does not use. With potential p, cost c and gain g it is `c - p(i) + g * p(j)` of a link from i to j, `c - p(v)` of a
/// drain at v, and `c + p(v)` of a feed at v.
///
/// An [`Overflow`] of row A2 at the arc exactly where an operation overflows: of a link the product of its gain and the second potential, its
/// cost less the first, and the sum of both, in this order.
///
/// Reduced costs are those of Ahuja, Magnanti and Orlin, Network Flows, chapter 15.
pub fn price(
    full: &FullNet,
    phase: Phase,
    arc: u32,
    first: Frac,
    second: Frac,
) -> Result<Frac, Overflow>
    requires { arc < all_arcs full.now }
    ensures value { result ≡ price_at (phase_net phase full.now) arc first second }
    ensures exact { IfOk result (λ r. r ≡ reduced_cost (ends_at (phase_net phase full.now).arcs arc) (cost_at (phase_net phase full.now).arcs arc) first second) }
{
    match full
        .ends(arc)
        .reduced_cost(full.cost(phase, arc), first, second)
    {
        Ok(reduced) => Ok(reduced),
        Err(past) => Err(Overflow {
            row: Row::A2,
            place: Place::Arc(arc),
            past,
        }),
    }
}

// Whether this mark and this price let an arc enter.
pub(crate) fn gains(mark: Mark, reduced: Frac) -> bool
    ensures { result ≡ gains mark reduced }
{
    let zero = Frac::whole(0);
    match mark {
        Mark::Lower => reduced.is_below(zero),
        Mark::Upper => zero.is_below(reduced),
        Mark::Basic => false,
    }
}

// Whether the arc is a real one with its lower bound below its upper one.
pub(crate) fn is_open(full: &FullNet, arc: u32) -> bool
    ensures { (phase : ThePhase) → result ≡ is_open (phase_net phase full.now) (real_arcs full.now) arc }
{
    let real = full.net.arcs.as_slice();
    let place = arc as usize;
    place < real.len() && real[place].upper.is_above(real[place].lower)
}

/// Whether an arc with this mark and this price may enter the basis: it is a real arc with its lower bound below its upper one, and stands
/// at its lower bound with a price below 0, or at its upper bound with one above 0. An artificial arc never may.
///
/// Eligible arcs are those of Ahuja, Magnanti and Orlin, Network Flows, chapters 11 and 15.
pub fn eligible(full: &FullNet, arc: u32, mark: Mark, reduced: Frac) -> bool
    requires { arc < all_arcs full.now }
    ensures { (phase : ThePhase) → IsTrue result ↔ (IsOpen (phase_net phase full.now) (real_arcs full.now) arc × Gains mark reduced) }
{
    is_open(full, arc) && gains(mark, reduced)
}
