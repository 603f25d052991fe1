//! What the rows of potentials do over one arc.

ghost use Rattle.std.specs.Prelude.{◌≡◌, ◌<◌, ℕ, length, slice_index};
ghost use Rattle.np_model.specs.Network.Flows.{at};
ghost use Rattle.np_model.specs.Rows.Potentials.{across, scaled_across, end_potential};
ghost use Rattle.tree_search.specs.Places.{numbers_of_nodes, ends_by_place, HasGain};
ghost use Rattle.tree_potentials.specs.Along.{AreWalkable, IsWithin};

use np_frac::{Frac, Past};
use np_model::Ends;
use tree_search::{Step, node_of};

// The potential at the other end of an arc of reduced cost 0, from the one at this node.
fn potential_across(ends: Ends, cost: Frac, node: u32, potential: Frac) -> Result<Frac, Past>
    requires { HasGain ends }
    ensures { result ≡ across ends cost node potential }
{
    match ends {
        Ends::Link { from, gain, .. } => {
            if node == from {
                let difference = potential.minus(cost)?;
                difference.over(gain)
            } else {
                let product = gain.times(potential)?;
                cost.plus(product)
            }
        }
        Ends::Drain(_) | Ends::Feed(_) => Ok(potential),
    }
}

// What a product of gains becomes over an arc that is left at this node.
fn product_across(ends: Ends, node: u32, product: Frac) -> Result<Frac, Past>
    requires { HasGain ends }
    ensures { result ≡ scaled_across ends node product }
{
    match ends {
        Ends::Link { from, gain, .. } => {
            if node == from {
                product.over(gain)
            } else {
                gain.times(product)
            }
        }
        Ends::Drain(_) | Ends::Feed(_) => Ok(product),
    }
}

// The potential that an arc with one end gives its node.
fn potential_at_end(ends: Ends, cost: Frac) -> Frac
    ensures { result ≡ end_potential ends cost }
{
    match ends {
        Ends::Feed(_) => cost.negated(),
        _ => cost,
    }
}

// The lists of a piece that its rows read: its nodes and its basic arcs, and what each of these arcs costs.
#[derive(Clone, Copy)]
pub(crate) struct Rows<'a> {
    pub nodes: &'a [(u32, Frac)],
    pub basics: &'a [(u32, Ends, Frac)],
    pub costs: &'a [Frac],
}

impl<'a> Rows<'a> {
    ghost use Rattle.np_frac.specs.Fits.{Fits};
    ghost use Rattle.np_model.specs.Network.Flows.{at};

    // The potential to which a step leads.
    pub(crate) fn potential_over(&self, step: Step, potential: Frac) -> Result<Frac, Past>
        requires walkable { AreWalkable self.now.basics.now self.now.costs.now }
        requires within { IsWithin self.now.nodes.now self.now.basics.now step }
        ensures { result ≡ across (ends_by_place self.now.basics.now step.arc) (at self.now.costs.now step.arc) (slice_index (numbers_of_nodes self.now.nodes.now) step.near) potential }
    {
        let arc = step.arc as usize;
        potential_across(
            self.basics[arc].1,
            self.costs[arc],
            node_of(self.nodes, step.near),
            potential,
        )
    }

    // The product of gains behind a step.
    pub(crate) fn product_over(&self, step: Step, product: Frac) -> Result<Frac, Past>
        requires walkable { AreWalkable self.now.basics.now self.now.costs.now }
        requires within { IsWithin self.now.nodes.now self.now.basics.now step }
        ensures { result ≡ scaled_across (ends_by_place self.now.basics.now step.arc) (slice_index (numbers_of_nodes self.now.nodes.now) step.near) product }
    {
        product_across(
            self.basics[step.arc as usize].1,
            node_of(self.nodes, step.near),
            product,
        )
    }

    // The potential that the arc with one end at this place gives its node.
    pub(crate) fn potential_at(&self, arc: u32) -> Frac
        requires inside { arc < length self.now.basics.now }
        requires walkable { AreWalkable self.now.basics.now self.now.costs.now }
        ensures value { result ≡ end_potential (ends_by_place self.now.basics.now arc) (at self.now.costs.now arc) }
        ensures fits { Fits result }
    {
        let potential = potential_at_end(self.basics[arc as usize].1, self.costs[arc as usize]);
        // That it fits is told by its numerator.
        let _numerator = potential.num();
        potential
    }
}
