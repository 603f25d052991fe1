//! The start of stage one.

ghost use Rattle.std.specs.Prelude.{◌≡◌, ℕ, ◌<◌, ◌++◌, [], ◌∷◌, Result, length, map, slice_index_or, if◌then◌else◌, IfOk, OnOk, MatchResult};
ghost use Rattle.np_frac.specs.Ratio.{Ratio, zero_ratio, negated, is_below};
ghost use Rattle.np_frac.specs.declared.frac.Past.{Past as ThePast};
ghost use Rattle.np_model.specs.declared.arc.Ends.TheVariants.{Drain, Feed};
ghost use Rattle.np_model.specs.Network.Flows.{at};
ghost use Rattle.np_model.specs.Basis.Phases.{network_of};
ghost use Rattle.np_model.specs.Rows.Arcs.{residual_of};
ghost use Rattle.basis_start.specs.Start.{AreOfStart, IsCause, IsAnswer};

use crate::refusal::StartRefusal;
use crate::residual::residuals;
use np_frac::{Frac, Memory, Past};
use np_model::{
    Ends, EndsList, Fracs, FullNet, Net, NetArc, NetArcs, Overflow, Place, Row, StartBasis,
};
use std::alloc::Global;

// The ends of the artificial arcs of the first nodes, and the flows of all arcs up to these.
#[derive(Drop)]
struct Artificial {
    ends: Vec<Ends>,
    flows: Vec<Frac>,
}

impl Artificial {
    // The arc of the next node: it takes the residual out, or brings in what is missing.
    fn push(&mut self, node: u32, residual: Frac) -> Result<(), Memory>
        ensures ends { OnOk result (self.new.ends.items ≡ self.old.ends.items ++ (if is_below residual zero_ratio then Feed node else Drain node) ∷ []) }
        ensures flows { OnOk result (self.new.flows.items ≡ self.old.flows.items ++ (if is_below residual zero_ratio then negated residual else residual) ∷ []) }
    {
        if residual.is_below(Frac::whole(0)) {
            self.ends.push(Ends::Feed(node))?;
            self.flows.push(residual.negated())?;
        } else {
            self.ends.push(Ends::Drain(node))?;
            self.flows.push(residual)?;
        }
        Ok(())
    }
}

// The lower bounds of arcs.
fn lowers(alloc: Global, arcs: &[NetArc]) -> Result<Vec<Frac>, Memory>
    ensures { IfOk result (λ flows. flows.items ≡ map (λ arc. arc.lower) arcs.now) }
{
    let mut flows = Vec::with_capacity(alloc, arcs.len())?;
    for arc in arcs {
        flows.push(arc.lower)?;
    }
    Ok(flows)
}

// The artificial arcs of all nodes, for these residuals.
fn artificial_arcs(
    net: &Net,
    found: &[Result<Frac, Past>],
    made: Artificial,
) -> Result<Artificial, StartRefusal>
    requires each { length found.now ≡ length net.now.supply }
    requires residuals { (v : ℕ) (d : Result Ratio ThePast) → v < length net.now.supply
        → slice_index_or found.now v d ≡ residual_of net.now.arcs v (at net.now.supply v) }
    requires none { made.ends.items ≡ [] }
    requires lowers { made.flows.items ≡ map (λ arc. arc.lower) net.now.arcs }
    ensures { MatchResult result (λ all. AreOfStart (network_of net.now) all.ends.items all.flows.items) (IsCause (network_of net.now)) }
{
    let mut made = made;
    for node in 0..found.len() {
        match found[node] {
            Ok(residual) => made.push(node as u32, residual)?,
            Err(past) => {
                return Err(StartRefusal::Past(Overflow {
                    row: Row::A1,
                    place: Place::Node(node as u32),
                    past,
                }));
            }
        }
    }
    Ok(made)
}

// The same network.
fn copied(alloc: Global, net: &Net) -> Result<Net, Memory>
    ensures { IfOk result (λ copy. network_of copy ≡ network_of net.now) }
{
    let supply = Vec::from_slice(alloc, net.supply.as_slice())?;
    let arcs = Vec::from_slice(alloc, net.arcs.as_slice())?;
    Ok(Net {
        supply: Fracs { items: supply },
        arcs: NetArcs { items: arcs },
    })
}

// The lists that the artificial arcs are added to.
fn begun(alloc: Global, net: &Net) -> Result<Artificial, Memory>
    ensures ends { IfOk result (λ made. made.ends.items ≡ []) }
    ensures flows { IfOk result (λ made. made.flows.items ≡ map (λ arc. arc.lower) net.now.arcs) }
{
    let nodes = net.supply.items.len();
    let flows = lowers(alloc, net.arcs.as_slice())?;
    let ends = Vec::with_capacity(alloc, nodes)?;
    Ok(Artificial { ends, flows })
}

/// The basis that stage one starts from. Each arc of the network stands at its lower bound. The residual of a node is its supply less
/// what these flows take from it; its artificial arc is a drain that carries the residual where that is at least 0, and else a feed that
/// carries what is missing. The artificial arc of node v has the number m + v behind m arcs, and the flows stand in the same order.
///
/// [`StartRefusal::Past`] exactly where an operation of some residual (row A1) overflows: over the arcs that touch the node, in ascending
/// number, it takes an arc's lower bound from the running value for a link out of the node or a drain, adds it for a feed, and for a link
/// into the node multiplies it by the gain and adds the product. The first node with such an operation is told, and its first one. Takes
/// time in proportion to the nodes and arcs.
///
/// The start by artificial arcs is that of Ahuja, Magnanti and Orlin, Network Flows, chapter 15.
pub fn start(alloc: Global, net: &Net) -> Result<StartBasis, StartRefusal>
    ensures { IsAnswer (network_of net.now) result }
{
    let found = residuals(alloc, net.supply.as_slice(), net.arcs.as_slice())?;
    let made = artificial_arcs(net, &found, begun(alloc, net)?)?;
    let net = copied(alloc, net)?;
    Ok(StartBasis {
        full: FullNet {
            net,
            artificial: EndsList { items: made.ends },
        },
        flows: Fracs { items: made.flows },
    })
}
