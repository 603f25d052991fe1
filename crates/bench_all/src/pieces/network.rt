//! The network of a shape.

ghost use Rattle.std.specs.Prelude.{◌≡◌, ◌≤◌, map, IfOk};
ghost use Rattle.np_model.specs.declared.phase.Phase.TheVariants.{Two};
ghost use Rattle.np_model.specs.Basis.Phases.{phase_net};
ghost use Rattle.bench_all.specs.Shapes.{net_arcs, full_net};

use crate::nodes::{drains_of, supplies_of};
use crate::pieces::shape::{Shape, ends_of};
use np_frac::Frac;
use np_model::{EndsList, Fracs, FullNet, Net, NetArc, NetArcs, Upper};
use std::alloc::Global;
use std::io;

// The arc of each node: with no upper bound, and at the cost 1.
fn arcs_of(alloc: Global, shape: Shape, nodes: u32) -> io::Result<Vec<NetArc>>
    ensures { IfOk result (λ list. list.items ≡ net_arcs shape nodes) }
{
    let mut list = Vec::new(alloc);
    for node in 0..nodes {
        let ends = ends_of(shape, nodes, node);
        list.push(NetArc {
            ends,
            lower: Frac::whole(0),
            upper: Upper::Infinite,
            cost: Frac::whole(1),
        })?;
    }
    Ok(list)
}

/// The network of a shape, with its artificial arcs.
pub(crate) fn network_of(alloc: Global, shape: Shape, nodes: u32) -> io::Result<FullNet>
    requires some { 2 ≤ nodes }
    requires few { nodes ≤ 20000 }
    ensures { IfOk result (λ full. phase_net Two full ≡ full_net shape nodes) }
{
    let supply = supplies_of(alloc, nodes)?;
    let arcs = arcs_of(alloc, shape, nodes)?;
    let artificial = drains_of(alloc, nodes)?;
    Ok(FullNet {
        net: Net {
            supply: Fracs { items: supply },
            arcs: NetArcs { items: arcs },
        },
        artificial: EndsList { items: artificial },
    })
}
