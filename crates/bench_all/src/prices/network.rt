//! The network whose arcs are priced, with potentials and marks.

ghost use Rattle.std.specs.Prelude.{◌≡◌, ◌<◌, length, IfOk};
ghost use Rattle.std.specs.List.{All};
ghost use Rattle.np_frac.specs.Ratio.{zero_ratio, ◌<ᵣ◌};
ghost use Rattle.np_model.specs.Basis.Phases.{real_arcs};
ghost use Rattle.np_model.specs.Network.Arcs.{AreNodes, IsGaining};
ghost use Rattle.np_model.specs.Network.Nets.{IsSoundArc};

use crate::nodes::{drains_of, supplies_of};
use np_frac::Frac;
use np_model::{Ends, EndsList, Fracs, FullNet, Mark, Net, NetArc, NetArcs, Upper};
use std::alloc::Global;
use std::io;

/// The number of nodes.
const NODES: u32 = 1_000;

/// The number of arcs.
pub(crate) const ARCS: u32 = 100_000;

// A fraction above 0, or 1 where these parts make none.
#[tactic(auto, using(np_frac::proofs::Field::one_above))]
fn gain(num: i128, den: i128) -> Frac
    ensures { zero_ratio <ᵣ result }
{
    let value = Frac::new(num, den).unwrap_or(Frac::whole(1));
    if Frac::whole(0).is_below(value) {
        value
    } else {
        Frac::whole(1)
    }
}

// The ends of the link with this number.
fn ends_of(number: u32) -> Ends
    requires { number < 100000 }
    ensures joins { AreNodes 1000 result }
    ensures gains { IsGaining result }
{
    let from = number % NODES;
    let far = from + 1 + number / NODES;
    let to = if far < NODES { far } else { far - NODES };
    let gain = gain(i128::from(90 + number % 20), 100);
    Ends::Link { from, to, gain }
}

// All links, from 0 up to 10.
fn arcs_of(alloc: Global) -> io::Result<Vec<NetArc>>
    ensures many { IfOk result (λ list. length list.items ≡ 100000) }
    ensures sound { IfOk result (λ list. All (IsSoundArc 1000) list.items) }
{
    let mut list = Vec::new(alloc);
    for number in 0..ARCS {
        let ends = ends_of(number);
        list.push(NetArc {
            ends,
            lower: Frac::whole(0),
            upper: Upper::Finite(Frac::whole(10)),
            cost: Frac::whole(i64::from(number % 50) - 10),
        })?;
    }
    Ok(list)
}

/// The network, with its artificial arcs.
pub(crate) fn full_network(alloc: Global) -> io::Result<FullNet>
    ensures nodes { IfOk result (λ full. length full.net.supply ≡ 1000) }
    ensures arcs { IfOk result (λ full. real_arcs full ≡ 100000) }
{
    let supply = supplies_of(alloc, NODES)?;
    let arcs = arcs_of(alloc)?;
    let artificial = drains_of(alloc, NODES)?;
    Ok(FullNet {
        net: Net {
            supply: Fracs { items: supply },
            arcs: NetArcs { items: arcs },
        },
        artificial: EndsList { items: artificial },
    })
}

/// A potential for each node: a number of at most 500 in size over one of at most 8.
pub(crate) fn potentials_of(alloc: Global) -> io::Result<Vec<Frac>>
    ensures { IfOk result (λ list. length list.items ≡ 1000) }
{
    let mut list = Vec::new(alloc);
    for node in 0..NODES {
        let num = i128::from(node * 37 % 1_000) - 500;
        let value = Frac::new(num, i128::from(1 + node % 8));
        list.push(value.unwrap_or(Frac::whole(0)))?;
    }
    Ok(list)
}

/// A mark for each arc: a tenth of them is basic, and of the others a third at the upper bound.
pub(crate) fn marks_of(alloc: Global) -> io::Result<Vec<Mark>>
    ensures { IfOk result (λ list. length list.items ≡ 100000) }
{
    let mut list = Vec::new(alloc);
    for number in 0..ARCS {
        list.push(mark(number))?;
    }
    Ok(list)
}

fn mark(number: u32) -> Mark {
    if number % 10 == 9 {
        Mark::Basic
    } else if number % 3 == 0 {
        Mark::Upper
    } else {
        Mark::Lower
    }
}
