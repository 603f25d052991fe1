//! Small networks, and what they are solved to.

ghost use Rattle.std.specs.Prelude.{◌≡◌, ◌≢◌, ◌<◌, ◌≤◌, length};
ghost use Rattle.std.specs.List.{All};
ghost use Rattle.np_model.specs.Network.Arcs.{AreNodes, IsGaining};
ghost use Rattle.np_model.specs.Network.Nets.{IsSoundArc};
ghost use Rattle.simplex_driver.specs.Budgets.{IsCrew, IsBudget};

use np_frac::{Frac, Memory};
use np_model::{Ends, Entry, Fracs, Log, Mark, Net, NetArc, NetArcs, OpenGate, Outcome, Upper};
use simplex_driver::solve;
use std::alloc::Global;
use std::test::Fail;
use std::thread::Threads;

// A fraction, or 1 where there is none.
pub(crate) fn over(num: i128, den: i128) -> Frac {
    Frac::new(num, den).unwrap_or(Frac::whole(1))
}

// A link with this gain, or a drain where it is not above 0.
pub(crate) fn link(nodes: u32, from: u32, to: u32, gain: Frac) -> Ends
    requires one { from < nodes }
    requires other { to < nodes }
    requires apart { from ≢ to }
    ensures joins { AreNodes nodes result }
    ensures gains { IsGaining result }
{
    if Frac::whole(0).is_below(gain) {
        Ends::Link { from, to, gain }
    } else {
        Ends::Drain(from)
    }
}

// An arc from 0 with no upper bound, in a network of so many nodes.
pub(crate) fn arc(nodes: u32, ends: Ends, cost: i64) -> NetArc
    requires joins { AreNodes nodes ends }
    requires gains { IsGaining ends }
    ensures { IsSoundArc nodes result }
{
    NetArc {
        ends,
        lower: Frac::whole(0),
        upper: Upper::Infinite,
        cost: Frac::whole(cost),
    }
}

// A drain of the one node of a network, between these bounds, or up to its lower bound where the other is below that.
pub(crate) fn drain(lower: Frac, upper: Frac, cost: i64) -> NetArc
    ensures { IsSoundArc 1 result }
{
    let upper = if upper.is_below(lower) { lower } else { upper };
    NetArc {
        ends: Ends::Drain(0),
        lower,
        upper: Upper::Finite(upper),
        cost: Frac::whole(cost),
    }
}

// The network with these supplies and arcs.
pub(crate) fn network(alloc: Global, supply: &[Frac], arcs: &[NetArc]) -> Result<Net, Memory>
    requires few_nodes { length supply.now ≤ 20000 }
    requires few_arcs { length arcs.now ≤ 100000 }
    requires sound { All (IsSoundArc (length supply.now)) arcs.now }
{
    Ok(Net {
        supply: Fracs {
            items: Vec::from_slice(alloc, supply)?,
        },
        arcs: NetArcs {
            items: Vec::from_slice(alloc, arcs)?,
        },
    })
}

pub(crate) fn solved_by(
    rt: &(impl Threads + Sync),
    alloc: Global,
    net: &Net,
    workers: u32,
    budget: u32,
) -> Result<Outcome, Fail>
    requires crew { IsCrew workers }
    requires budget { IsBudget budget }
{
    match solve(rt, alloc, net, workers, budget, &OpenGate) {
        Ok(outcome) => Ok(outcome),
        Err(_) => Err(Fail::from("no memory")),
    }
}

pub(crate) fn solved(
    rt: &(impl Threads + Sync),
    alloc: Global,
    net: &Net,
    budget: u32,
) -> Result<Outcome, Fail>
    requires { IsBudget budget }
{
    solved_by(rt, alloc, net, 1, budget)
}

// A pivot after which the arc that leaves stands at its lower bound.
pub(crate) fn entry(enter: u32, leave: u32) -> Entry {
    Entry {
        enter,
        leave,
        leave_at: Mark::Lower,
    }
}

pub(crate) fn is_log(log: &Log, turned: Option<u32>, entries: &[Entry]) -> bool {
    log.turned == turned && log.entries.items.as_slice() == entries
}

pub(crate) fn is_optimal(
    outcome: &Outcome,
    flows: &[Frac],
    potentials: &[Frac],
    turned: u32,
    entries: &[Entry],
) -> bool {
    match outcome {
        Outcome::Optimal {
            flows: found,
            potentials: prices,
            log,
        } => {
            found.items.as_slice() == flows
                && prices.items.as_slice() == potentials
                && is_log(log, Some(turned), entries)
        }
        _ => false,
    }
}
