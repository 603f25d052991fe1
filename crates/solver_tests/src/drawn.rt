//! A hundred drawn networks, each solved by one worker and by three: what each run ends in is tested by plain code, and so are the marks that its
//! log leads to.

ghost use Rattle.std.specs.Prelude.{◌<◌};
ghost use Rattle.np_model.specs.Network.Nets.{IsSoundArc};

use crate::fixtures::{arc, link, network, over, solved_by};
use np_frac::{Frac, Memory, Past};
use np_model::{Ends, Log, Mark, Net, NetArc, Outcome, Upper};
use std::alloc::Global;
use std::test::Fail;
use std::thread::Threads;

// ---- flows and potentials, by plain code

fn at(values: &[Frac], place: u32) -> Frac {
    match values.get(place as usize) {
        Some(value) => *value,
        None => Frac::whole(0),
    }
}

// What an arc with these ends takes from a node, with so much on it.
fn taken(ends: &Ends, node: u32, amount: Frac) -> Result<Frac, Past> {
    match ends {
        Ends::Link { from, to, gain } => {
            if *from == node {
                Ok(amount)
            } else if *to == node {
                Ok(gain.times(amount)?.negated())
            } else {
                Ok(Frac::whole(0))
            }
        }
        Ends::Drain(end) => Ok(if *end == node { amount } else { Frac::whole(0) }),
        Ends::Feed(end) => Ok(if *end == node {
            amount.negated()
        } else {
            Frac::whole(0)
        }),
    }
}

// The reduced cost of an arc.
fn reduced(ends: &Ends, cost: Frac, potentials: &[Frac]) -> Result<Frac, Past> {
    match ends {
        Ends::Link { from, to, gain } => cost
            .minus(at(potentials, *from))?
            .plus(gain.times(at(potentials, *to))?),
        Ends::Drain(node) => cost.minus(at(potentials, *node)),
        Ends::Feed(node) => cost.plus(at(potentials, *node)),
    }
}

fn is_full(upper: Upper, flow: Frac) -> bool {
    match upper {
        Upper::Finite(bound) => flow.is_same(bound),
        Upper::Infinite => false,
    }
}

fn is_under(upper: Upper, flow: Frac) -> bool {
    match upper {
        Upper::Finite(bound) => !bound.is_below(flow),
        Upper::Infinite => true,
    }
}

// Whether a flow is what the mark of its arc says: within the bounds, and at the bound that is marked.
fn is_placed(arc: &NetArc, mark: Mark, flow: Frac) -> bool {
    if flow.is_below(arc.lower) || !is_under(arc.upper, flow) {
        return false;
    }
    match mark {
        Mark::Lower => flow.is_same(arc.lower),
        Mark::Upper => is_full(arc.upper, flow),
        Mark::Basic => true,
    }
}

// Whether a reduced cost is one that an arc with this mark may have where no arc may enter: an arc that is fixed may have any.
fn is_priced(arc: &NetArc, mark: Mark, price: Frac) -> bool {
    let none = Frac::whole(0);
    match mark {
        Mark::Lower => !price.is_below(none) || is_full(arc.upper, arc.lower),
        Mark::Upper => !none.is_below(price) || is_full(arc.upper, arc.lower),
        Mark::Basic => price.is_same(none),
    }
}

fn mark_at(marks: &[Mark], arc: usize) -> Mark {
    match marks.get(arc) {
        Some(mark) => *mark,
        None => Mark::Lower,
    }
}

// Whether the flows are what the marks say.
fn are_placed(net: &Net, marks: &[Mark], flows: &[Frac]) -> bool {
    let mut number: u32 = 0;
    for arc in &net.arcs.items {
        if !is_placed(arc, mark_at(marks, number as usize), at(flows, number)) {
            return false;
        }
        number = number.saturating_add(1);
    }
    true
}

// Whether the reduced costs are what the marks say, at the costs of the arcs or at none.
fn are_priced(net: &Net, marks: &[Mark], potentials: &[Frac], costs: bool) -> Result<bool, Past> {
    let mut number: usize = 0;
    for arc in &net.arcs.items {
        let cost = if costs { arc.cost } else { Frac::whole(0) };
        let price = reduced(&arc.ends, cost, potentials)?;
        if !is_priced(arc, mark_at(marks, number), price) {
            return Ok(false);
        }
        number = number.saturating_add(1);
    }
    Ok(true)
}

// What the flows take from a node.
fn taken_in_all(net: &Net, flows: &[Frac], node: u32) -> Result<Frac, Past> {
    let mut sum = Frac::whole(0);
    let mut number: u32 = 0;
    for arc in &net.arcs.items {
        sum = sum.plus(taken(&arc.ends, node, at(flows, number))?)?;
        number = number.saturating_add(1);
    }
    Ok(sum)
}

// Whether the flows take from each node what it supplies, or nothing.
fn nodes_hold(net: &Net, flows: &[Frac], supplied: bool) -> Result<bool, Past> {
    let mut node: u32 = 0;
    for supply in &net.supply.items {
        let want = if supplied { *supply } else { Frac::whole(0) };
        if !taken_in_all(net, flows, node)?.is_same(want) {
            return Ok(false);
        }
        node = node.saturating_add(1);
    }
    Ok(true)
}

// What the flows cost.
fn cost_of(net: &Net, flows: &[Frac]) -> Result<Frac, Past> {
    let mut sum = Frac::whole(0);
    let mut number: u32 = 0;
    for arc in &net.arcs.items {
        sum = sum.plus(arc.cost.times(at(flows, number))?)?;
        number = number.saturating_add(1);
    }
    Ok(sum)
}

// By how much the supplies are worth more at these potentials than flows within the bounds can be; none where an arc has no greatest worth.
fn gap_of(net: &Net, potentials: &[Frac]) -> Result<Option<Frac>, Past> {
    let none = Frac::whole(0);
    let mut gap = none;
    let mut node: u32 = 0;
    for supply in &net.supply.items {
        gap = gap.plus(supply.times(at(potentials, node))?)?;
        node = node.saturating_add(1);
    }
    for arc in &net.arcs.items {
        let price = reduced(&arc.ends, none, potentials)?;
        if !price.is_below(none) {
            gap = gap.plus(price.times(arc.lower)?)?;
        } else if let Upper::Finite(most) = arc.upper {
            gap = gap.plus(price.times(most)?)?;
        } else {
            return Ok(None);
        }
    }
    Ok(Some(gap))
}

// Whether a ray goes up without end, and only up.
fn goes_up(net: &Net, ray: &[Frac]) -> bool {
    let none = Frac::whole(0);
    let mut number: u32 = 0;
    for arc in &net.arcs.items {
        let amount = at(ray, number);
        if amount.is_below(none) || none.is_below(amount) && arc.upper != Upper::Infinite {
            return false;
        }
        number = number.saturating_add(1);
    }
    true
}

// ---- the log

// The marks that a log leads to, of the arcs and of an artificial one for each node; none where an arc enters that is basic, or one leaves that is not.
fn marks_of(alloc: Global, net: &Net, log: &Log) -> Result<Option<Vec<Mark>>, Fail> {
    let mut marks = Vec::new(alloc);
    for _ in &net.arcs.items {
        marks.push(Mark::Lower)?;
    }
    for _ in &net.supply.items {
        marks.push(Mark::Basic)?;
    }
    for entry in &log.entries.items {
        let (enter, leave) = (entry.enter as usize, entry.leave as usize);
        if enter >= marks.len() || leave >= marks.len() || marks[enter] == Mark::Basic {
            return Ok(None);
        }
        marks[enter] = Mark::Basic;
        if marks[leave] != Mark::Basic || entry.leave_at == Mark::Basic {
            return Ok(None);
        }
        marks[leave] = entry.leave_at;
    }
    Ok(Some(marks))
}

// ---- endings

// What a run has ended in, and in how many pivots.
#[derive(Clone, Copy, Debug, PartialEq, Eq)]
enum Ending {
    Least(Frac),
    Infeasible,
    Unbounded,
}

fn is_plan(net: &Net, marks: &[Mark], flows: &[Frac]) -> Result<bool, Past> {
    Ok(are_placed(net, marks, flows) && nodes_hold(net, flows, true)?)
}

// Flows and potentials that show that no plan costs less.
fn least(net: &Net, marks: &[Mark], flows: &[Frac], potentials: &[Frac]) -> Result<bool, Past> {
    Ok(is_plan(net, marks, flows)? && are_priced(net, marks, potentials, true)?)
}

// Potentials that show that there is no plan.
fn infeasible(net: &Net, marks: &[Mark], potentials: &[Frac]) -> Result<bool, Past> {
    let gap = match gap_of(net, potentials)? {
        Some(gap) => gap,
        None => Frac::whole(0),
    };
    Ok(Frac::whole(0).is_below(gap) && are_priced(net, marks, potentials, false)?)
}

// A plan, and a ray along which it costs ever less.
fn unbounded(net: &Net, marks: &[Mark], flows: &[Frac], ray: &[Frac]) -> Result<bool, Past> {
    Ok(
        is_plan(net, marks, flows)?
            && goes_up(net, ray)
            && nodes_hold(net, ray, false)?
            && cost_of(net, ray)?.is_below(Frac::whole(0)),
    )
}

// The ending that an outcome shows with these marks; none where it does not show it.
fn shown(net: &Net, marks: &[Mark], outcome: &Outcome) -> Result<Option<Ending>, Past> {
    match outcome {
        Outcome::Optimal {
            flows,
            potentials,
            ..
        } => {
            let flows = flows.items.as_slice();
            if least(net, marks, flows, potentials.items.as_slice())? {
                return Ok(Some(Ending::Least(cost_of(net, flows)?)));
            }
        }
        Outcome::Infeasible { potentials, .. } => {
            if infeasible(net, marks, potentials.items.as_slice())? {
                return Ok(Some(Ending::Infeasible));
            }
        }
        Outcome::Unbounded { flows, ray, .. } => {
            if unbounded(net, marks, flows.items.as_slice(), ray.items.as_slice())? {
                return Ok(Some(Ending::Unbounded));
            }
        }
        _ => {}
    }
    Ok(None)
}

fn log_of(outcome: &Outcome) -> &Log {
    match outcome {
        Outcome::Optimal { log, .. } => log,
        Outcome::Infeasible { log, .. } => log,
        Outcome::Unbounded { log, .. } => log,
        Outcome::Budget { log, .. } => log,
        Outcome::Overflow { log, .. } => log,
    }
}

// ---- drawn networks

// The next drawn number.
fn next(seed: u64) -> u64 {
    seed.wrapping_mul(6364136223846793005)
        .wrapping_add(1442695040888963407)
}

// A number below this one, which is not 0.
fn below(seed: u64, count: u32) -> u32
    requires { 0 < count }
    ensures { result < count }
{
    ((seed >> 33) % u64::from(count)) as u32
}

// A drawn gain: a quarter, a half, 1, or 2.
fn drawn_gain(seed: u64) -> Frac {
    let quarters = [1, 2, 4, 8];
    over(quarters[below(seed, 4) as usize], 4)
}

// A drawn arc of four nodes: a link where its ends differ, else a drain or a feed; with an upper bound of 0 to 5, or none.
fn drawn_arc(seed: u64) -> NetArc
    ensures { IsSoundArc 4 result }
{
    let second = next(seed);
    let third = next(second);
    let fourth = next(third);
    let (from, to) = (below(seed, 4), below(second, 4));
    let ends = if from != to {
        link(4, from, to, drawn_gain(third))
    } else if below(third, 2) == 0 {
        Ends::Drain(from)
    } else {
        Ends::Feed(from)
    };
    let plain = arc(4, ends, i64::from(below(fourth, 9)) - 3);
    bounded(plain, below(next(fourth), 9))
}

// An arc with this upper bound where it is at most 5.
fn bounded(arc: NetArc, bound: u32) -> NetArc
    requires { IsSoundArc 4 arc }
    ensures { IsSoundArc 4 result }
{
    if bound > 5 {
        return arc;
    }
    let most = Frac::whole(i64::from(bound));
    let upper = if most.is_below(arc.lower) {
        arc.lower
    } else {
        most
    };
    NetArc {
        ends: arc.ends,
        lower: arc.lower,
        upper: Upper::Finite(upper),
        cost: arc.cost,
    }
}

fn drawn_supply(seed: u64) -> Frac {
    Frac::whole(i64::from(below(seed, 7)) - 3)
}

// A drawn network of four nodes and eight arcs.
fn drawn(alloc: Global, seed: u64) -> Result<Net, Memory> {
    let second = next(seed);
    let third = next(second);
    let fourth = next(third);
    let supply = [
        drawn_supply(seed),
        drawn_supply(second),
        drawn_supply(third),
        drawn_supply(fourth),
    ];
    let arcs = [
        drawn_arc(seed ^ 101),
        drawn_arc(seed ^ 202),
        drawn_arc(seed ^ 303),
        drawn_arc(seed ^ 404),
        drawn_arc(seed ^ 505),
        drawn_arc(seed ^ 606),
        drawn_arc(seed ^ 707),
        drawn_arc(seed ^ 808),
    ];
    network(alloc, &supply, &arcs)
}

// What a network is solved to by one worker or by three, and in how many pivots.
fn ended(
    rt: &(impl Threads + Sync),
    alloc: Global,
    net: &Net,
    three: bool,
) -> Result<(Ending, usize), Fail> {
    let outcome = if three {
        solved_by(rt, alloc, net, 3, 1000)?
    } else {
        solved_by(rt, alloc, net, 1, 1000)?
    };
    let log = log_of(&outcome);
    let Some(marks) = marks_of(alloc, net, log)? else {
        return Err(Fail::from("a log that is none"));
    };
    match shown(net, marks.as_slice(), &outcome) {
        Ok(Some(ending)) => Ok((ending, log.entries.items.len())),
        _ => Err(Fail::from("an ending that is not shown")),
    }
}

// The pivots of both runs over a drawn network, which end alike.
fn pivots_over(rt: &(impl Threads + Sync), alloc: Global, seed: u64) -> Result<usize, Fail> {
    let net = drawn(alloc, seed)?;
    let (alone, first) = ended(rt, alloc, &net, false)?;
    let (together, second) = ended(rt, alloc, &net, true)?;
    if alone != together {
        return Err(Fail::from("two endings"));
    }
    Ok(first.min(second))
}

#[test]
fn hundred_networks(rt: HostRuntime) -> Result<(), Fail> {
    let mut pivots: usize = 0;
    for seed in 0..100 {
        pivots = pivots.saturating_add(pivots_over(&rt, rt.alloc(), next(seed))?);
    }
    // The runs are not empty ones.
    assert!(rt; pivots >= 100);
    Ok(())
}
