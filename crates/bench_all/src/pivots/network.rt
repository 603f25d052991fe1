//! The network of a case: a chain, and the arcs that enter by turns.
//!
//! The chain leads from the last node to the first one. The link out of node i has half the greatest power of two that divides i as its gain,
//! so that a unit at node i is 1 over two to the number of ones of i at node 0: numbers stay small, and in stage one, where each node but the one
//! that needs something has an artificial drain with the potential 1, links join pieces of equal size, first of one node, then of two, of four
//! and so on.

ghost use Rattle.std.specs.Prelude.{◌≡◌, ◌≢◌, ◌<◌, ◌≤◌, length, IfOk, OnOk};
ghost use Rattle.std.specs.List.{All};
ghost use Rattle.np_frac.specs.Ratio.{zero_ratio};
ghost use Rattle.np_model.specs.Network.Arcs.{AreNodes, IsGaining};
ghost use Rattle.np_model.specs.Network.Nets.{IsSoundArc};

use crate::pivots::shape::{Case, Shape};
use np_frac::Frac;
use np_model::{Ends, Fracs, Net, NetArc, NetArcs, Upper};
use std::alloc::{AllocError, Global};
use std::io;

// So many parts of a fraction, or 0 where that overflows.
fn part(unit: Frac, num: i128, den: i128) -> Frac {
    let factor = Frac::new(num, den).unwrap_or(Frac::whole(0));
    match unit.times(factor) {
        Ok(value) => value,
        Err(_) => Frac::whole(0),
    }
}

// A link with this gain, or with the gain 1 where these parts make none.
#[tactic(auto, using(np_frac::proofs::Field::one_above))]
fn link(nodes: u32, from: u32, to: u32, num: u32, den: u32) -> Ends
    requires one { from < nodes }
    requires other { to < nodes }
    requires apart { from ≢ to }
    ensures joins { AreNodes nodes result }
    ensures gains { IsGaining result }
{
    let one = Frac::whole(1);
    let gain = Frac::new(i128::from(num), i128::from(den)).unwrap_or(one);
    if Frac::whole(0).is_below(gain) {
        Ends::Link { from, to, gain }
    } else {
        Ends::Link {
            from,
            to,
            gain: one,
        }
    }
}

// Appends an arc from 0 with no upper bound.
fn add(nodes: u32, list: &mut Vec<NetArc>, ends: Ends, cost: Frac) -> Result<(), AllocError>
    requires joins { AreNodes nodes ends }
    requires gains { IsGaining ends }
    requires sound { All (IsSoundArc nodes) list.old.items }
    ensures { OnOk result (All (IsSoundArc nodes) list.new.items) }
{
    list.push(NetArc {
        ends,
        lower: Frac::whole(0),
        upper: Upper::Infinite,
        cost,
    })?;
    Ok(())
}

// The cost of the link out of a node to the one before. Potentials that are 0 at the last node are 1 at each even node but the first one, and
// 0 at all others.
fn chain_cost(node: u32, unit: Frac) -> Frac {
    if node % 2 == 0 {
        unit
    } else if node == 1 {
        Frac::whole(0)
    } else {
        part(unit, -1, 2)
    }
}

// Appends the links out of the nodes whose numbers this power of two divides and no greater one.
fn add_level(case: &Case, level: u32, list: &mut Vec<NetArc>) -> Result<(), AllocError>
    requires some { 0 < level }
    requires few { level ≤ 8192 }
    requires sound { All (IsSoundArc case.now.nodes) list.old.items }
    ensures { OnOk result (All (IsSoundArc case.now.nodes) list.new.items) }
{
    let nodes = case.nodes;
    for node in 1..nodes {
        let joins = case.shape == Shape::Joined && node == case.top;
        if node % (2 * level) == level && !joins {
            let ends = link(nodes, node, node - 1, level, 2);
            add(nodes, list, ends, chain_cost(node, case.unit))?;
        }
    }
    Ok(())
}

// The chain, in the order in which it is joined: without the last of these links where that enters by turns.
fn chain_of(alloc: Global, case: &Case) -> Result<Vec<NetArc>, AllocError>
    ensures { IfOk result (λ list. All (IsSoundArc case.now.nodes) list.items) }
{
    let mut list = Vec::new(alloc);
    let mut level = 1;
    while level <= 8_192 {
        add_level(case, level, &mut list)?;
        level *= 2;
    }
    Ok(list)
}

// The ends of the arc of a turn. Of what enters the link that closes the chain, a half comes back by it and the chain, or a quarter in odd
// turns.
fn turn_ends(case: &Case, turn: u32) -> Ends
    requires some { 0 < case.now.top }
    requires inside { case.now.top < case.now.nodes }
    ensures joins { AreNodes case.now.nodes result }
    ensures gains { IsGaining result }
{
    let nodes = case.nodes;
    let odd = turn % 2 == 1;
    match case.shape {
        Shape::Cycle => link(nodes, 0, nodes - 1, case.loss, if odd { 4 } else { 2 }),
        _ if odd => Ends::Drain(nodes - 1),
        Shape::Tree => Ends::Drain(0),
        Shape::Joined => link(nodes, case.top, case.top - 1, case.top, 2),
    }
}

// The cost of the arc of a turn: with it all that is supplied costs less than with that of the turn before, whose place it takes.
fn turn_cost(case: &Case, turn: u32) -> Frac {
    let times = i128::from(turn);
    let odd = turn % 2 == 1;
    let scaled = (-times).wrapping_mul(i128::from(case.loss));
    match case.shape {
        Shape::Cycle if odd => part(case.unit, -(times * 3), 4),
        Shape::Cycle => part(case.unit, -times, 2),
        _ if odd => part(case.unit, -times, 1),
        Shape::Tree => part(case.unit, scaled, 1),
        Shape::Joined => part(case.unit, scaled.wrapping_add(2), 2),
    }
}

// The chain, and the arcs of so many turns. Where the chain is joined by turns, its first node has a drain.
fn arcs_of(alloc: Global, case: &Case, turns: u32) -> Result<Vec<NetArc>, AllocError>
    requires some { 0 < case.now.top }
    requires inside { case.now.top < case.now.nodes }
    ensures { IfOk result (λ list. All (IsSoundArc case.now.nodes) list.items) }
{
    let mut list = chain_of(alloc, case)?;
    if case.shape == Shape::Joined {
        add(case.nodes, &mut list, Ends::Drain(0), Frac::whole(0))?;
    }
    for turn in 0..turns {
        add(
            case.nodes,
            &mut list,
            turn_ends(case, turn),
            turn_cost(case, turn),
        )?;
    }
    Ok(list)
}

// What a node supplies. To the first node of the chain, or of the end that is joined to it by turns, comes at least twice what it needs; the node
// before that end supplies a unit of its own. So no link of the chain is empty when the arc of the turn before is, which alone leaves.
fn supply_at(case: &Case, node: u32) -> Frac
    requires inside { node < case.now.nodes }
    requires some { 0 < case.now.top }
{
    let joined = case.shape == Shape::Joined;
    let needs = if joined { case.top } else { 0 };
    if node == case.nodes - 1 {
        part(case.unit, i128::from(case.loss) * 2, 1)
    } else if node == needs {
        case.unit.negated()
    } else if joined && node == case.top - 1 {
        case.unit
    } else {
        Frac::whole(0)
    }
}

// The supply of each node.
fn supplies_of(alloc: Global, case: &Case) -> Result<Vec<Frac>, AllocError>
    requires { 0 < case.now.top }
    ensures { IfOk result (λ list. length list.items ≡ case.now.nodes) }
{
    let mut list = Vec::new(alloc);
    for node in 0..case.nodes {
        list.push(supply_at(case, node))?;
    }
    Ok(list)
}

/// The network of a case with so many turns: an error where it has too many nodes or arcs.
pub(crate) fn network_of(alloc: Global, case: &Case, turns: u32) -> io::Result<Net>
    requires some { 0 < case.now.top }
    requires inside { case.now.top < case.now.nodes }
{
    let supply = supplies_of(alloc, case)?;
    let arcs = arcs_of(alloc, case, turns)?;
    if supply.len() > 20_000 || arcs.len() > 100_000 {
        return Err(io::Error::from(io::ErrorKind::Other));
    }
    Ok(Net {
        supply: Fracs { items: supply },
        arcs: NetArcs { items: arcs },
    })
}
