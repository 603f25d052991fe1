//! The parts of the demo network.

ghost use Rattle.std.specs.Prelude.{◌≡◌, ◌++◌, ◌<◌, ◌≤◌, [], IfOk, OnOk, length};
ghost use Rattle.demo_network.specs.Demo.{amount, one_half, named, supply_in, node_names, supplies, link_between, hold_at, drain_at, feed_at, flows_at, flows};

use itoa::Buffer;
use np_frac::{Frac, Memory};
use np_model::{Band, Bands, Flow, FlowKind, Flows, Fracs, Name, Names, Upper};
use std::alloc::Global;

fn one_half() -> Frac
    ensures { result ≡ one_half }
{
    match Frac::new(1, 2) {
        Some(half) => half,
        None => unreachable!(),
    }
}

// The name of these letters and this number.
fn named(alloc: Global, letters: &[u8], number: u32) -> Result<Name, Memory>
    ensures { IfOk result (λ name. name ≡ named letters.now number) }
{
    let mut buffer = Buffer::new();
    let mut bytes = Vec::from_slice(alloc, letters)?;
    bytes.extend_from_slice(buffer.format(number).as_bytes())?;
    Ok(Name { items: bytes })
}

/// The names of so many nodes.
pub(crate) fn node_names(alloc: Global, number: u32) -> Result<Names, Memory>
    ensures { IfOk result (λ names. names ≡ node_names number) }
{
    let mut items = Vec::new(alloc);
    for node in 0..number {
        items.push(named(alloc, b"n", node)?)?;
    }
    Ok(Names { items })
}

// The supply of a node in a period.
fn supply_in(node: u32, period: u32) -> Frac
    requires nodes { node < 1000 }
    requires periods { period ≤ 8 }
    ensures { result ≡ supply_in node period }
{
    Frac::whole(i64::from((7 * node + 5 * period) % 11) - 5)
}

/// The supplies of so many nodes in eight periods.
pub(crate) fn supplies(alloc: Global, number: u32) -> Result<Fracs, Memory>
    requires some { 1 ≤ number }
    requires few { number ≤ 1000 }
    ensures { IfOk result (λ amounts. amounts ≡ supplies number) }
{
    let mut items = Vec::new(alloc);
    for place in 0..8 * number {
        items.push(supply_in(place % number, place / number + 1))?;
    }
    Ok(Fracs { items })
}

// ---- flows

// A flow from 0 without bands.
fn plain_flow(alloc: Global, name: Name, kind: FlowKind, upper: Upper, cost: u32) -> Flow
    ensures { result ≡ record { name = name; kind = kind; lower = amount 0; upper = upper; cost = amount cost; bands = [] } }
{
    Flow {
        name,
        kind,
        lower: Frac::whole(0),
        upper,
        cost: Frac::whole(i64::from(cost)),
        bands: Bands {
            items: Vec::new(alloc),
        },
    }
}

// Adds a link with gain 1 between two nodes, where they are not the same.
fn push_link(
    alloc: Global,
    flows: &mut Vec<Flow>,
    letter: &[u8],
    from: u32,
    to: u32,
    most: u32,
    cost: u32,
) -> Result<(), Memory>
    ensures { OnOk result (flows.new.items ≡ flows.old.items ++ link_between (named letter.now from) from to most cost) }
{
    if from == to {
        return Ok(());
    }
    let name = named(alloc, letter, from)?;
    let gain = Frac::whole(1);
    let upper = Upper::Finite(Frac::whole(i64::from(most)));
    flows.push(plain_flow(alloc, name, FlowKind::Link { from, to, gain }, upper, cost))?;
    Ok(())
}

fn hold_at(alloc: Global, node: u32) -> Result<Flow, Memory>
    ensures { IfOk result (λ flow. flow ≡ hold_at node) }
{
    let name = named(alloc, b"h", node)?;
    let gain = one_half();
    let upper = Upper::Finite(Frac::whole(8));
    Ok(plain_flow(alloc, name, FlowKind::Hold { node, gain }, upper, 0))
}

fn drain_at(alloc: Global, node: u32) -> Result<Flow, Memory>
    ensures { IfOk result (λ flow. flow ≡ drain_at node) }
{
    let name = named(alloc, b"d", node)?;
    Ok(plain_flow(alloc, name, FlowKind::Drain { node }, Upper::Infinite, 0))
}

fn feed_at(alloc: Global, node: u32) -> Result<Flow, Memory>
    ensures { IfOk result (λ flow. flow ≡ feed_at node) }
{
    let mut items = Vec::new(alloc);
    items.push(Band {
        width: Upper::Infinite,
        slope: Frac::whole(30),
    })?;
    Ok(Flow {
        name: named(alloc, b"f", node)?,
        kind: FlowKind::Feed { node },
        lower: Frac::whole(0),
        upper: Upper::Finite(Frac::whole(5)),
        cost: Frac::whole(20),
        bands: Bands { items },
    })
}

// Adds the flows that begin at a node of so many.
fn push_flows(alloc: Global, flows: &mut Vec<Flow>, number: u32, node: u32) -> Result<(), Memory>
    requires some { node < number }
    requires few { number ≤ 1000 }
    ensures { OnOk result (flows.new.items ≡ flows.old.items ++ flows_at number node) }
{
    push_link(
        alloc,
        flows,
        b"a",
        node,
        (node + 1) % number,
        10,
        1 + node % 3,
    )?;
    push_link(alloc, flows, b"b", node, (node + 7) % number, 4, 2)?;
    flows.push(hold_at(alloc, node)?)?;
    flows.push(drain_at(alloc, node)?)?;
    flows.push(feed_at(alloc, node)?)?;
    Ok(())
}

/// The flows of so many nodes.
pub(crate) fn flows(alloc: Global, number: u32) -> Result<Flows, Memory>
    requires few { number ≤ 1000 }
    ensures { IfOk result (λ made. made ≡ flows number) }
{
    let mut items = Vec::new(alloc);
    for node in 0..number {
        push_flows(alloc, &mut items, number, node)?;
    }
    Ok(Flows { items })
}
