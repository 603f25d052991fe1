//! Pieces of small networks, with values worked out by hand.

ghost use Rattle.std.specs.Prelude.{◌≡◌, ◌<◌, ◌∷◌, [], pos, length, IfOk};
ghost use Rattle.np_frac.specs.Ratio.{whole};
ghost use Rattle.np_model.specs.declared.arc.Ends.TheVariants.{Link};
ghost use Rattle.np_model.specs.declared.log.Mark.TheVariants as marked;
ghost use Rattle.np_model.specs.Basis.Phases.{network_of};
ghost use Rattle.np_model.specs.Basis.Starts.{artificial_ends, start_flows};

use np_frac::{Frac, Memory};
use np_model::{
    Ends, EndsList, Fracs, FullNet, Mark, Net, NetArc, NetArcs, Piece, StartBasis, Upper,
};
use quasi_tree::laws::starts;
use quasi_tree::{FlowList, Lists, MarkList, NodeList, Quasi};
use std::alloc::Global;
use std::test::Fail;

// The link from A (0) to B (1) with this gain.
fn there(gain: i64) -> Ends
    ensures { result ≡ Link 0 1 (whole gain) }
{
    Ends::Link {
        from: 0,
        to: 1,
        gain: Frac::whole(gain),
    }
}

// The start where A needs 1, and a link goes from A to B with the gain 2 and one back.
fn first_start(alloc: Global) -> Result<StartBasis, Memory>
    ensures nodes { IfOk result (λ start. length start.full.net.supply ≡ 2) }
    ensures artificial { IfOk result (λ start. start.full.artificial ≡ artificial_ends (network_of start.full.net)) }
    ensures flows { IfOk result (λ start. start.flows ≡ start_flows (network_of start.full.net)) }
{
    let (one, none) = (Frac::whole(1), Frac::whole(0));
    let there = NetArc {
        ends: there(2),
        lower: none,
        upper: Upper::Infinite,
        cost: one,
    };
    let back = NetArc {
        ends: Ends::Link {
            from: 1,
            to: 0,
            gain: one,
        },
        lower: none,
        upper: Upper::Infinite,
        cost: one,
    };
    let net = Net {
        supply: Fracs {
            items: Vec::from_slice(alloc, &[Frac::whole(-1), none])?,
        },
        arcs: NetArcs {
            items: Vec::from_slice(alloc, &[there, back])?,
        },
    };
    Ok(StartBasis {
        full: FullNet {
            net,
            artificial: EndsList {
                items: Vec::from_slice(alloc, &[Ends::Feed(0), Ends::Drain(1)])?,
            },
        },
        flows: Fracs {
            items: Vec::from_slice(alloc, &[none, none, one, none])?,
        },
    })
}

// A and B with two links from the one to the other, whose gains differ; and the marks of two other arcs.
fn round(alloc: Global) -> Result<Quasi, Memory>
    ensures { IfOk result (λ piece. piece.lists ≡ record {
      nodes = (0, whole (pos 5)) ∷ (1, whole (pos 3)) ∷ [];
      basics = (1, Link 0 1 (whole (pos 1)), whole (pos 7)) ∷ (4, Link 0 1 (whole (pos 2)), whole (pos 9)) ∷ [];
      marks = (2, marked.Lower) ∷ (3, marked.Upper) ∷ [];
    }) }
{
    let (plain, gaining) = (there(1), there(2));
    let nodes = [(0, Frac::whole(5)), (1, Frac::whole(3))];
    let basics = [(1, plain, Frac::whole(7)), (4, gaining, Frac::whole(9))];
    let marks = [(2, Mark::Lower), (3, Mark::Upper)];
    Ok(Quasi::of_lists(Lists {
        nodes: NodeList {
            items: Vec::from_slice(alloc, &nodes)?,
        },
        basics: FlowList {
            items: Vec::from_slice(alloc, &basics)?,
        },
        marks: MarkList {
            items: Vec::from_slice(alloc, &marks)?,
        },
    }))
}

// Whether these are the lists.
fn are_lists(
    lists: &Lists,
    nodes: &[(u32, Frac)],
    basics: &[(u32, Ends, Frac)],
    marks: &[(u32, Mark)],
) -> bool {
    lists.nodes.items.as_slice() == nodes
        && lists.basics.items.as_slice() == basics
        && lists.marks.items.as_slice() == marks
}

// A node with its potential.
fn node(number: u32, potential: i64) -> (u32, Frac) {
    (number, Frac::whole(potential))
}

// A basic arc with its flow.
fn basic(arc: u32, ends: Ends, flow: i64) -> (u32, Ends, Frac) {
    (arc, ends, Frac::whole(flow))
}

// The link from A to B with this gain, of which the caller is told nothing.
fn gaining(gain: i64) -> Ends {
    there(gain)
}

// The lists of the start of a node.
fn single(alloc: Global, node: u32) -> Result<Lists, Memory>
    requires { node < 2 }
{
    let start = first_start(alloc)?;
    starts();
    Ok(Quasi::single(alloc, &start, node)?.take_apart())
}

// A has a feed that brings 1, B a drain that carries nothing.
#[test]
fn singles(rt: HostRuntime) -> Result<(), Fail> {
    let marks = [(0, Mark::Lower), (1, Mark::Lower)];
    let first = single(rt.alloc(), 0)?;
    assert!(rt;
        are_lists(
            &first,
            &[node(0, -1)],
            &[basic(2, Ends::Feed(0), 1)],
            &marks
        )
    );
    let second = single(rt.alloc(), 1)?;
    assert!(rt;
        are_lists(
            &second,
            &[node(1, 1)],
            &[basic(3, Ends::Drain(1), 0)],
            &marks
        )
    );
    Ok(())
}

#[test]
fn look_ups(rt: HostRuntime) -> Result<(), Fail> {
    let piece = round(rt.alloc())?;
    assert!(rt; piece.size() == 2 && piece.least() == 0 && piece.node_at(1) == 1);
    assert!(rt; piece.contains(1) && !piece.contains(2));
    assert!(rt; piece.potential_of(1) == Frac::whole(3));
    assert!(rt; piece.flow_of(4) == Frac::whole(9));
    assert!(rt; piece.mark_of(4) == Mark::Basic && piece.mark_of(3) == Mark::Upper);
    assert!(rt; piece.basic_at(1) == 4 && piece.marks() == 2);
    assert!(rt; piece.marked_at(1) == (3, Mark::Upper));
    Ok(())
}

// The lists after a potential, a flow and a mark have changed.
fn changed(alloc: Global) -> Result<Lists, Memory> {
    let mut piece = round(alloc)?;
    piece.set_potential(1, Frac::whole(-3));
    piece.set_flow(4, Frac::whole(8));
    piece.set_mark(2, Mark::Upper);
    Ok(piece.take_apart())
}

#[test]
fn changes(rt: HostRuntime) -> Result<(), Fail> {
    let lists = changed(rt.alloc())?;
    let nodes = [node(0, 5), node(1, -3)];
    let basics = [basic(1, gaining(1), 7), basic(4, gaining(2), 8)];
    let marks = [(2, Mark::Upper), (3, Mark::Upper)];
    assert!(rt; are_lists(&lists, &nodes, &basics, &marks));
    Ok(())
}

// The lists with other potentials.
fn repriced(alloc: Global) -> Result<Lists, Memory> {
    let mut piece = round(alloc)?;
    piece.set_potentials(&[Frac::whole(2), Frac::whole(-1)]);
    Ok(piece.take_apart())
}

#[test]
fn potentials_of_all(rt: HostRuntime) -> Result<(), Fail> {
    let lists = repriced(rt.alloc())?;
    let nodes = [node(0, 2), node(1, -1)];
    let basics = [basic(1, gaining(1), 7), basic(4, gaining(2), 9)];
    let marks = [(2, Mark::Lower), (3, Mark::Upper)];
    assert!(rt; are_lists(&lists, &nodes, &basics, &marks));
    Ok(())
}

// Whether there is room for so many nodes, as many basic arcs, and so many marks.
fn has_room(lists: &Lists, nodes: usize, marks: usize) -> bool {
    lists.nodes.items.capacity() >= nodes
        && lists.basics.items.capacity() >= nodes
        && lists.marks.items.capacity() >= marks
}

fn vacant(alloc: Global) -> Result<Lists, Memory> {
    Ok(Quasi::vacant(alloc, 3, 5)?.take_apart())
}

// A copy with more room, and its source with as much more.
fn copied(alloc: Global) -> Result<(Lists, Lists), Memory> {
    let mut piece = round(alloc)?;
    let copy = piece.copy(alloc, 3, 5)?.take_apart();
    piece.reserve(3, 5)?;
    Ok((copy, piece.take_apart()))
}

// A store has room for what was asked for, and a copy the lists of its source too.
#[test]
fn room(rt: HostRuntime) -> Result<(), Fail> {
    let store = vacant(rt.alloc())?;
    assert!(rt; are_lists(&store, &[], &[], &[]) && has_room(&store, 3, 5));
    let (copy, source) = copied(rt.alloc())?;
    let nodes = source.nodes.items.as_slice();
    let basics = source.basics.items.as_slice();
    assert!(rt; are_lists(&copy, nodes, basics, source.marks.items.as_slice()));
    assert!(rt; has_room(&copy, 5, 7) && has_room(&source, 5, 7));
    Ok(())
}
