//! The one piece that the network of a shape is.

ghost use Rattle.std.specs.Prelude.{◌≡◌, ◌≤◌, map, IfOk};
ghost use Rattle.bench_all.specs.Shapes.{piece_nodes, piece_basics, piece_marks, full_piece};

use crate::pieces::shape::{Shape, ends_of};
use np_frac::Frac;
use np_model::{Ends, Mark};
use quasi_tree::{FlowList, Lists, MarkList, NodeList, Quasi};
use std::alloc::Global;
use std::io;

// All nodes, with the potential 0.
fn nodes_of(alloc: Global, nodes: u32) -> io::Result<Vec<(u32, Frac)>>
    ensures { IfOk result (λ list. list.items ≡ piece_nodes nodes) }
{
    let mut list = Vec::new(alloc);
    for node in 0..nodes {
        list.push((node, Frac::whole(0)))?;
    }
    Ok(list)
}

// All real arcs, with the flow 0.
fn basics_of(alloc: Global, shape: Shape, nodes: u32) -> io::Result<Vec<(u32, Ends, Frac)>>
    ensures { IfOk result (λ list. list.items ≡ piece_basics shape nodes) }
{
    let mut list = Vec::new(alloc);
    for node in 0..nodes {
        list.push((node, ends_of(shape, nodes, node), Frac::whole(0)))?;
    }
    Ok(list)
}

// All artificial arcs, at their lower bounds.
fn marks_of(alloc: Global, nodes: u32) -> io::Result<Vec<(u32, Mark)>>
    requires { nodes ≤ 20000 }
    ensures { IfOk result (λ list. list.items ≡ piece_marks nodes) }
{
    let mut list = Vec::new(alloc);
    for node in 0..nodes {
        list.push((nodes + node, Mark::Lower))?;
    }
    Ok(list)
}

/// The piece with all nodes, in which the real arcs are the basic ones.
pub(crate) fn piece_of(alloc: Global, shape: Shape, nodes: u32) -> io::Result<Quasi>
    requires some { 2 ≤ nodes }
    requires few { nodes ≤ 20000 }
    ensures { IfOk result (λ piece. piece.lists ≡ full_piece shape nodes) }
{
    let node_items = nodes_of(alloc, nodes)?;
    let basic_items = basics_of(alloc, shape, nodes)?;
    let mark_items = marks_of(alloc, nodes)?;
    Ok(Quasi::of_lists(Lists {
        nodes: NodeList { items: node_items },
        basics: FlowList { items: basic_items },
        marks: MarkList { items: mark_items },
    }))
}
