//! The parts of a piece of the start.

ghost use Rattle.std.specs.Prelude.{◌≡◌, ◌<◌, ◌^◌, ◌++◌, ◌∷◌, [], length, map, filter, if◌then◌else◌, IfOk, OnOk};
ghost use Rattle.std.specs.List.{range_with_len};
ghost use Rattle.np_frac.specs.Ratio.{one_ratio, negated};
ghost use Rattle.np_model.specs.declared.log.Mark.TheVariants as marked;
ghost use Rattle.np_model.specs.Basis.Graphs.{ends_at};
ghost use Rattle.np_model.specs.Basis.Starts.{touches};
ghost use Rattle.quasi_tree.specs.Start.{end_potential};

use crate::lists::{FlowList, NodeList};
use np_frac::{Frac, Memory};
use np_model::{Ends, Mark, NetArc};
use std::alloc::Global;

/// The potential of a node whose only basic arc is this artificial one, in stage one: -1 at a feed, and else 1.
pub fn start_potential(ends: &Ends) -> Frac
    ensures { result ≡ end_potential ends.now }
{
    match ends {
        Ends::Feed(_) => Frac::whole(1).negated(),
        _ => Frac::whole(1),
    }
}

/// The list of one node.
pub(crate) fn node_alone(alloc: Global, node: u32, potential: Frac) -> Result<NodeList, Memory>
    ensures { IfOk result (λ nodes. nodes.items.items ≡ (node, potential) ∷ []) }
{
    let mut items = Vec::with_capacity(alloc, 1)?;
    items.push((node, potential))?;
    Ok(NodeList { items })
}

/// The list of one basic arc.
pub(crate) fn basic_alone(
    alloc: Global,
    arc: u32,
    ends: Ends,
    flow: Frac,
) -> Result<FlowList, Memory>
    ensures { IfOk result (λ basics. basics.items.items ≡ (arc, ends, flow) ∷ []) }
{
    let mut items = Vec::with_capacity(alloc, 1)?;
    items.push((arc, ends, flow))?;
    Ok(FlowList { items })
}

// Whether the node is an end of the arc.
fn touches_node(ends: Ends, node: u32) -> bool
    ensures { result ≡ touches ends node }
{
    match ends {
        Ends::Link { from, to, .. } => node == from || node == to,
        Ends::Drain(at) | Ends::Feed(at) => node == at,
    }
}

// Appends the mark of an arc at its lower bound, where it touches the node.
fn push_mark(marks: &mut Vec<(u32, Mark)>, ends: Ends, arc: u32, node: u32) -> Result<(), Memory>
    ensures { OnOk result (marks.new.items ≡ marks.old.items ++ (if touches ends node then (arc, marked.Lower) ∷ [] else [])) }
{
    if touches_node(ends, node) {
        marks.push((arc, Mark::Lower))?;
    }
    Ok(())
}

/// The marks of the arcs that touch a node, each at its lower bound.
pub(crate) fn marks_at(
    alloc: Global,
    arcs: &[NetArc],
    node: u32,
) -> Result<Vec<(u32, Mark)>, Memory>
    requires { length arcs.now < 2 ^ 32 }
    ensures { IfOk result (λ marks. marks.items ≡ filter (λ m. touches (ends_at arcs.now m.0) node) (map (λ a. (a, marked.Lower)) (range_with_len 0 (length arcs.now)))) }
{
    let mut marks = Vec::new(alloc);
    for arc in 0..arcs.len() {
        push_mark(&mut marks, arcs[arc].ends, arc as u32, node)?;
    }
    Ok(marks)
}
