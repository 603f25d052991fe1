//! The forest of the start: each node alone with its artificial arc.

ghost use Rattle.std.specs.Prelude.{◌≡◌, ◌<◌, ◌==◌, ℕ, ◌++◌, ◌∷◌, [], length, map, slice_index_or, if◌then◌else◌, IfOk, OnOk};
ghost use Rattle.std.specs.List.{range_with_len};
ghost use Rattle.np_model.specs.declared.log.Mark.TheVariants as marked;
ghost use Rattle.np_model.specs.declared.phase.Phase.TheVariants.{One};
ghost use Rattle.np_model.specs.Network.Arcs.{AreNodes};
ghost use Rattle.np_model.specs.Basis.Phases.{network_of};
ghost use Rattle.np_model.specs.Basis.Starts.{artificial_ends, start_flows, start_net, start_piece, start_state, touches};
ghost use Rattle.quasi_tree.specs.Start.{end_potential};
ghost use Rattle.quasi_tree.specs.declared.lists.MarkList.{MarkList};
ghost use Rattle.simplex_driver.specs.Opening.{AreSingles, HaveMarks, lower_marks};
ghost use Rattle.simplex_driver.specs.Store.{IsKept, state_of};

use crate::forest::Forest;
use np_frac::{Frac, Memory};
use np_model::{Ends, Mark, Net, StartBasis};
use quasi_tree::laws::starts;
use quasi_tree::{MarkList, Quasi, start_potential};
use std::alloc::Global;

// An empty list for each node.
fn empty_lists(alloc: Global, nodes: usize) -> Result<Vec<MarkList>, Memory>
    ensures each { IfOk result (λ lists. length lists.items ≡ nodes) }
    ensures empty { IfOk result (λ lists. (v : ℕ) (d : MarkList) → v < nodes → (slice_index_or lists.items v d).items.items ≡ []) }
{
    let mut lists = Vec::with_capacity(alloc, nodes)?;
    for _ in 0..nodes {
        lists.push(MarkList {
            items: Vec::new(alloc),
        })?;
    }
    Ok(lists)
}

// Appends the mark of an arc at its lower bound to the list of a node.
fn push_at(lists: &mut [MarkList], node: u32, arc: u32) -> Result<(), Memory>
    requires { node < length lists.old }
    ensures each { length lists.new ≡ length lists.old }
    ensures marks { OnOk result ((v : ℕ) (d : MarkList) → v < length lists.old
        → (slice_index_or lists.new v d).items.items ≡ (slice_index_or lists.old v d).items.items ++ (if v == node then (arc, marked.Lower) ∷ [] else [])) }
{
    let list = &mut lists[node as usize];
    list.items.push((arc, Mark::Lower))?;
    Ok(())
}

// Appends the mark of an arc at its lower bound to the list of each of its ends.
fn push_ends(lists: &mut [MarkList], ends: Ends, arc: u32) -> Result<(), Memory>
    requires { AreNodes (length lists.old) ends }
    ensures each { length lists.new ≡ length lists.old }
    ensures marks { OnOk result ((v : ℕ) (d : MarkList) → v < length lists.old
        → (slice_index_or lists.new v d).items.items ≡ (slice_index_or lists.old v d).items.items ++ (if touches ends v then (arc, marked.Lower) ∷ [] else [])) }
{
    match ends {
        Ends::Drain(node) | Ends::Feed(node) => push_at(lists, node, arc),
        Ends::Link { from, to, .. } => {
            push_at(lists, from, arc)?;
            push_at(lists, to, arc)
        }
    }
}

// The marks of the arcs at each node, in one pass over the arcs.
fn marks_by_node(alloc: Global, net: &Net) -> Result<Vec<MarkList>, Memory>
    ensures { IfOk result (λ lists. HaveMarks net.now.arcs (length net.now.supply) (length net.now.arcs) lists.items) }
{
    let mut lists = empty_lists(alloc, net.supply.items.len())?;
    let arcs = net.arcs.as_slice();
    for arc in 0..arcs.len() {
        push_ends(&mut lists, arcs[arc].ends, arc as u32)?;
    }
    Ok(lists)
}

// The piece of a node at the start, from the marks of the arcs that touch it.
fn single(alloc: Global, start: &StartBasis, node: u32, marks: MarkList) -> Result<Quasi, Memory>
    requires is_node { node < length start.now.full.net.supply }
    requires artificial { start.now.full.artificial ≡ artificial_ends (network_of start.now.full.net) }
    requires flows { start.now.flows ≡ start_flows (network_of start.now.full.net) }
    requires marks { marks.items.items ≡ lower_marks start.now.full.net.arcs (length start.now.full.net.arcs) node }
    ensures { IfOk result (λ piece. piece.lists ≡ start_piece (network_of start.now.full.net) node) }
{
    starts();
    Quasi::single_with_marks(alloc, start, node, marks)
}

// The pieces of the start, each in the slot of its node.
fn singles(
    alloc: Global,
    start: &StartBasis,
    lists: Vec<MarkList>,
) -> Result<Vec<Option<Quasi>>, Memory>
    requires artificial { start.now.full.artificial ≡ artificial_ends (network_of start.now.full.net) }
    requires flows { start.now.flows ≡ start_flows (network_of start.now.full.net) }
    requires marks { HaveMarks start.now.full.net.arcs (length start.now.full.net.supply) (length start.now.full.net.arcs) lists.items }
    ensures { IfOk result (λ slots. AreSingles (network_of start.now.full.net) (length start.now.full.net.supply) slots.items) }
{
    let mut slots = Vec::with_capacity(alloc, lists.len())?;
    for marks in lists {
        let node = slots.len() as u32;
        slots.push(Some(single(alloc, start, node, marks)?))?;
    }
    Ok(slots)
}

// The potential of each node, by its artificial arc.
fn potentials_by(alloc: Global, artificial: &[Ends]) -> Result<Vec<Frac>, Memory>
    ensures { IfOk result (λ potentials. potentials.items ≡ map end_potential artificial.now) }
{
    let mut potentials = Vec::with_capacity(alloc, artificial.len())?;
    for ends in artificial {
        potentials.push(start_potential(ends))?;
    }
    Ok(potentials)
}

// Appends a mark so many times.
fn push_times(marks: &mut Vec<Mark>, mark: Mark, times: usize) -> Result<(), Memory>
    ensures { OnOk result (marks.new.items ≡ marks.old.items ++ map (λ _. mark) (range_with_len 0 times)) }
{
    for _ in 0..times {
        marks.push(mark)?;
    }
    Ok(())
}

// The marks of the start: real arcs at their lower bounds, and artificial arcs in the basis.
fn start_marks(alloc: Global, real: usize, nodes: usize) -> Result<Vec<Mark>, Memory>
    ensures { IfOk result (λ marks. marks.items ≡ map (λ _. marked.Lower) (range_with_len 0 real) ++ map (λ _. marked.Basic) (range_with_len 0 nodes)) }
{
    let mut marks = Vec::new(alloc);
    push_times(&mut marks, Mark::Lower, real)?;
    push_times(&mut marks, Mark::Basic, nodes)?;
    Ok(marks)
}

impl Forest {
    /// The pieces and tables of the start: each node alone with its artificial arc. Takes time in proportion to the nodes and arcs.
    pub(crate) fn opening(alloc: Global, start: &StartBasis) -> Result<Forest, Memory>
        requires artificial { start.now.full.artificial ≡ artificial_ends (network_of start.now.full.net) }
        requires flows { start.now.flows ≡ start_flows (network_of start.now.full.net) }
        ensures state { IfOk result (λ f. state_of f ≡ start_state (network_of start.now.full.net)) }
        ensures kept { IfOk result (λ f. IsKept (start_net One (network_of start.now.full.net)) f) }
    {
        starts();
        let nodes = start.full.net.supply.items.len();
        let real = start.full.net.arcs.items.len();
        let lists = marks_by_node(alloc, &start.full.net)?;
        Ok(Forest {
            slots: singles(alloc, start, lists)?,
            potentials: potentials_by(alloc, start.full.artificial.as_slice())?,
            flows: Vec::from_slice(alloc, start.flows.as_slice())?,
            marks: start_marks(alloc, real, nodes)?,
        })
    }
}
