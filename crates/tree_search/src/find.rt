//! The extra arc of a piece.

ghost use Rattle.std.specs.Prelude.{◌≡◌, ◌<◌, ◌≤◌, ◌^◌, ◌↔◌, ℕ, length, true, IfOk};
ghost use Rattle.gain_graphs.specs.Arcs.{HasOneEnd};
ghost use Rattle.np_model.specs.Basis.Graphs.{graph_ends};
ghost use Rattle.tree_search.specs.Places.{numbers_of_nodes, ends_by_place, AreJoints, IsTree};
ghost use Rattle.tree_search.specs.Search.{AreBelow, IsIncidence};
ghost use Rattle.tree_search.specs.Finding.{cut_off, IsRest, ClosesRound, IsCycleOf, IsFound, CanBeginAt};

use crate::marks::{marks_of, unmarked};
use crate::piece::{ExtraArc, Joint, Step};
use crate::round::{from_least, way_back};
use crate::search::{Incidence, arcs_at_nodes, search_from};
use np_frac::{Frac, Memory};
use np_model::Ends;
use std::alloc::Global;

// Whether an arc has one end.
fn has_one_end(ends: Ends) -> bool
    ensures { (result ≡ true) ↔ HasOneEnd (graph_ends ends) }
{
    match ends {
        Ends::Link { .. } => false,
        Ends::Drain(_) => true,
        Ends::Feed(_) => true,
    }
}

// The place of the first arc with one end, or the number of arcs.
fn one_ended(basics: &[(u32, Ends, Frac)]) -> usize
    ensures within { result ≤ length basics.now }
    ensures one { result < length basics.now → HasOneEnd (graph_ends (ends_by_place basics.now result)) }
    ensures none { (i : ℕ) → i < result → ¬ HasOneEnd (graph_ends (ends_by_place basics.now i)) }
{
    let mut i = 0;
    while i < basics.len() {
        if has_one_end(basics[i].1) {
            return i;
        }
        i += 1;
    }
    i
}

// The arcs, with one of them cut off at its tail.
fn without(alloc: Global, joints: &[Joint], arc: usize) -> Result<Vec<Joint>, Memory>
    requires inside { arc < length joints.now }
    ensures { IfOk result (λ list. list.items ≡ cut_off joints.now arc) }
{
    let mut list = Vec::with_capacity(alloc, joints.len())?;
    for joint in joints {
        list.push(*joint)?;
    }
    let from = joints[arc].from;
    list[arc] = Joint { from, to: from };
    Ok(list)
}

// The place of an arc that a search over all arcs does not use.
fn rest_of(
    alloc: Global,
    joints: &[Joint],
    incidence: &Incidence,
    nodes: usize,
) -> Result<u32, Memory>
    requires ends { AreBelow nodes joints.now }
    requires few { length joints.now < 2 ^ 32 }
    requires few_nodes { nodes < 2 ^ 32 }
    requires lists { IsIncidence joints.now nodes incidence.now }
    requires as_many { length joints.now ≡ nodes }
    requires some { 0 < nodes }
    ensures { IfOk result (λ arc. IsRest joints.now nodes arc) }
{
    let search = search_from(alloc, joints, incidence, &[0], nodes)?;
    let marks = marks_of(alloc, search.steps.as_slice(), joints.len())?;
    Ok(unmarked(marks.as_slice()) as u32)
}

// The round that this arc closes.
fn round_over(alloc: Global, joints: &[Joint], nodes: usize, arc: u32) -> Result<Vec<Step>, Memory>
    requires ends { AreBelow nodes joints.now }
    requires few { length joints.now < 2 ^ 32 }
    requires few_nodes { nodes < 2 ^ 32 }
    requires inside { arc < length joints.now }
    ensures { IfOk result (λ round. ClosesRound joints.now nodes arc round.items) }
{
    let joint = joints[arc as usize];
    let others = without(alloc, joints, arc as usize)?;
    let lists = arcs_at_nodes(alloc, others.as_slice(), nodes)?;
    let search = search_from(alloc, others.as_slice(), &lists, &[joint.from], nodes)?;
    let mut round = way_back(alloc, search.steps.as_slice(), joint.to)?;
    round.push(Step {
        arc,
        near: joint.from,
        far: joint.to,
    })?;
    Ok(round)
}

// The cycle of as many links as there are nodes.
pub(crate) fn cycle_of(
    alloc: Global,
    joints: &[Joint],
    incidence: &Incidence,
    nodes: usize,
) -> Result<Vec<Step>, Memory>
    requires ends { AreBelow nodes joints.now }
    requires few { length joints.now < 2 ^ 32 }
    requires few_nodes { nodes < 2 ^ 32 }
    requires lists { IsIncidence joints.now nodes incidence.now }
    requires as_many { length joints.now ≡ nodes }
    requires some { 0 < nodes }
    ensures { IfOk result (λ cycle. IsCycleOf joints.now nodes cycle.items) }
{
    let rest = rest_of(alloc, joints, incidence, nodes)?;
    let round = round_over(alloc, joints, nodes, rest)?;
    from_least(alloc, round.as_slice())
}

/// The extra arc of a piece with no loops: its arc with one end, or its cycle. In time proportional to the piece.
pub fn find_extra(
    alloc: Global,
    nodes: &[(u32, Frac)],
    basics: &[(u32, Ends, Frac)],
    joints: &[Joint],
    incidence: &Incidence,
) -> Result<ExtraArc, Memory>
    requires few { length nodes.now < 2 ^ 32 }
    requires tree { IsTree (numbers_of_nodes nodes.now) basics.now }
    requires joints { AreJoints (numbers_of_nodes nodes.now) basics.now joints.now }
    requires lists { IsIncidence joints.now (length nodes.now) incidence.now }
    ensures found { IfOk result (λ extra. IsFound (numbers_of_nodes nodes.now) basics.now joints.now extra) }
    ensures begins { IfOk result (λ extra. CanBeginAt (length nodes.now) joints.now extra) }
{
    let one = one_ended(basics);
    if one < basics.len() {
        return Ok(ExtraArc::OneEnd { arc: one as u32 });
    }
    let cycle = cycle_of(alloc, joints, incidence, nodes.len())?;
    Ok(ExtraArc::Round { cycle })
}
