//! A search over the arcs of a piece, in time proportional to the piece.

ghost use Rattle.std.specs.Prelude.{◌≡◌, ℕ, ◌<◌, ◌≤◌, ◌^◌, suc, [], length, slice_index, slice_index_or, IfOk, List};
ghost use Rattle.gain_graphs.specs.Arcs.{IsIn, AreDistinct};
ghost use Rattle.tree_search.specs.declared.piece.Joint.{Joint as TheJoint};
ghost use Rattle.tree_search.specs.Search.{AreBelow, JoinsAt, TouchesAt, IsFirstFrom, IsIncidence, IsSearch, IsClosed, AreNodesBelow, AreStepsBelow};

use crate::piece::{Joint, Step};
use np_frac::Memory;
use std::alloc::Global;

/// The arcs at each node in ascending order: the first one at each node, and what follows each arc at either end. The number of arcs
/// stands for none.
#[derive(Debug, Drop)]
pub struct Incidence {
    pub first: Vec<u32>,
    pub after_from: Vec<u32>,
    pub after_to: Vec<u32>,
}

/// The nodes that were seen, in the order in which they were, and the steps to those that the search did not begin with.
#[derive(Debug, Drop)]
pub struct Search {
    pub seen: Vec<bool>,
    pub queue: Vec<u32>,
    pub steps: Vec<Step>,
}

impl Incidence {
    ghost use Rattle.tree_search.specs.Search.{TouchesAt, IsFirstFrom, IsIncidence};

    /// The arc that follows this one at one of its ends, or the number of arcs.
    pub fn next(&self, joints: &[Joint], arc: u32, node: u32) -> u32
        requires lists { (n : ℕ) × IsIncidence joints.now n self.now }
        requires inside { arc < length joints.now }
        requires touches { TouchesAt joints.now arc node }
        ensures { IsFirstFrom joints.now node (suc arc) result }
    {
        if joints[arc as usize].from == node {
            self.after_from[arc as usize]
        } else {
            self.after_to[arc as usize]
        }
    }
}

// The other end of an arc.
fn other_end(joints: &[Joint], arc: u32, node: u32) -> u32
    requires inside { arc < length joints.now }
    requires touches { TouchesAt joints.now arc node }
    ensures joins { JoinsAt joints.now arc node result }
    ensures one { (u : ℕ) → JoinsAt joints.now arc node u → u ≡ result }
{
    let joint = joints[arc as usize];
    if joint.from == node {
        joint.to
    } else {
        joint.from
    }
}

impl Search {
    ghost use Rattle.tree_search.specs.Search.{AreBelow, JoinsAt, TouchesAt, IsIncidence, IsSearch, Grows, LeadsOn};

    // Goes over an arc from a node that was seen.
    fn visit(&mut self, joints: &[Joint], arc: u32, node: u32) -> Result<(), Memory>
        requires ends { AreBelow (length self.old.seen.items) joints.now }
        requires inside { arc < length joints.now }
        requires touches { TouchesAt joints.now arc node }
        ensures seen { (n : ℕ) (starts : List ℕ) → IsSearch joints.now n starts self.old → IsIn node self.old.queue.items
            → IfOk result (λ _. IsSearch joints.now n starts self.new × Grows self.old self.new) }
        ensures long { length self.new.seen.items ≡ length self.old.seen.items }
        ensures leads { (n : ℕ) (starts : List ℕ) → IsSearch joints.now n starts self.old → IsIn node self.old.queue.items
            → IfOk result (λ _. (u : ℕ) → JoinsAt joints.now arc node u → IsIn u self.new.queue.items) }
    {
        let other = other_end(joints, arc, node);
        if self.seen[other as usize] {
            return Ok(());
        }
        self.seen[other as usize] = true;
        self.queue.push(other)?;
        self.steps.push(Step {
            arc,
            near: node,
            far: other,
        })?;
        Ok(())
    }

    // Goes over all arcs at a node that was seen.
    fn expand(&mut self, joints: &[Joint], incidence: &Incidence, node: u32) -> Result<(), Memory>
        requires ends { AreBelow (length self.old.seen.items) joints.now }
        requires lists { IsIncidence joints.now (length self.old.seen.items) incidence.now }
        requires inside { node < length self.old.seen.items }
        requires few { length joints.now < 2 ^ 32 }
        ensures seen { (n : ℕ) (starts : List ℕ) → IsSearch joints.now n starts self.old → IsIn node self.old.queue.items
            → IfOk result (λ _. IsSearch joints.now n starts self.new × Grows self.old self.new) }
        ensures same { length self.new.seen.items ≡ length self.old.seen.items }
        ensures leads { (n : ℕ) (starts : List ℕ) → IsSearch joints.now n starts self.old → IsIn node self.old.queue.items
            → IfOk result (λ _. LeadsOn joints.now node (length joints.now) self.new.queue.items) }
    {
        let mut arc = incidence.first[node as usize];
        while (arc as usize) < joints.len() {
            self.visit(joints, arc, node)?;
            arc = incidence.next(joints, arc, node);
        }
        Ok(())
    }
}

// A list of one value.
fn filled(alloc: Global, len: usize, value: u32) -> Result<Vec<u32>, Memory>
    ensures long { IfOk result (λ list. length list.items ≡ len) }
    ensures all { IfOk result (λ list. (i : ℕ) → i < len → slice_index list.items i ≡ value) }
{
    let mut list = Vec::with_capacity(alloc, len)?;
    for _ in 0..len {
        list.push(value)?;
    }
    Ok(list)
}

/// The arcs at each of so many nodes, by the places of their ends.
pub fn arcs_at_nodes(alloc: Global, joints: &[Joint], nodes: usize) -> Result<Incidence, Memory>
    requires ends { AreBelow nodes joints.now }
    requires few { length joints.now < 2 ^ 32 }
    ensures { IfOk result (λ lists. IsIncidence joints.now nodes lists) }
{
    let none = joints.len() as u32;
    let mut first = filled(alloc, nodes, none)?;
    let mut after_from = filled(alloc, joints.len(), none)?;
    let mut after_to = filled(alloc, joints.len(), none)?;
    let mut left = joints.len();
    while left > 0 {
        left -= 1;
        let joint = joints[left];
        after_from[left] = first[joint.from as usize];
        after_to[left] = first[joint.to as usize];
        first[joint.from as usize] = left as u32;
        first[joint.to as usize] = left as u32;
    }
    Ok(Incidence {
        first,
        after_from,
        after_to,
    })
}

// A search that has seen these nodes alone.
fn begin(alloc: Global, starts: &[u32], nodes: usize) -> Result<Search, Memory>
    requires inside { AreNodesBelow nodes starts.now }
    ensures { (joints : List TheJoint) → IfOk result (λ search. IsSearch joints nodes starts.now search) }
{
    let mut seen = Vec::with_capacity(alloc, nodes)?;
    for _ in 0..nodes {
        seen.push(false)?;
    }
    let mut queue = Vec::with_capacity(alloc, nodes)?;
    for start in starts {
        seen[*start as usize] = true;
        queue.push(*start)?;
    }
    let steps = Vec::with_capacity(alloc, nodes)?;
    Ok(Search { seen, queue, steps })
}

/// The nodes that can be reached from these, out of so many, and the steps to those that were not given. The search goes on from the
/// nodes in the order in which they were reached, and at a node along its arcs in ascending order.
pub fn search_from(
    alloc: Global,
    joints: &[Joint],
    incidence: &Incidence,
    starts: &[u32],
    nodes: usize,
) -> Result<Search, Memory>
    requires ends { AreBelow nodes joints.now }
    requires few { length joints.now < 2 ^ 32 }
    requires few_nodes { nodes < 2 ^ 32 }
    requires lists { IsIncidence joints.now nodes incidence.now }
    requires inside { AreNodesBelow nodes starts.now }
    requires once { AreDistinct starts.now }
    ensures found { IfOk result (λ search. IsSearch joints.now nodes starts.now search) }
    ensures closed { IfOk result (λ search. IsClosed joints.now search.queue.items) }
    ensures placed { IfOk result (λ search. AreStepsBelow (length joints.now) nodes search.steps.items) }
{
    let mut search = begin(alloc, starts, nodes)?;
    let mut next = 0;
    while next < search.queue.len() {
        let node = search.queue[next];
        search.expand(joints, incidence, node)?;
        next += 1;
    }
    Ok(search)
}
