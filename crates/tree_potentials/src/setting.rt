//! The potentials of a piece, set as a whole.

ghost use Rattle.std.specs.Prelude.{◌≡◌, ◌≢◌, ◌<◌, ◌^◌, ℕ, length, slice_index_or, List, Ok, Err, MatchResult, IfOk, IfErr, pos};
ghost use Rattle.std.specs.List.{All};
ghost use Rattle.np_frac.specs.Ratio.{Ratio};
ghost use Rattle.np_frac.specs.Exact.{◌▷◌};
ghost use Rattle.np_frac.specs.Fits.{Fits};
ghost use Rattle.np_frac.specs.declared.frac.Past.{Past as ThePast};
ghost use Rattle.np_model.specs.declared.rows.Row.{Row as TheRow};
ghost use Rattle.np_model.specs.declared.log.Mark.{Mark as TheMark};
ghost use Rattle.np_model.specs.Basis.Pieces.{nodes_in};
ghost use Rattle.np_model.specs.Basis.Sound.{IsInNet};
ghost use Rattle.np_model.specs.Basis.Graphs.{cost_at};
ghost use Rattle.np_model.specs.Basis.Phases.{phase_net, all_arcs};
ghost use Rattle.np_model.specs.Network.Flows.{at};
ghost use Rattle.np_model.specs.Rows.Potentials.{end_potential};
ghost use Rattle.tree_search.specs.declared.piece.Joint.{Joint as TheJoint};
ghost use Rattle.tree_search.specs.Places.{ends_by_place, number_by_place, loose};
ghost use Rattle.tree_potentials.specs.Answers.{piece_of, ArePotentials, HasPotentials, GivesPast, IsCause};
ghost use Rattle.tree_potentials.specs.Along.{costs_in, AreWalkable, IsWithin, CanWalkOff, EndFits, divisor_of, spread, walk_off_end, walk_off_cycle, walk_off};

use crate::carry::carry;
use crate::cycle::least_potential;
use crate::refusal::{PotentialRefusal, at_turn};
use crate::rows::Rows;
use np_frac::{Frac, Memory, Past};
use np_model::{Ends, FullNet, Overflow, Phase, Row, zeros};
use quasi_tree::Quasi;
use std::alloc::Global;
use tree_search::{ExtraArc, Joint, Step, arcs_at_nodes, find_extra, joints_of, search_off};

// What each of these arcs costs in the phase.
fn costs_of(
    alloc: Global,
    full: &FullNet,
    phase: Phase,
    basics: &[(u32, Ends, Frac)],
) -> Result<Vec<Frac>, Memory>
    requires inside { All (λ arc. arc.0 < all_arcs full.now) basics.now }
    ensures { IfOk result (λ costs. costs.items ≡ costs_in (cost_at (phase_net phase full.now).arcs) basics.now) }
{
    let mut costs = Vec::with_capacity(alloc, basics.len())?;
    for arc in basics {
        costs.push(full.cost(phase, arc.0))?;
    }
    Ok(costs)
}

// Carries the potentials along two lists of steps, one after the other.
fn carry_both(
    rows: &Rows<'_>,
    first: &[Step],
    second: &[Step],
    potentials: Vec<Frac>,
) -> Result<Vec<Frac>, Past>
    requires walkable { AreWalkable rows.now.basics.now rows.now.costs.now }
    requires within { All (λ step. IsWithin rows.now.nodes.now rows.now.basics.now step) first.now }
    requires within_too { All (λ step. IsWithin rows.now.nodes.now rows.now.basics.now step) second.now }
    requires long { length potentials.items ≡ length rows.now.nodes.now }
    ensures { let answer = (spread rows.now.nodes.now rows.now.basics.now rows.now.costs.now first.now potentials.items
        ▷ spread rows.now.nodes.now rows.now.basics.now rows.now.costs.now second.now) in
        MatchResult result (λ found. answer ≡ Ok found.items) (λ past. answer ≡ Err past) }
{
    match carry(rows, first, potentials) {
        Ok(found) => carry(rows, second, found),
        Err(past) => Err(past),
    }
}

// The potentials from the node of an arc with one end along these steps.
fn off_end(
    rows: &Rows<'_>,
    joints: &[Joint],
    arc: u32,
    steps: &[Step],
    potentials: Vec<Frac>,
) -> Result<Vec<Frac>, Overflow>
    requires walkable { AreWalkable rows.now.basics.now rows.now.costs.now }
    requires inside { arc < length rows.now.basics.now }
    requires placed { arc < length joints.now }
    requires below { (slice_index_or joints.now arc loose).from < length rows.now.nodes.now }
    requires within { All (λ step. IsWithin rows.now.nodes.now rows.now.basics.now step) steps.now }
    requires long { length potentials.items ≡ length rows.now.nodes.now }
    ensures walked { let answer = walk_off_end rows.now.nodes.now rows.now.basics.now rows.now.costs.now joints.now arc steps.now potentials.items in
        MatchResult result (λ found. answer ≡ Ok found.items) (λ overflow. answer ≡ Err overflow) }
    ensures fits { Fits (end_potential (ends_by_place rows.now.basics.now arc) (at rows.now.costs.now arc)) }
{
    let mut potentials = potentials;
    potentials[joints[arc as usize].from as usize] = rows.potential_at(arc);
    match carry(rows, steps, potentials) {
        Ok(found) => Ok(found),
        Err(past) => Err(at_turn(Row::A7, past)),
    }
}

// The potentials round a cycle, and then along these steps.
fn off_cycle(
    rows: &Rows<'_>,
    cycle: &[Step],
    steps: &[Step],
    potentials: Vec<Frac>,
) -> Result<Vec<Frac>, Overflow>
    requires walkable { AreWalkable rows.now.basics.now rows.now.costs.now }
    requires some { 0 < length cycle.now }
    requires within { All (λ step. IsWithin rows.now.nodes.now rows.now.basics.now step) cycle.now }
    requires within_too { All (λ step. IsWithin rows.now.nodes.now rows.now.basics.now step) steps.now }
    requires apart { (last : Ratio) → divisor_of rows.now.nodes.now rows.now.basics.now cycle.now ≡ Ok last → last.num ≢ pos 0 }
    requires long { length potentials.items ≡ length rows.now.nodes.now }
    ensures { let answer = walk_off_cycle rows.now.nodes.now rows.now.basics.now rows.now.costs.now cycle.now steps.now potentials.items in
        MatchResult result (λ found. answer ≡ Ok found.items) (λ overflow. answer ≡ Err overflow) }
{
    let root = match least_potential(rows, cycle) {
        Ok(root) => root,
        Err(overflow) => return Err(overflow),
    };
    let mut potentials = potentials;
    potentials[cycle[0].near as usize] = root;
    match carry_both(rows, &cycle[..cycle.len() - 1], steps, potentials) {
        Ok(found) => Ok(found),
        Err(past) => Err(at_turn(Row::A7, past)),
    }
}

// The potentials from the extra arc along these steps.
fn off_extra(
    rows: &Rows<'_>,
    joints: &[Joint],
    extra: &ExtraArc,
    steps: &[Step],
    potentials: Vec<Frac>,
) -> Result<Vec<Frac>, Overflow>
    requires walkable { AreWalkable rows.now.basics.now rows.now.costs.now }
    requires begins { CanWalkOff rows.now.nodes.now rows.now.basics.now joints.now extra.now }
    requires within { All (λ step. IsWithin rows.now.nodes.now rows.now.basics.now step) steps.now }
    requires long { length potentials.items ≡ length rows.now.nodes.now }
    ensures walked { let answer = walk_off rows.now.nodes.now rows.now.basics.now rows.now.costs.now joints.now extra.now steps.now potentials.items in
        MatchResult result (λ found. answer ≡ Ok found.items) (λ overflow. answer ≡ Err overflow) }
    ensures fits { EndFits rows.now.basics.now rows.now.costs.now extra.now }
{
    match extra {
        ExtraArc::OneEnd { arc } => off_end(rows, joints, *arc, steps, potentials),
        ExtraArc::Round { cycle } => off_cycle(rows, cycle.as_slice(), steps, potentials),
    }
}

// The potentials of the piece with these nodes and basic arcs, in the order of its nodes. All lists are made before the first operation.
fn values_of(
    alloc: Global,
    full: &FullNet,
    phase: Phase,
    nodes: &[(u32, Frac)],
    basics: &[(u32, Ends, Frac)],
) -> Result<Vec<Frac>, PotentialRefusal>
    requires few { length nodes.now < 2 ^ 32 }
    requires in_net { (marks : List (ℕ × TheMark)) × IsInNet (phase_net phase full.now) (piece_of nodes.now basics.now marks) }
    ensures { (marks : List (ℕ × TheMark)) → IsInNet (phase_net phase full.now) (piece_of nodes.now basics.now marks)
        → MatchResult result (λ values. ArePotentials (phase_net phase full.now) (piece_of nodes.now basics.now marks) values.items)
        (IsCause (phase_net phase full.now) (piece_of nodes.now basics.now marks)) }
{
    let cost_list = costs_of(alloc, full, phase, basics)?;
    let costs = cost_list.as_slice();
    let joint_list = joints_of(alloc, nodes, basics)?;
    let joints = joint_list.as_slice();
    let incidence = arcs_at_nodes(alloc, joints, nodes.len())?;
    let extra = find_extra(alloc, nodes, basics, joints, &incidence)?;
    let search = search_off(alloc, joints, &incidence, &extra, nodes.len())?;
    let start = zeros(alloc, nodes.len())?;
    let rows = Rows {
        nodes,
        basics,
        costs,
    };
    match off_extra(&rows, joints, &extra, search.steps.as_slice(), start) {
        Ok(found) => Ok(found),
        Err(overflow) => Err(PotentialRefusal::Past(overflow)),
    }
}

/// Gives a piece of a full network the potentials of this phase: those at which each of its basic arcs has the reduced cost 0. They exist
/// and are the only ones ([`potentials`](np_basis::laws::potentials)). They go outwards from the extra arc of the piece, an arc with one
/// end or a cycle, over the links that hang off it. Node numbers, basic arcs, marks and spare stay as they are.
///
/// [`PotentialRefusal::Past`] exactly where an operation of the rows of the piece overflows: of row A3, the product of the gains round the
/// cycle and 1 less it, or of row A7, the potential of the least node of the cycle and that of each other node from the one before it. Its
/// place is [`Place::Turn`](np_model::Place). After a refusal the piece is unchanged. All memory is taken before the first operation.
/// Takes time in proportion to the piece, and to a binary search for each end of an arc.
pub fn potentials(
    alloc: Global,
    full: &FullNet,
    phase: Phase,
    piece: &mut Quasi,
) -> Result<(), PotentialRefusal>
    requires in_net { IsInNet (phase_net phase full.now) piece.old.lists }
    ensures answer { MatchResult result (λ _. HasPotentials (phase_net phase full.now) piece.new.lists) (IsCause (phase_net phase full.now) piece.old.lists) }
    ensures exact { (row : TheRow) (past : ThePast) → GivesPast (phase_net phase full.now) piece.old.lists row past → IfOk result (λ _. ⊥) }
    ensures nodes { nodes_in piece.new.lists ≡ nodes_in piece.old.lists }
    ensures basics { piece.new.lists.basics ≡ piece.old.lists.basics }
    ensures marks { piece.new.lists.marks ≡ piece.old.lists.marks }
    ensures node_spare { piece.new.node_spare ≡ piece.old.node_spare }
    ensures mark_spare { piece.new.mark_spare ≡ piece.old.mark_spare }
    ensures kept { IfErr result (λ _. piece.new ≡ piece.old) }
{
    let lists = piece.lists();
    match values_of(
        alloc,
        full,
        phase,
        lists.nodes.items.as_slice(),
        lists.basics.items.as_slice(),
    ) {
        Ok(values) => {
            piece.set_potentials(values.as_slice());
            Ok(())
        }
        Err(refusal) => Err(refusal),
    }
}
