//! Pivots on two nodes, with values worked out by hand.

ghost use Rattle.std.specs.Prelude.{◌≡◌, ◌≢◌, ◌<◌, ◌≤◌, [], ◌∷◌, true, length, IfOk};
ghost use Rattle.std.specs.List.{All};
ghost use Rattle.np_frac.specs.Fits.{Fits};
ghost use Rattle.np_frac.specs.Ratio.{zero_ratio};
ghost use Rattle.np_model.specs.declared.phase.Phase.TheVariants.{One as StageOne, Two as StageTwo};
ghost use Rattle.np_model.specs.Basis.Attempts.{OnReady};
ghost use Rattle.np_model.specs.Basis.Graphs.{ends_at};
ghost use Rattle.np_model.specs.Basis.Needed.{AreNeededFor};
ghost use Rattle.np_model.specs.declared.phase.Phase.{Phase as ThePhase};
ghost use Rattle.np_model.specs.Basis.Phases.{phase_net, real_arcs, all_arcs};
ghost use Rattle.np_model.specs.Basis.Sound.{IsSound, AreSound};
ghost use Rattle.np_model.specs.Network.Arcs.{AreNodes, IsGaining, IsAtMost};
ghost use Rattle.np_model.specs.Network.Flows.{at};
ghost use Rattle.np_model.specs.Network.Nets.{IsSoundArc};
ghost use Rattle.piece_lists.specs.Parts.{lists_in};
ghost use Rattle.pivot_step.specs.Named.{BecomeBySomePivot};

use basis_start::start;
use np_frac::{Frac, Memory, Op, Past};
use np_model::{
    Direction, Ends, Entry, Fracs, FullNet, Hands, Mark, Net, NetArc, NetArcs, Overflow, Phase,
    Piece, Pivoter, Place, Prepared, Row, Upper,
};
use pivot_step::{Change, TreePivoter, apply, flow_at, prepare};
use quasi_tree::Quasi;
use quasi_tree::laws::starts;
use std::alloc::Global;
use std::test::Fail;
use tree_potentials::potentials;

// ---- networks of A (0) and B (1)

// A link with this gain, or a drain where it is not above 0.
fn link(from: u32, to: u32, gain: Frac) -> Ends
    requires one { from < 2 }
    requires other { to < 2 }
    requires apart { from ≢ to }
    ensures joins { AreNodes 2 result }
    ensures gains { IsGaining result }
{
    if Frac::whole(0).is_below(gain) {
        Ends::Link { from, to, gain }
    } else {
        Ends::Drain(from)
    }
}

// An arc from 0 with no upper bound.
fn arc(ends: Ends, cost: i64) -> NetArc
    requires joins { AreNodes 2 ends }
    requires gains { IsGaining ends }
    ensures { IsSoundArc 2 result }
{
    NetArc {
        ends,
        lower: Frac::whole(0),
        upper: Upper::Infinite,
        cost: Frac::whole(cost),
    }
}

// A drain of A that takes at most 3.
#[tactic(auto, using(crate::proofs::Started::three_at_least))]
fn narrow_drain() -> NetArc
    ensures { IsSoundArc 2 result }
{
    NetArc {
        ends: Ends::Drain(0),
        lower: Frac::whole(0),
        upper: Upper::Finite(Frac::whole(3)),
        cost: Frac::whole(0),
    }
}

// A drain of A between these bounds, or without an upper one where that is below the lower one.
fn drain_between(lower: Frac, upper: Frac) -> NetArc
    ensures { IsSoundArc 2 result }
{
    if upper.is_below(lower) {
        return arc(Ends::Drain(0), 0);
    }
    NetArc {
        ends: Ends::Drain(0),
        lower,
        upper: Upper::Finite(upper),
        cost: Frac::whole(0),
    }
}

fn network(alloc: Global, supply: &[Frac], arcs: &[NetArc]) -> Result<Net, Memory>
    requires two { length supply.now ≡ 2 }
    requires few { length arcs.now ≤ 100000 }
    requires sound { All (IsSoundArc 2) arcs.now }
    ensures { IfOk result (λ net. length net.supply ≡ 2) }
{
    Ok(Net {
        supply: Fracs {
            items: Vec::from_slice(alloc, supply)?,
        },
        arcs: NetArcs {
            items: Vec::from_slice(alloc, arcs)?,
        },
    })
}

// A full network, and the piece of A at its start.
#[derive(Drop)]
struct AtStart {
    full: FullNet,
    piece: Quasi,
}

fn first_alone(begun: Start) -> AtStart
    requires { AreSound (phase_net StageOne begun.full) (begun.first.lists ∷ begun.second.lists ∷ []) }
    ensures { AreSound (phase_net StageOne result.full) (result.piece.lists ∷ []) }
{
    AtStart {
        full: begun.full,
        piece: begun.first,
    }
}

// The supply of a node, which fits as every fraction does.
fn supply_of(net: &Net, node: u32) -> Frac
    requires { node < length net.now.supply }
    ensures value { result ≡ at net.now.supply node }
    ensures fits { Fits (at net.now.supply node) }
{
    let supply = net.supply.items[node as usize];
    let _size = supply.num();
    supply
}

// A full network, and the pieces of its start.
#[derive(Drop)]
struct Start {
    full: FullNet,
    first: Quasi,
    second: Quasi,
}

fn started(alloc: Global, net: &Net) -> Result<Start, Memory>
    requires { length net.now.supply ≡ 2 }
    ensures { IfOk result (λ made. AreSound (phase_net StageOne made.full) (made.first.lists ∷ made.second.lists ∷ [])) }
{
    let _left = supply_of(net, 0);
    let _right = supply_of(net, 1);
    match start(alloc, net) {
        Ok(basis) => {
            starts();
            let first = Quasi::single(alloc, &basis, 0)?;
            let second = Quasi::single(alloc, &basis, 1)?;
            Ok(Start {
                full: basis.full,
                first,
                second,
            })
        }
        Err(_) => Err(Memory),
    }
}

// ---- attempts on pieces that are seen to have the ends of the arc

// Whether there is such an arc.
fn is_arc(full: &FullNet, arc: u32) -> bool
    ensures { result ≡ true → arc < all_arcs full.now }
{
    (arc as usize) < full.net.arcs.items.len() + full.artificial.items.len()
}

// Whether there is such an arc, and the piece has its ends.
fn holds(full: &FullNet, piece: &Quasi, arc: u32) -> bool
    ensures is_arc { result ≡ true → arc < all_arcs full.now }
    ensures needed { (phase : ThePhase) → result ≡ true → AreNeededFor (piece.now.lists ∷ []) (ends_at (phase_net phase full.now).arcs arc) }
{
    if !is_arc(full, arc) {
        return false;
    }
    let ends = &full.ends(arc);
    piece.contains(ends.tail()) && piece.contains(ends.head())
}

// Tries an arc on one piece.
fn alone(alloc: Global, full: &FullNet, phase: Phase, piece: &Quasi, arc: u32) -> Prepared<Change>
    requires { AreSound (phase_net phase full.now) (piece.now.lists ∷ []) }
    ensures sound { OnReady (λ change. AreSound (phase_net phase full.now) (lists_in change)) result }
    ensures after { OnReady (λ change. BecomeBySomePivot (phase_net phase full.now) (real_arcs full.now) (piece.now.lists ∷ []) (lists_in change)) result }
{
    if !holds(full, piece, arc) {
        return Prepared::Memory;
    }
    prepare(alloc, full, phase, piece, None, arc)
}

// Tries a link on the piece of its tail and on that of its head.
fn linked(
    alloc: Global,
    full: &FullNet,
    phase: Phase,
    first: &Quasi,
    second: &Quasi,
    arc: u32,
) -> Prepared<Change>
    requires { AreSound (phase_net phase full.now) (first.now.lists ∷ second.now.lists ∷ []) }
    ensures { OnReady (λ change. AreSound (phase_net phase full.now) (lists_in change)) result }
{
    if !is_arc(full, arc) {
        return Prepared::Memory;
    }
    match full.ends(arc) {
        Ends::Link { from, to, .. } if first.contains(from) && second.contains(to) => {
            prepare(alloc, full, phase, first, Some(second), arc)
        }
        Ends::Link { from, to, .. } if second.contains(from) && first.contains(to) => {
            prepare(alloc, full, phase, first, Some(second), arc)
        }
        _ => Prepared::Memory,
    }
}

// The piece after a pivot of two pieces by this entry.
fn joined(
    alloc: Global,
    full: &FullNet,
    first: &Quasi,
    second: &Quasi,
    expected: Entry,
) -> Result<Quasi, Fail>
    requires { AreSound (phase_net StageOne full.now) (first.now.lists ∷ second.now.lists ∷ []) }
    ensures { IfOk result (λ piece. AreSound (phase_net StageOne full.now) (piece.lists ∷ [])) }
{
    match linked(alloc, full, Phase::One, first, second, expected.enter) {
        Prepared::Ready { entry, change } => {
            if entry != expected {
                return Err(Fail::from("another entry"));
            }
            match apply(change) {
                Hands::One(piece) => Ok(piece),
                Hands::Two(_, _) => Err(Fail::from("two pieces")),
            }
        }
        _ => Err(Fail::from("another answer")),
    }
}

// The piece after a pivot of one piece by this entry.
fn kept(
    alloc: Global,
    full: &FullNet,
    phase: Phase,
    piece: &Quasi,
    expected: Entry,
) -> Result<Quasi, Fail>
    requires { AreSound (phase_net phase full.now) (piece.now.lists ∷ []) }
    ensures { IfOk result (λ after. AreSound (phase_net phase full.now) (after.lists ∷ [])) }
{
    match alone(alloc, full, phase, piece, expected.enter) {
        Prepared::Ready { entry, change } => {
            if entry != expected {
                return Err(Fail::from("another entry"));
            }
            match apply(change) {
                Hands::One(piece) => Ok(piece),
                Hands::Two(_, _) => Err(Fail::from("two pieces")),
            }
        }
        _ => Err(Fail::from("another answer")),
    }
}

// Whether the arc is a real one, or carries nothing.
fn is_idle(real: u32, basic: (u32, Ends, Frac)) -> bool
    ensures { result ≡ true → real ≤ basic.0 → basic.2 ≡ zero_ratio }
{
    basic.0 < real || basic.2.is_same(Frac::whole(0))
}

fn are_idle(real: u32, basics: &[(u32, Ends, Frac)]) -> bool
    ensures { result ≡ true → All (λ b. real ≤ b.0 → b.2 ≡ zero_ratio) basics.now }
{
    for place in 0..basics.len() {
        if !is_idle(real, basics[place]) {
            return false;
        }
    }
    true
}

// A piece of stage one that carries nothing on artificial arcs, with its potentials of stage two.
fn turned(alloc: Global, full: &FullNet, piece: Quasi) -> Result<Quasi, Fail>
    requires { AreSound (phase_net StageOne full.now) (piece.lists ∷ []) }
    ensures { IfOk result (λ piece. AreSound (phase_net StageTwo full.now) (piece.lists ∷ [])) }
{
    let real = full.net.arcs.items.len() as u32;
    if !are_idle(real, piece.lists().basics.items.as_slice()) {
        return Err(Fail::from("carries something"));
    }
    let mut piece = piece;
    match potentials(alloc, full, Phase::Two, &mut piece) {
        Ok(()) => Ok(piece),
        Err(_) => Err(Fail::from("no potentials")),
    }
}

// ---- lists

// Whether these are the lists of the piece.
fn has_lists(
    piece: &Quasi,
    nodes: &[(u32, Frac)],
    basics: &[(u32, Ends, Frac)],
    marks: &[(u32, Mark)],
) -> bool {
    let lists = piece.lists();
    lists.nodes.items.as_slice() == nodes
        && lists.basics.items.as_slice() == basics
        && lists.marks.items.as_slice() == marks
}

// A node with its potential.
fn node(number: u32, potential: i64) -> (u32, Frac) {
    (number, Frac::whole(potential))
}

// A basic arc with its flow.
fn basic(arc: u32, ends: Ends, flow: i64) -> (u32, Ends, Frac) {
    (arc, ends, Frac::whole(flow))
}

// The mark of an arc at its lower bound.
fn at_lower(arc: u32) -> (u32, Mark) {
    (arc, Mark::Lower)
}

// An entry whose arc leaves at its lower bound.
fn entry(enter: u32, leave: u32) -> Entry {
    Entry {
        enter,
        leave,
        leave_at: Mark::Lower,
    }
}

// ---- two links

// A (0) needs 1. A link there (arc 0, gain 2) and one back (arc 1).
fn two_links(alloc: Global) -> Result<Start, Memory>
    ensures { IfOk result (λ made. AreSound (phase_net StageOne made.full) (made.first.lists ∷ made.second.lists ∷ [])) }
{
    let (there, back) = (link(0, 1, Frac::whole(2)), link(1, 0, Frac::whole(1)));
    let supply = [Frac::whole(-1), Frac::whole(0)];
    let net = network(alloc, &supply, &[arc(there, 1), arc(back, 1)])?;
    started(alloc, &net)
}

// The piece of both nodes, after a pivot by the link back.
fn linked_back(alloc: Global) -> Result<AtStart, Fail>
    ensures { IfOk result (λ made. AreSound (phase_net StageOne made.full) (made.piece.lists ∷ [])) }
{
    let Start {
        full,
        first,
        second,
    } = two_links(alloc)?;
    let piece = joined(alloc, &full, &first, &second, entry(1, 3))?;
    Ok(AtStart { full, piece })
}

// The piece after a pivot by the link there.
fn linked_twice(alloc: Global) -> Result<Quasi, Fail> {
    let made = linked_back(alloc)?;
    kept(alloc, &made.full, Phase::One, &made.piece, entry(0, 2))
}

// A needs 1, which its feed (arc 2) brings, so its potential is -1; that of B is 1, by its drain (arc 3). The link there (arc 0, gain 2) has
// the price 0 - (-1) + 2 * 1 = 3.
#[test]
fn link_not_eligible(rt: HostRuntime) -> Result<(), Fail> {
    let begun = two_links(rt.alloc())?;
    let refused = linked(
        rt.alloc(),
        &begun.full,
        Phase::One,
        &begun.first,
        &begun.second,
        0,
    );
    assert!(rt; matches!(&refused, Prepared::NotEligible));
    Ok(())
}

// The link back (arc 1) has the price 0 - 1 + (-1) = -2: it takes from B what the drain leaves, which is nothing. Then the potential of B is
// -1 too.
#[test]
fn link_back(rt: HostRuntime) -> Result<(), Fail> {
    let made = linked_back(rt.alloc())?;
    let back = link(1, 0, Frac::whole(1));
    let basics = [basic(1, back, 0), basic(2, Ends::Feed(0), 1)];
    assert!(rt;
        has_lists(
            &made.piece,
            &[node(0, -1), node(1, -1)],
            &basics,
            &[at_lower(0), at_lower(3)]
        )
    );
    Ok(())
}

// Then arc 0 has the price 0 - (-1) + 2 * (-1) = -1. One unit there brings 2, and 2 come back: that is 1 more at A, and the feed falls to 0.
// Then both links carry all, and the potentials are 0.
#[test]
fn both_links(rt: HostRuntime) -> Result<(), Fail> {
    let cycle = linked_twice(rt.alloc())?;
    let (there, back) = (link(0, 1, Frac::whole(2)), link(1, 0, Frac::whole(1)));
    let basics = [basic(0, there, 1), basic(1, back, 2)];
    assert!(rt;
        has_lists(
            &cycle,
            &[node(0, 0), node(1, 0)],
            &basics,
            &[at_lower(2), at_lower(3)]
        )
    );
    Ok(())
}

// ---- two parts

// The two pieces after a pivot of one by this entry.
fn parted(
    alloc: Global,
    full: &FullNet,
    piece: &Quasi,
    expected: Entry,
) -> Result<(Quasi, Quasi), Fail>
    requires { AreSound (phase_net StageTwo full.now) (piece.now.lists ∷ []) }
{
    match alone(alloc, full, Phase::Two, piece, expected.enter) {
        Prepared::Ready { entry, change } => {
            if entry != expected {
                return Err(Fail::from("another entry"));
            }
            match apply(change) {
                Hands::One(_) => Err(Fail::from("one piece")),
                Hands::Two(piece, other) => Ok((piece, other)),
            }
        }
        _ => Err(Fail::from("another answer")),
    }
}

// The piece after a pivot of it by this entry, beside another piece.
fn kept_beside(
    alloc: Global,
    full: &FullNet,
    beside: &Quasi,
    piece: &Quasi,
    expected: Entry,
) -> Result<Quasi, Fail>
    requires { AreSound (phase_net StageOne full.now) (beside.now.lists ∷ piece.now.lists ∷ []) }
    ensures { IfOk result (λ after. AreSound (phase_net StageOne full.now) (after.lists ∷ beside.now.lists ∷ [])) }
{
    match alone(alloc, full, Phase::One, piece, expected.enter) {
        Prepared::Ready { entry, change } => {
            if entry != expected {
                return Err(Fail::from("another entry"));
            }
            match apply(change) {
                Hands::One(after) => Ok(after),
                Hands::Two(_, _) => Err(Fail::from("two pieces")),
            }
        }
        _ => Err(Fail::from("another answer")),
    }
}

// A brings 1. A link to B (arc 0), drains of B (arcs 1 and 3) and one of A (arc 2).
fn three_drains(alloc: Global) -> Result<Start, Memory>
    ensures { IfOk result (λ made. AreSound (phase_net StageOne made.full) (made.first.lists ∷ made.second.lists ∷ [])) }
{
    let arcs = [
        arc(link(0, 1, Frac::whole(1)), 0),
        arc(Ends::Drain(1), 0),
        arc(Ends::Drain(0), -1),
        arc(Ends::Drain(1), 5),
    ];
    let net = network(alloc, &[Frac::whole(1), Frac::whole(0)], &arcs)?;
    started(alloc, &net)
}

// The piece of B after a pivot by its drain, and that of A.
fn drained_b(alloc: Global) -> Result<Start, Fail>
    ensures { IfOk result (λ made. AreSound (phase_net StageOne made.full) (made.second.lists ∷ made.first.lists ∷ [])) }
{
    let Start {
        full,
        first,
        second,
    } = three_drains(alloc)?;
    let second = kept_beside(alloc, &full, &first, &second, entry(1, 5))?;
    Ok(Start {
        full,
        first,
        second,
    })
}

// The piece of both nodes after a pivot by the link.
fn linked_to_b(alloc: Global) -> Result<AtStart, Fail>
    ensures { IfOk result (λ made. AreSound (phase_net StageOne made.full) (made.piece.lists ∷ [])) }
{
    let Start {
        full,
        first,
        second,
    } = drained_b(alloc)?;
    let piece = joined(alloc, &full, &second, &first, entry(0, 4))?;
    Ok(AtStart { full, piece })
}

// That piece in stage two.
fn drained_at_b(alloc: Global) -> Result<AtStart, Fail>
    ensures { IfOk result (λ made. AreSound (phase_net StageTwo made.full) (made.piece.lists ∷ [])) }
{
    let AtStart { full, piece } = linked_to_b(alloc)?;
    let piece = turned(alloc, &full, piece)?;
    Ok(AtStart { full, piece })
}

// The two pieces after a pivot by the drain of A.
fn parted_by_drain(alloc: Global) -> Result<(Quasi, Quasi), Fail> {
    let made = drained_at_b(alloc)?;
    parted(alloc, &made.full, &made.piece, entry(2, 0))
}

// A brings 1. The drain of B (arc 1) takes the place of its artificial one (arc 5), which carries nothing; then the link (arc 0) brings the
// supply of A there, with the price 0 - 1 + 0. In stage two the potentials are 0, and the drain of A (arc 2) has the price -1 - 0: it takes the
// unit, so that both the link and the drain of B carry nothing. The link has the lesser number. So A stands alone with the potential -1, and B
// with 0.
#[test]
fn two_parts(rt: HostRuntime) -> Result<(), Fail> {
    let (at_a, at_b) = parted_by_drain(rt.alloc())?;
    assert!(rt;
        has_lists(
            &at_a,
            &[node(0, -1)],
            &[basic(2, Ends::Drain(0), 1)],
            &[at_lower(0), at_lower(4)]
        )
    );
    assert!(rt;
        has_lists(
            &at_b,
            &[node(1, 0)],
            &[basic(1, Ends::Drain(1), 0)],
            &[at_lower(0), at_lower(3), at_lower(5)]
        )
    );
    Ok(())
}

// ---- a ray

// A brings 1. A drain of A (arc 0), and a feed there (arc 1) whose cost is -1: the piece of A.
fn feed_and_drain(alloc: Global) -> Result<AtStart, Memory>
    ensures { IfOk result (λ made. AreSound (phase_net StageOne made.full) (made.piece.lists ∷ [])) }
{
    let arcs = [arc(Ends::Drain(0), 0), arc(Ends::Feed(0), -1)];
    let net = network(alloc, &[Frac::whole(1), Frac::whole(0)], &arcs)?;
    Ok(first_alone(started(alloc, &net)?))
}

// That piece in stage two, after a pivot by the drain.
fn drained(alloc: Global) -> Result<AtStart, Fail>
    ensures { IfOk result (λ made. AreSound (phase_net StageTwo made.full) (made.piece.lists ∷ [])) }
{
    let AtStart { full, piece } = feed_and_drain(alloc)?;
    let piece = kept(alloc, &full, Phase::One, &piece, entry(0, 2))?;
    let piece = turned(alloc, &full, piece)?;
    Ok(AtStart { full, piece })
}

// The direction of a ray, if this is one.
fn ray_of(found: Prepared<Change>) -> Option<Direction> {
    match found {
        Prepared::Ray(direction) => Some(direction),
        _ => None,
    }
}

// Whether the direction has these amounts.
fn has_steps(direction: &Direction, expected: &[(u32, Frac)]) -> bool {
    direction.steps.as_slice() == expected
}

// The drain of A takes its supply 1 in place of the artificial one (arc 2). In stage two a feed there at the price -1 + 0 can bring as much as
// one likes, which the drain takes.
#[test]
fn ray(rt: HostRuntime) -> Result<(), Fail> {
    let made = drained(rt.alloc())?;
    match ray_of(alone(rt.alloc(), &made.full, Phase::Two, &made.piece, 1)) {
        Some(direction) => {
            assert!(rt; direction.enter == 1 && direction.up);
            assert!(rt; has_steps(&direction, &[node(0, 1), node(1, 1)]));
            Ok(())
        }
        None => Err(Fail::from("no ray")),
    }
}

// ---- an overflow

// A needs 1. A link from it with this gain (arc 0).
fn one_link(alloc: Global, gain: Frac) -> Result<Start, Memory>
    ensures { IfOk result (λ made. AreSound (phase_net StageOne made.full) (made.first.lists ∷ made.second.lists ∷ [])) }
{
    let supply = [Frac::whole(-1), Frac::whole(0)];
    let net = network(alloc, &supply, &[arc(link(0, 1, gain), 1)])?;
    started(alloc, &net)
}

// Whether this overflow is met.
fn is_past(found: &Prepared<Change>, expected: Overflow) -> bool {
    match found {
        Prepared::Past(overflow) => *overflow == expected,
        _ => false,
    }
}

// What comes of the link.
fn prepared_link(alloc: Global, gain: Frac) -> Result<Prepared<Change>, Memory> {
    let begun = one_link(alloc, gain)?;
    let (full, first, second) = (&begun.full, &begun.first, &begun.second);
    Ok(linked(alloc, full, Phase::One, first, second, 0))
}

// The price of the link is 0 - (-1) + gain * 1, which is 2^127 here.
#[test]
fn past(rt: HostRuntime) -> Result<(), Fail> {
    let overflow = Overflow {
        row: Row::A2,
        place: Place::Arc(0),
        past: Past {
            op: Op::Plus,
            left: Frac::whole(1),
            right: greatest(),
        },
    };
    let found = prepared_link(rt.alloc(), greatest())?;
    assert!(rt; is_past(&found, overflow));
    Ok(())
}

// A brings 5, and a drain there takes from -1 up to as much as a fraction can be (arc 0).
fn wide_drain(alloc: Global) -> Result<AtStart, Memory>
    ensures { IfOk result (λ made. AreSound (phase_net StageOne made.full) (made.piece.lists ∷ [])) }
{
    let drain = drain_between(Frac::whole(-1), greatest());
    let net = network(alloc, &[Frac::whole(5), Frac::whole(0)], &[drain])?;
    Ok(first_alone(started(alloc, &net)?))
}

fn greatest() -> Frac {
    Frac::new(i128::MAX, 1).unwrap_or(Frac::whole(1))
}

// What comes of that drain.
fn prepared_drain(alloc: Global) -> Result<Prepared<Change>, Memory> {
    let made = wide_drain(alloc)?;
    Ok(alone(alloc, &made.full, Phase::One, &made.piece, 0))
}

// The drain is at -1, and the artificial one (arc 1) takes 6 at the potential 1. At the price 0 - 1 the drain enters upwards: it can go up to its
// upper bound, which is 2^127 - 1 less -1 away.
#[test]
fn past_the_greatest_step(rt: HostRuntime) -> Result<(), Fail> {
    let overflow = Overflow {
        row: Row::A5,
        place: Place::Arc(0),
        past: Past {
            op: Op::Minus,
            left: greatest(),
            right: Frac::whole(-1),
        },
    };
    let found = prepared_drain(rt.alloc())?;
    assert!(rt; is_past(&found, overflow));
    Ok(())
}

// ---- a flip

// A brings 5, and a drain there takes at most 3 (arc 0): the piece of A.
fn drain_of_three(alloc: Global) -> Result<AtStart, Memory>
    ensures { IfOk result (λ made. AreSound (phase_net StageOne made.full) (made.piece.lists ∷ [])) }
{
    let net = network(alloc, &[Frac::whole(5), Frac::whole(0)], &[narrow_drain()])?;
    Ok(first_alone(started(alloc, &net)?))
}

// The flows of that drain at its bounds, and where it is basic.
fn flows_of_drain(alloc: Global) -> Result<[Frac; 3], Memory> {
    let made = drain_of_three(alloc)?;
    if !is_arc(&made.full, 0) {
        return Err(Memory);
    }
    Ok([
        flow_at(&made.full, Phase::One, 0, Mark::Lower),
        flow_at(&made.full, Phase::One, 0, Mark::Upper),
        flow_at(&made.full, Phase::One, 0, Mark::Basic),
    ])
}

#[test]
fn flows_at_bounds(rt: HostRuntime) -> Result<(), Fail> {
    let flows = flows_of_drain(rt.alloc())?;
    let expected = [Frac::whole(0), Frac::whole(3), Frac::whole(0)];
    assert!(rt; flows.as_slice() == expected.as_slice());
    Ok(())
}

// The entry of that drain by the pivoter, and the piece after it.
fn flip_of(alloc: Global, full: &FullNet, piece: Quasi) -> Result<(Entry, Quasi), Fail>
    requires { AreSound (phase_net StageOne full.now) (piece.lists ∷ []) }
{
    let mut piece = piece;
    if !holds(full, &piece, 0) {
        return Err(Fail::from("another start"));
    }
    match TreePivoter.prepare(alloc, full, Phase::One, &mut piece, None, 0) {
        Prepared::Ready { entry, change } => {
            match TreePivoter.apply(full, Phase::One, change, piece, None) {
                Hands::One(after) => Ok((entry, after)),
                Hands::Two(_, _) => Err(Fail::from("two pieces")),
            }
        }
        _ => Err(Fail::from("no pivot")),
    }
}

fn flipped(alloc: Global) -> Result<(Entry, Quasi), Fail> {
    let AtStart { full, piece } = drain_of_three(alloc)?;
    flip_of(alloc, &full, piece)
}

// Of the supply 5 of A its artificial drain (arc 1) takes all, at the potential 1. Another drain (arc 0) at the price 0 - 1 takes 3, which is
// all that it can: so it stays outside of the basis, at its upper bound, and the potential as it is.
#[test]
fn flip(rt: HostRuntime) -> Result<(), Fail> {
    let (entry, after) = flipped(rt.alloc())?;
    assert!(rt; entry.enter == 0 && entry.leave == 0 && entry.leave_at == Mark::Upper);
    assert!(rt;
        has_lists(
            &after,
            &[node(0, 1)],
            &[basic(1, Ends::Drain(0), 2)],
            &[(0, Mark::Upper)]
        )
    );
    Ok(())
}
