//! Potentials of small pieces, with values worked out by hand.

ghost use Rattle.std.specs.Prelude.{IfOk};
ghost use Rattle.np_model.specs.declared.phase.Phase.{Phase as ThePhase};
ghost use Rattle.np_model.specs.Basis.Artificial.{IsOneEndAt};
ghost use Rattle.np_model.specs.Basis.Phases.{phase_net};
ghost use Rattle.np_model.specs.Basis.Sound.{IsInNet};

use crate::samples::{Five, FiveNodes, five_nodes, over, whole};
use np_frac::{Frac, Memory, Op, Past};
use np_model::{Ends, EndsList, Fracs, FullNet, Net, NetArcs, Overflow, Phase, Place, Row};
use quasi_tree::{FlowList, Lists, MarkList, NodeList, Quasi};
use std::alloc::Global;
use std::test::Fail;
use tree_potentials::{PotentialRefusal, potentials};

// A full network, and a piece of it.
#[derive(Drop)]
struct Case {
    full: FullNet,
    piece: Quasi,
}

// What the potentials of the five nodes in stage two end in, and the piece afterwards.
#[derive(Drop)]
struct Found {
    answer: Result<(), PotentialRefusal>,
    piece: Quasi,
}

fn on_five_nodes(alloc: Global, gains: &Five, costs: &Five) -> Result<Found, Memory> {
    let case = five_nodes(alloc, gains, costs)?;
    let FiveNodes { full, piece } = case;
    let mut piece = piece;
    let answer = potentials(alloc, &full, Phase::Two, &mut piece);
    Ok(Found { answer, piece })
}

// Whether these potentials stand in the piece.
fn has_potentials(piece: &Quasi, expected: &[(u32, Frac)]) -> bool {
    piece.lists().nodes.items.as_slice() == expected
}

// Whether the answer is this overflow.
fn is_past(found: &Found, row: Row, op: Op, left: Frac, right: Frac) -> bool {
    let expected = PotentialRefusal::Past(Overflow {
        row,
        place: Place::Turn,
        past: Past { op, left, right },
    });
    found.answer == Err(expected)
}

// A node with its potential.
fn node(number: u32, num: i128, den: i128) -> (u32, Frac) {
    (number, over(num, den))
}

// With gains of 2, 3 and 1/2 and costs of 1, 0 and 2, the first three have p0 = 1 + 2 p1, p2 = 3 p1 and p2 = 2 + p0 / 2, so that
// p1 = 5/4. Then p3 = -1 + 4 p1 = 4 and p4 = (p3 - 1) / 2.
#[test]
fn cycle_and_chain(rt: HostRuntime) -> Result<(), Fail> {
    let mut gains = whole(2, 3, 1, 4, 2);
    gains.third = over(1, 2);
    let found = on_five_nodes(rt.alloc(), &gains, &whole(1, 0, 2, -1, 1))?;
    assert!(rt; found.answer.is_ok());
    let expected = [
        node(0, 7, 2),
        node(1, 5, 4),
        node(2, 15, 4),
        node(3, 4, 1),
        node(4, 3, 2),
    ];
    assert!(rt; has_potentials(&found.piece, &expected));
    Ok(())
}

// Behind the first arc the product is 1 / 2^100, and the second, which is left at its head, has a gain of 1 / 2^100.
#[test]
fn product_round_the_cycle_overflows(rt: HostRuntime) -> Result<(), Fail> {
    let mut gains = whole(1, 1, 1, 1, 1);
    gains.first = over(1 << 100, 1);
    gains.second = over(1, 1 << 100);
    let found = on_five_nodes(rt.alloc(), &gains, &whole(0, 0, 0, 0, 0))?;
    let small = over(1, 1 << 100);
    assert!(rt; is_past(&found, Row::A3, Op::Times, small, small));
    Ok(())
}

// The first arc is left at its tail, so that its potential becomes (0 - 2^126) / (1/4).
#[test]
fn potential_round_the_cycle_overflows(rt: HostRuntime) -> Result<(), Fail> {
    let mut gains = whole(1, 3, 1, 1, 1);
    gains.first = over(1, 4);
    let mut costs = whole(0, 0, 0, 0, 0);
    costs.first = over(1 << 126, 1);
    let found = on_five_nodes(rt.alloc(), &gains, &costs)?;
    assert!(rt; is_past(&found, Row::A7, Op::Over, over(-(1 << 126), 1), over(1, 4)));
    Ok(())
}

// Costs four times those of the first test make p1 = 5, and the fourth link, which is left at its head, has a gain of 2^126.
#[test]
fn potential_off_the_cycle_overflows(rt: HostRuntime) -> Result<(), Fail> {
    let mut gains = whole(2, 3, 1, 4, 2);
    gains.third = over(1, 2);
    gains.fourth = over(1 << 126, 1);
    let found = on_five_nodes(rt.alloc(), &gains, &whole(4, 0, 8, 0, 0))?;
    assert!(rt; is_past(&found, Row::A7, Op::Times, over(1 << 126, 1), over(5, 1)));
    let kept = [
        node(0, 0, 1),
        node(1, 0, 1),
        node(2, 0, 1),
        node(3, 0, 1),
        node(4, 0, 1),
    ];
    assert!(rt; has_potentials(&found.piece, &kept));
    Ok(())
}

// A node alone with its artificial arc, and 5 where its potential is to stand.
fn one_node(alloc: Global, ends: &Ends) -> Result<Case, Memory>
    requires { IsOneEndAt 0 ends.now }
    ensures { IfOk result (λ made. (phase : ThePhase) → IsInNet (phase_net phase made.full) made.piece.lists) }
{
    let (zero, five) = (Frac::whole(0), Frac::whole(5));
    let supply = Vec::from_slice(alloc, &[zero])?;
    let artificial = Vec::from_slice(alloc, &[*ends])?;
    let full = FullNet {
        net: Net {
            supply: Fracs { items: supply },
            arcs: NetArcs {
                items: Vec::new(alloc),
            },
        },
        artificial: EndsList { items: artificial },
    };
    let nodes = Vec::from_slice(alloc, &[(0, five)])?;
    let basics = Vec::from_slice(alloc, &[(0, *ends, zero)])?;
    let piece = Quasi::of_lists(Lists {
        nodes: NodeList { items: nodes },
        basics: FlowList { items: basics },
        marks: MarkList {
            items: Vec::new(alloc),
        },
    });
    Ok(Case { full, piece })
}

// The piece of the node alone, with its potential; none where this is refused.
fn settled(alloc: Global, ends: &Ends, phase: Phase) -> Result<Option<Quasi>, Memory>
    requires { IsOneEndAt 0 ends.now }
{
    let Case { full, piece } = one_node(alloc, ends)?;
    let mut piece = piece;
    match potentials(alloc, &full, phase, &mut piece) {
        Ok(()) => Ok(Some(piece)),
        Err(_) => Ok(None),
    }
}

// Whether there is a piece, with this potential.
fn has_one(piece: &Option<Quasi>, potential: i64) -> bool {
    match piece {
        Some(piece) => has_potentials(piece, &[(0, Frac::whole(potential))]),
        None => false,
    }
}

// In stage one an artificial arc costs 1, which a drain asks of its node, and a feed of its opposite.
#[test]
fn nodes_alone(rt: HostRuntime) -> Result<(), Fail> {
    let drained = settled(rt.alloc(), &Ends::Drain(0), Phase::One)?;
    assert!(rt; has_one(&drained, 1));
    let fed = settled(rt.alloc(), &Ends::Feed(0), Phase::One)?;
    assert!(rt; has_one(&fed, -1));
    Ok(())
}

// In stage two an artificial arc costs nothing.
#[test]
fn nodes_alone_in_stage_two(rt: HostRuntime) -> Result<(), Fail> {
    let drained = settled(rt.alloc(), &Ends::Drain(0), Phase::Two)?;
    assert!(rt; has_one(&drained, 0));
    let fed = settled(rt.alloc(), &Ends::Feed(0), Phase::Two)?;
    assert!(rt; has_one(&fed, 0));
    Ok(())
}
