//! Directions on small pieces, with amounts worked out by hand.

ghost use Rattle.std.specs.Prelude.{[], ◌∷◌, IfOk};
ghost use Rattle.np_model.specs.declared.phase.Phase.{Phase as ThePhase};
ghost use Rattle.np_model.specs.Basis.Phases.{phase_net};
ghost use Rattle.tree_flows.specs.Answers.{CanEnter};

use crate::samples::{Five, five_nodes, link, lists_of, over, whole};
use np_frac::{Frac, Memory, Op, Past};
use np_model::{
    Direction, Ends, EndsList, Fracs, FullNet, Mark, Net, NetArcs, Overflow, Place, Row,
};
use quasi_tree::Quasi;
use std::alloc::Global;
use std::test::Fail;
use tree_flows::{DirRefusal, direction};

// Two nodes, a link from 0 to 1 and one back, with a feed at 0 and a drain at 1. Each node alone is a piece with its artificial arc; and both
// are one with the first link and the drain.
#[derive(Drop)]
struct TwoNodes {
    full: FullNet,
    left: Quasi,
    right: Quasi,
    both: Quasi,
}

fn two_nodes(alloc: Global, there: Frac, back: Frac) -> Result<TwoNodes, Memory>
    ensures apart { IfOk result (λ made. (phase : ThePhase) → CanEnter (phase_net phase made.full) (made.left.lists ∷ made.right.lists ∷ []) 1) }
    ensures turned { IfOk result (λ made. (phase : ThePhase) → CanEnter (phase_net phase made.full) (made.right.lists ∷ made.left.lists ∷ []) 1) }
    ensures joined { IfOk result (λ made. (phase : ThePhase) → CanEnter (phase_net phase made.full) (made.both.lists ∷ []) 1) }
    ensures fed { IfOk result (λ made. (phase : ThePhase) → CanEnter (phase_net phase made.full) (made.both.lists ∷ []) 2) }
{
    let zero = Frac::whole(0);
    if !zero.is_below(there) || !zero.is_below(back) {
        return Err(Memory);
    }
    let supply = Vec::from_slice(alloc, &[zero, zero])?;
    let arcs = Vec::from_slice(alloc, &[link(0, 1, there, zero), link(1, 0, back, zero)])?;
    let artificial = Vec::from_slice(alloc, &[Ends::Feed(0), Ends::Drain(1)])?;
    let full = FullNet {
        net: Net {
            supply: Fracs { items: supply },
            arcs: NetArcs { items: arcs },
        },
        artificial: EndsList { items: artificial },
    };
    let feed = [(2, Ends::Feed(0), zero)];
    let drain = [(3, Ends::Drain(1), zero)];
    let tree = [
        (0, link(0, 1, there, zero).ends, zero),
        (3, Ends::Drain(1), zero),
    ];
    let links = [(0, Mark::Lower), (1, Mark::Lower)];
    let others = [(1, Mark::Lower), (2, Mark::Lower)];
    let left = Quasi::of_lists(lists_of(alloc, &[(0, zero)], &feed, &links)?);
    let right = Quasi::of_lists(lists_of(alloc, &[(1, zero)], &drain, &links)?);
    let both = Quasi::of_lists(lists_of(alloc, &[(0, zero), (1, zero)], &tree, &others)?);
    Ok(TwoNodes {
        full,
        left,
        right,
        both,
    })
}

// What is asked of two nodes: the link back on both pieces, from either side, or on the tree; and the feed on the tree.
#[derive(Drop)]
enum Asked {
    Apart,
    Turned,
    Joined,
    Fed,
}

fn on_two_nodes(
    alloc: Global,
    there: Frac,
    back: Frac,
    asked: Asked,
    up: bool,
) -> Result<Result<Direction, DirRefusal>, Memory> {
    let case = two_nodes(alloc, there, back)?;
    Ok(match asked {
        Asked::Apart => direction(alloc, &case.full, &case.left, Some(&case.right), 1, up),
        Asked::Turned => direction(alloc, &case.full, &case.right, Some(&case.left), 1, up),
        Asked::Joined => direction(alloc, &case.full, &case.both, None, 1, up),
        Asked::Fed => direction(alloc, &case.full, &case.both, None, 2, up),
    })
}

// The direction of the sixth link on five nodes.
fn parallel(alloc: Global, gains: &Five) -> Result<Result<Direction, DirRefusal>, Memory> {
    let case = five_nodes(alloc, gains, &whole(0, 0, 0, 0, 0))?;
    Ok(direction(alloc, &case.full, &case.piece, None, 5, true))
}

// The direction of the drain at node 3.
fn drained(alloc: Global, gains: &Five) -> Result<Result<Direction, DirRefusal>, Memory> {
    let case = five_nodes(alloc, gains, &whole(0, 0, 0, 0, 0))?;
    Ok(direction(alloc, &case.full, &case.piece, None, 9, true))
}

// Whether the arc enters this way.
fn enters(found: &Result<Direction, DirRefusal>, arc: u32, up: bool) -> bool {
    match found {
        Ok(found) => found.enter == arc && found.up == up,
        Err(_) => false,
    }
}

// Whether the direction has these amounts.
fn has_steps(found: &Result<Direction, DirRefusal>, expected: &[(u32, Frac)]) -> bool {
    match found {
        Ok(found) => found.steps.as_slice() == expected,
        Err(_) => false,
    }
}

// An arc with its amount.
fn step(arc: u32, amount: i64) -> (u32, Frac) {
    (arc, Frac::whole(amount))
}

// Whether this overflow was met when the arc was to enter.
fn is_past(found: &Result<Direction, DirRefusal>, row: Row, arc: u32, past: Past) -> bool {
    match found {
        Ok(_) => false,
        Err(refusal) => {
            *refusal
                == DirRefusal::Past(Overflow {
                    row,
                    place: Place::Arc(arc),
                    past,
                })
        }
    }
}

// The link back brings 1 to node 0, which its feed leaves out, and takes 1 from node 1, which its drain leaves there.
#[test]
fn nodes_alone(rt: HostRuntime) -> Result<(), Fail> {
    let (two, one) = (Frac::whole(2), Frac::whole(1));
    let found = on_two_nodes(rt.alloc(), two, one, Asked::Apart, true)?;
    assert!(rt; enters(&found, 1, true));
    assert!(rt; has_steps(&found, &[step(1, 1), step(2, -1), step(3, -1)]));
    Ok(())
}

// The same whichever piece is given first; down, the amounts are the opposite ones.
#[test]
fn nodes_alone_turned(rt: HostRuntime) -> Result<(), Fail> {
    let (two, three) = (Frac::whole(2), Frac::whole(3));
    let found = on_two_nodes(rt.alloc(), two, three, Asked::Turned, false)?;
    assert!(rt; enters(&found, 1, false));
    assert!(rt; has_steps(&found, &[step(1, -1), step(2, 3), step(3, 1)]));
    Ok(())
}

// Less on the link back, at a gain of 3, brings 3 less to node 0 and 1 less from node 1: the link there, at a gain of 2, carries 3 less, so
// that 6 less come to node 1, and 5 less are left there.
#[test]
fn down_on_a_tree(rt: HostRuntime) -> Result<(), Fail> {
    let (two, three) = (Frac::whole(2), Frac::whole(3));
    let found = on_two_nodes(rt.alloc(), two, three, Asked::Joined, false)?;
    assert!(rt; has_steps(&found, &[step(0, -3), step(1, -1), step(3, -5)]));
    Ok(())
}

// What the feed brings to node 0 goes over the link at a gain of 2, and leaves at node 1.
#[test]
fn one_ended_arc(rt: HostRuntime) -> Result<(), Fail> {
    let (two, three) = (Frac::whole(2), Frac::whole(3));
    let found = on_two_nodes(rt.alloc(), two, three, Asked::Fed, true)?;
    assert!(rt; has_steps(&found, &[step(0, 1), step(2, 1), step(3, 2)]));
    Ok(())
}

// The link there carries 2^80, which comes to node 1 times 2^80.
#[test]
fn amount_on_a_tree_overflows(rt: HostRuntime) -> Result<(), Fail> {
    let big = over(1 << 80, 1);
    let found = on_two_nodes(rt.alloc(), big, big, Asked::Joined, true)?;
    let past = Past {
        op: Op::Times,
        left: big,
        right: big,
    };
    assert!(rt; is_past(&found, Row::A4, 1, past));
    Ok(())
}

// The drain takes 1 from node 3, so that the link to node 1 carries 1 less. With gains of 1, 2 and 1 the cycle makes up for that: 1 less from
// node 0 and twice 1 from node 2 come to node 1; node 2 gets that 1 back, and node 0 too.
#[test]
fn into_the_cycle(rt: HostRuntime) -> Result<(), Fail> {
    let found = drained(rt.alloc(), &whole(1, 2, 1, 1, 1))?;
    let expected = [
        step(0, -1),
        step(1, 1),
        step(2, -1),
        step(3, -1),
        step(9, 1),
    ];
    assert!(rt; has_steps(&found, &expected));
    Ok(())
}

// What the sixth link carries the fifth carries less, and nothing comes to the cycle.
#[test]
fn around_the_cycle(rt: HostRuntime) -> Result<(), Fail> {
    let found = parallel(rt.alloc(), &whole(1, 2, 1, 1, 7))?;
    assert!(rt; has_steps(&found, &[step(4, -1), step(5, 1)]));
    Ok(())
}

// An amount of 1 on the first arc brings 2^100 to node 1, and the second, which has its head there, has a gain of 1 / 2^60.
#[test]
fn divisor_overflows(rt: HostRuntime) -> Result<(), Fail> {
    let mut gains = whole(1, 1, 1, 1, 1);
    gains.first = over(1 << 100, 1);
    gains.second = over(1, 1 << 60);
    let found = drained(rt.alloc(), &gains)?;
    let past = Past {
        op: Op::Over,
        left: over(-(1 << 100), 1),
        right: over(1, 1 << 60),
    };
    assert!(rt; is_past(&found, Row::A3, 9, past));
    Ok(())
}

// 2^100 less come to node 1. The second link makes up for them, and the third, at a gain of 2^60, cannot.
#[test]
fn amount_on_the_cycle_overflows(rt: HostRuntime) -> Result<(), Fail> {
    let mut gains = whole(1, 1, 1, 1, 1);
    gains.first = over(1, 1 << 61);
    gains.third = over(1 << 60, 1);
    gains.fourth = over(1 << 100, 1);
    let found = drained(rt.alloc(), &gains)?;
    let past = Past {
        op: Op::Times,
        left: over(1 << 60, 1),
        right: over(-(1 << 100), 1),
    };
    assert!(rt; is_past(&found, Row::A4, 9, past));
    Ok(())
}
