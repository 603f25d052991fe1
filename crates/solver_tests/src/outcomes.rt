//! Small networks, with outcomes worked out by hand.

use crate::fixtures::{
    arc, drain, entry, is_log, is_optimal, link, network, over, solved, solved_by,
};
use np_frac::{Frac, Op, Past};
use np_model::{Ends, Entry, Mark, Outcome, Overflow, Place, Row};
use np_runs::Solver;
use simplex_driver::NetSimplex;
use std::test::Fail;

// Nothing is to be done where there is nothing.
#[test]
fn nothing(rt: HostRuntime) -> Result<(), Fail> {
    let net = network(rt.alloc(), &[], &[])?;
    assert!(rt; is_optimal(&solved(&rt, rt.alloc(), &net, 1)?, &[], &[], 0, &[]));
    Ok(())
}

// A needs 5, and nothing brings it: its feed carries 5 at the price -1.
#[test]
fn no_plan(rt: HostRuntime) -> Result<(), Fail> {
    let net = network(rt.alloc(), &[Frac::whole(-5)], &[])?;
    match solved(&rt, rt.alloc(), &net, 7)? {
        Outcome::Infeasible { potentials, log } => {
            assert!(rt; potentials.items.as_slice() == [Frac::whole(-1)].as_slice());
            assert!(rt; is_log(&log, None, &[]));
            Ok(())
        }
        _ => Err(Fail::from("another outcome")),
    }
}

// A unit that goes from A to B becomes 2, of which 1 pays for it back at A and 1 more is drained there.
#[test]
fn gain_on_a_cycle(rt: HostRuntime) -> Result<(), Fail> {
    let none = Frac::whole(0);
    let arcs = [
        arc(2, link(2, 0, 1, Frac::whole(2)), 0),
        arc(2, link(2, 1, 0, Frac::whole(1)), 0),
        arc(2, Ends::Drain(0), -1),
    ];
    let net = network(rt.alloc(), &[none, none], &arcs)?;
    match solved(&rt, rt.alloc(), &net, 1000)? {
        Outcome::Unbounded { flows, ray, log } => {
            assert!(rt; flows.items.as_slice() == [none, none, none].as_slice());
            let amounts = [Frac::whole(1), Frac::whole(2), Frac::whole(1)];
            assert!(rt; ray.items.as_slice() == amounts.as_slice());
            assert!(rt; log.turned.is_some());
            Ok(())
        }
        _ => Err(Fail::from("another outcome")),
    }
}

// A is short of 1: a unit to B comes back as 2. The piece of both nodes is their cycle.
#[test]
fn cycle_piece(rt: HostRuntime) -> Result<(), Fail> {
    let arcs = [
        arc(2, link(2, 0, 1, Frac::whole(2)), 1),
        arc(2, link(2, 1, 0, Frac::whole(1)), 1),
    ];
    let net = network(rt.alloc(), &[Frac::whole(-1), Frac::whole(0)], &arcs)?;
    let outcome = solved(&rt, rt.alloc(), &net, 1000)?;
    let flows = [Frac::whole(1), Frac::whole(2)];
    let potentials = [Frac::whole(-3), Frac::whole(-2)];
    assert!(rt;
        is_optimal(
            &outcome,
            &flows,
            &potentials,
            2,
            &[entry(1, 3), entry(0, 2)]
        )
    );
    Ok(())
}

// 4 must be drained, whatever it pays: a fixed arc never enters.
#[test]
fn fixed_arc(rt: HostRuntime) -> Result<(), Fail> {
    let four = Frac::whole(4);
    let net = network(rt.alloc(), &[four], &[drain(four, four, -7)])?;
    let outcome = solved(&rt, rt.alloc(), &net, 1000)?;
    assert!(rt; is_optimal(&outcome, &[four], &[Frac::whole(0)], 0, &[]));
    Ok(())
}

// Of 5, 3 go the way that pays, which is full then: its arc goes from one bound to the other.
#[test]
fn flip(rt: HostRuntime) -> Result<(), Fail> {
    let (three, none) = (Frac::whole(3), Frac::whole(0));
    let arcs = [arc(1, Ends::Drain(0), 0), drain(none, three, -1)];
    let net = network(rt.alloc(), &[Frac::whole(5)], &arcs)?;
    let outcome = solved(&rt, rt.alloc(), &net, 1000)?;
    let filled = Entry {
        enter: 1,
        leave: 1,
        leave_at: Mark::Upper,
    };
    assert!(rt;
        is_optimal(
            &outcome,
            &[Frac::whole(2), three],
            &[none],
            1,
            &[entry(0, 2), filled]
        )
    );
    Ok(())
}

// Links that lose all but 10^-18: the potential of the node before the last one overflows in the end.
#[test]
fn potential_overflows(rt: HostRuntime) -> Result<(), Fail> {
    let small = over(1, 1_000_000_000_000_000_000);
    let none = Frac::whole(0);
    let arcs = [
        arc(4, link(4, 0, 1, small), 0),
        arc(4, link(4, 1, 2, small), 0),
        arc(4, link(4, 2, 3, small), 0),
        arc(4, Ends::Feed(0), 1),
    ];
    let net = network(rt.alloc(), &[none, none, none, Frac::whole(-1)], &arcs)?;
    match solved(&rt, rt.alloc(), &net, 1000)? {
        Outcome::Overflow { overflow, log } => {
            let right = over(-1, 1_000_000_000_000_000_000_000_000_000_000_000_000);
            let past = Past {
                op: Op::Times,
                left: small,
                right,
            };
            assert!(rt;
                overflow
                    == Overflow {
                        row: Row::A7,
                        place: Place::Arc(2),
                        past
                    }
            );
            assert!(rt; is_log(&log, None, &[entry(0, 4), entry(1, 5)]));
            Ok(())
        }
        _ => Err(Fail::from("another outcome")),
    }
}

// Three nodes to be drained, and one pivot to do it with.
#[test]
fn budget_of_one(rt: HostRuntime) -> Result<(), Fail> {
    let one = Frac::whole(1);
    let arcs = [
        arc(3, Ends::Drain(0), 0),
        arc(3, Ends::Drain(1), 0),
        arc(3, Ends::Drain(2), 0),
    ];
    let net = network(rt.alloc(), &[one, one, one], &arcs)?;
    match solved(&rt, rt.alloc(), &net, 1)? {
        Outcome::Budget { arc, log } => {
            assert!(rt; arc == 1);
            assert!(rt; is_log(&log, None, &[entry(0, 3)]));
            Ok(())
        }
        _ => Err(Fail::from("another outcome")),
    }
}

// The greatest whole number that fits, twice: what is left of it at A overflows, and there is no run.
#[test]
fn no_start(rt: HostRuntime) -> Result<(), Fail> {
    let most = over(i128::MAX, 1);
    let net = network(rt.alloc(), &[most], &[drain(most.negated(), most, 0)])?;
    match solved(&rt, rt.alloc(), &net, 1)? {
        Outcome::Overflow { overflow, log } => {
            let past = Past {
                op: Op::Minus,
                left: most,
                right: most.negated(),
            };
            assert!(rt;
                overflow
                    == Overflow {
                        row: Row::A1,
                        place: Place::Node(0),
                        past
                    }
            );
            assert!(rt; is_log(&log, None, &[]));
            Ok(())
        }
        _ => Err(Fail::from("another outcome")),
    }
}

// A chain of four nodes that each are to be drained at their own drain, or at the first one for less. There is one plan of least cost, whoever
// makes the pivots.
#[test]
fn several_workers(rt: HostRuntime) -> Result<(), Fail> {
    let (none, one) = (Frac::whole(0), Frac::whole(1));
    let (two, three) = (Frac::whole(2), Frac::whole(3));
    let arcs = [
        arc(4, Ends::Drain(0), 0),
        arc(4, Ends::Drain(1), 9),
        arc(4, Ends::Drain(2), 9),
        arc(4, Ends::Drain(3), 9),
        arc(4, link(4, 1, 0, one), 1),
        arc(4, link(4, 2, 1, one), 1),
        arc(4, link(4, 3, 2, one), 1),
    ];
    let net = network(rt.alloc(), &[one, one, one, one], &arcs)?;
    let flows = [Frac::whole(4), none, none, none, three, two, one];
    let potentials = [none, one, two, three];
    for others in 0..16 {
        match solved_by(&rt, rt.alloc(), &net, others + 1, 1000)? {
            Outcome::Optimal {
                flows: found,
                potentials: prices,
                ..
            } => {
                assert!(rt; found.items.as_slice() == flows.as_slice());
                assert!(rt; prices.items.as_slice() == potentials.as_slice());
            }
            _ => return Err(Fail::from("another outcome")),
        }
    }
    Ok(())
}

// The solver with its own budget gives what the call gives.
#[test]
fn as_a_solver(rt: HostRuntime) -> Result<(), Fail> {
    let four = Frac::whole(4);
    let net = network(rt.alloc(), &[four], &[drain(four, four, -7)])?;
    let mut solver = NetSimplex {
        workers: 1,
        budget: 10,
    };
    match solver.solve_net(&rt, rt.alloc(), &net) {
        Ok(outcome) => assert!(rt; is_optimal(&outcome, &[four], &[Frac::whole(0)], 0, &[])),
        Err(_) => return Err(Fail::from("no memory")),
    }
    assert!(rt; solver.budget == 10);
    Ok(())
}
