//! Searches over small pieces, with steps worked out by hand.

use np_frac::{Frac, Memory};
use np_model::Ends;
use std::alloc::Global;
use std::test::Fail;
use tree_search::{
    ExtraArc, Joint, Step, arcs_at_nodes, find_extra, joints_of, search_from, search_off,
};

// The extra arc of five nodes: links lead from 0 to 1, from 2 to 1 and from 2 to 0, and are a cycle; from 3 to 1; and from 3 to 4.
fn extra_of_five(alloc: Global) -> Result<ExtraArc, Memory> {
    let (one, two, zero) = (Frac::whole(1), Frac::whole(2), Frac::whole(0));
    let nodes = [(0, zero), (1, zero), (2, zero), (3, zero), (4, zero)];
    let basics = [
        (
            0,
            Ends::Link {
                from: 0,
                to: 1,
                gain: one,
            },
            zero,
        ),
        (
            1,
            Ends::Link {
                from: 2,
                to: 1,
                gain: two,
            },
            zero,
        ),
        (
            2,
            Ends::Link {
                from: 2,
                to: 0,
                gain: one,
            },
            zero,
        ),
        (
            3,
            Ends::Link {
                from: 3,
                to: 1,
                gain: one,
            },
            zero,
        ),
        (
            4,
            Ends::Link {
                from: 3,
                to: 4,
                gain: one,
            },
            zero,
        ),
    ];
    let joints = joints_of(alloc, &nodes, &basics)?;
    let lists = arcs_at_nodes(alloc, joints.as_slice(), 5)?;
    find_extra(alloc, &nodes, &basics, joints.as_slice(), &lists)
}

// The extra arc of two links, the first from B (1) to A (0), and the second from A to B.
fn extra_of_two(alloc: Global) -> Result<ExtraArc, Memory> {
    let (one, two, zero) = (Frac::whole(1), Frac::whole(2), Frac::whole(0));
    let nodes = [(0, zero), (1, zero)];
    let back = Ends::Link {
        from: 1,
        to: 0,
        gain: one,
    };
    let there = Ends::Link {
        from: 0,
        to: 1,
        gain: two,
    };
    let basics = [(0, back, zero), (1, there, zero)];
    let joints = joints_of(alloc, &nodes, &basics)?;
    let lists = arcs_at_nodes(alloc, joints.as_slice(), 2)?;
    find_extra(alloc, &nodes, &basics, joints.as_slice(), &lists)
}

// Whether the extra arc is this cycle.
fn is_round(extra: &ExtraArc, expected: &[Step]) -> bool {
    match extra {
        ExtraArc::Round { cycle } => cycle.as_slice() == expected,
        ExtraArc::OneEnd { .. } => false,
    }
}

// Three nodes on a cycle, with a link against its direction.
#[test]
fn cycle_of_three(rt: HostRuntime) -> Result<(), Fail> {
    let extra = extra_of_five(rt.alloc())?;
    let first = Step {
        arc: 0,
        near: 0,
        far: 1,
    };
    let second = Step {
        arc: 1,
        near: 1,
        far: 2,
    };
    let third = Step {
        arc: 2,
        near: 2,
        far: 0,
    };
    assert!(rt; is_round(&extra, &[first, second, third]));
    Ok(())
}

// Two nodes that hang off a cycle of three one behind the other.
#[test]
fn chain_off_a_cycle(rt: HostRuntime) -> Result<(), Fail> {
    let joints = [
        Joint { from: 0, to: 1 },
        Joint { from: 2, to: 1 },
        Joint { from: 2, to: 0 },
        Joint { from: 2, to: 3 },
        Joint { from: 4, to: 3 },
    ];
    let lists = arcs_at_nodes(rt.alloc(), &joints, 5)?;
    let search = search_from(rt.alloc(), &joints, &lists, &[1, 2, 0], 5)?;
    let near = Step {
        arc: 3,
        near: 2,
        far: 3,
    };
    let far = Step {
        arc: 4,
        near: 3,
        far: 4,
    };
    assert!(rt; search.steps.as_slice() == [near, far].as_slice());
    Ok(())
}

// From the lesser node along the lower link, whichever way that leads.
#[test]
fn two_links(rt: HostRuntime) -> Result<(), Fail> {
    let extra = extra_of_two(rt.alloc())?;
    let there = Step {
        arc: 0,
        near: 0,
        far: 1,
    };
    let back = Step {
        arc: 1,
        near: 1,
        far: 0,
    };
    assert!(rt; is_round(&extra, &[there, back]));
    Ok(())
}

// Nodes 2, 5, 6 and 9, links between the second and each other, and a drain at it.
#[test]
fn star_with_a_drain(rt: HostRuntime) -> Result<(), Fail> {
    let zero = Frac::whole(0);
    let one = Frac::whole(1);
    let nodes = [(2, zero), (5, zero), (6, zero), (9, zero)];
    let basics = [
        (
            1,
            Ends::Link {
                from: 5,
                to: 2,
                gain: one,
            },
            zero,
        ),
        (4, Ends::Drain(5), zero),
        (
            7,
            Ends::Link {
                from: 6,
                to: 5,
                gain: one,
            },
            zero,
        ),
        (
            8,
            Ends::Link {
                from: 5,
                to: 9,
                gain: one,
            },
            zero,
        ),
    ];
    let joints = joints_of(rt.alloc(), &nodes, &basics)?;
    let lists = arcs_at_nodes(rt.alloc(), joints.as_slice(), 4)?;
    let extra = find_extra(rt.alloc(), &nodes, &basics, joints.as_slice(), &lists)?;
    assert!(rt; matches!(&extra, ExtraArc::OneEnd { arc: 1 }));
    let search = search_off(rt.alloc(), joints.as_slice(), &lists, &extra, 4)?;
    assert!(rt; search.steps.as_slice() == [to(0, 0), to(2, 2), to(3, 3)].as_slice());
    Ok(())
}

// A step from the middle.
fn to(arc: u32, far: u32) -> Step {
    Step { arc, near: 1, far }
}
