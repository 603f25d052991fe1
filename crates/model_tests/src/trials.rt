//! Tests of the network for trials.

use demo_network::demo_scheme;
use np_frac::Frac;
use np_model::{Flow, FlowKind, Scheme};
use std::alloc::Global;
use std::test::Fail;

// The number of a demo network, and its size: how many nodes and arcs it has over all periods.
const SIZES: &str = "1 8 31
2 16 94
7 56 273
10 80 470
1000 8000 47000";

fn arcs_of(scheme: &Scheme) -> usize {
    let mut arcs = 0u64;
    for flow in scheme.flows.as_slice() {
        let segments = 1 + flow.bands.as_slice().len() as u64;
        arcs = arcs.wrapping_add(segments.wrapping_mul(u64::from(
            flow.kind.periods(scheme.periods),
        )));
    }
    arcs as usize
}

// Whether the network has the size of a row.
fn has_size(alloc: Global, row: &str) -> Result<bool, Fail> {
    let (number, size) = row.split_once(' ').ok_or("no number")?;
    let (nodes, arcs) = size.split_once(' ').ok_or("no size")?;
    let number = number.parse::<u32>()?;
    if number < 1 || 1000 < number {
        return Err(Fail::from("no network of this number"));
    }
    let scheme = demo_scheme(alloc, number)?;
    Ok(
        scheme.supply.as_slice().len() == nodes.parse::<usize>()?
            && arcs_of(&scheme) == arcs.parse::<usize>()?,
    )
}

#[test]
fn has_sizes(rt: HostRuntime) -> Result<(), Fail> {
    for row in SIZES.lines() {
        assert!(rt; has_size(rt.alloc(), row)?, "{row}");
    }
    Ok(())
}

#[test]
fn has_supplies(rt: HostRuntime) -> Result<(), Fail> {
    let scheme = demo_scheme(rt.alloc(), 1)?;
    let supplies = scheme.supply.as_slice();
    assert_eq!(rt; scheme.periods, 8);
    assert_eq!(rt; supplies.len(), 8);
    for (supply, expected) in supplies.iter().zip([0, 5, -1, 4, -2, 3, -3, 2].iter()) {
        assert!(rt; supply.is_same(Frac::whole(*expected)));
    }
    Ok(())
}

// The flow with this name.
fn named<'a>(scheme: &'a Scheme, name: &str) -> Option<&'a Flow> {
    scheme
        .flows
        .as_slice()
        .iter()
        .find(|flow| flow.name.as_slice() == name.as_bytes())
}

#[test]
fn has_flows(rt: HostRuntime) -> Result<(), Fail> {
    let scheme = demo_scheme(rt.alloc(), 8)?;
    assert!(rt; scheme.nodes.name_at(7) == b"n7".as_slice());
    let link = named(&scheme, "b6");
    assert!(rt; link.is_some());
    if let Some(link) = link {
        assert!(rt; matches!(link.kind, FlowKind::Link { from: 6, to: 5, .. }));
        assert!(rt; link.cost.is_same(Frac::whole(2)));
    }
    assert!(rt; named(&scheme, "a7").is_some());
    assert!(rt; named(&scheme, "a8").is_none());
    assert!(rt; scheme.flows.as_slice().len() == 40);
    Ok(())
}
