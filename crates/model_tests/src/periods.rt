//! A test of the arcs of a scheme over its periods.

use np_frac::{Frac, Memory};
use np_model::{Bands, Ends, Flow, FlowKind, Flows, Fracs, Name, Names, Scheme, Upper};
use period_expand::{Staged, expand_periods};
use std::alloc::Global;
use std::test::Fail;

// A flow with a name of one letter, from 0 to 1 in each period, where a unit costs 1.
fn flow(alloc: Global, letter: u8, kind: FlowKind) -> Result<Flow, Memory> {
    let mut name = Vec::new(alloc);
    name.push(letter)?;
    Ok(Flow {
        name: Name { items: name },
        kind,
        lower: Frac::whole(0),
        upper: Upper::Finite(Frac::whole(1)),
        cost: Frac::whole(1),
        bands: Bands {
            items: Vec::new(alloc),
        },
    })
}

// A reservoir over twelve months: what it holds, what leaves it, and what comes in.
fn year(alloc: Global) -> Result<Scheme, Fail> {
    let mut name = Vec::new(alloc);
    name.push(b'A')?;
    let mut nodes = Vec::new(alloc);
    nodes.push(Name { items: name })?;
    let hold = FlowKind::Hold {
        node: 0,
        gain: Frac::whole(1),
    };
    let mut flows = Vec::new(alloc);
    flows.push(flow(alloc, b'h', hold)?)?;
    flows.push(flow(alloc, b'd', FlowKind::Drain { node: 0 })?)?;
    flows.push(flow(alloc, b'f', FlowKind::Feed { node: 0 })?)?;
    let supply = Vec::from_slice(alloc, &[Frac::whole(0); 12])?;
    let made = Scheme::new(
        alloc,
        12,
        Names { items: nodes },
        Fracs { items: supply },
        Flows { items: flows },
    )?;
    Ok(made.ok_or("not a valid scheme")?)
}

#[test]
fn months(rt: HostRuntime) -> Result<(), Fail> {
    let expanded = expand_periods(rt.alloc(), &year(rt.alloc())?)?;
    assert!(rt; expanded.supply.as_slice().len() == 12);
    let staged = expanded.staged.as_slice();
    assert!(rt; staged.len() == 35);
    // The hold of the second month, and the feed of the last.
    let hold: &Staged = &staged[3];
    assert!(rt; hold.flow == 0 && hold.period == 2);
    let next = Ends::Link {
        from: 1,
        to: 2,
        gain: Frac::whole(1),
    };
    assert!(rt; hold.ends == next);
    let feed: &Staged = &staged[34];
    assert!(rt; feed.flow == 2 && feed.period == 12);
    assert!(rt; feed.ends == Ends::Feed(11));
    Ok(())
}
