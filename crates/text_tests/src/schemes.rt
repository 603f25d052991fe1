//! A test of the text that is written of a scheme.

use net_csv::scheme_text;
use np_frac::{Frac, Memory, read_amount};
use np_model::{Band, Bands, Flow, FlowKind, Flows, Fracs, Name, Names, Scheme, Upper};
use std::alloc::Global;
use std::test::Fail;

// A node whose name holds a comma, and one whose name holds a quote.
fn small_nodes(alloc: Global) -> Result<Names, Memory> {
    let comma = Name {
        items: Vec::from_slice(alloc, b"a,b")?,
    };
    let quote = Name {
        items: Vec::from_slice(alloc, b"c\"d")?,
    };
    let items = vec![in alloc; comma, quote]?;
    Ok(Names { items })
}

// The supplies of two nodes in two periods.
fn small_supply(alloc: Global, third: Frac) -> Result<Fracs, Memory> {
    let none = Frac::whole(0);
    let items = vec![in alloc; none, third, Frac::whole(4), none]?;
    Ok(Fracs { items })
}

fn arc(alloc: Global) -> Result<Flow, Memory> {
    Ok(Flow {
        name: Name {
            items: Vec::from_slice(alloc, b"x,y")?,
        },
        kind: FlowKind::Link {
            from: 0,
            to: 1,
            gain: Frac::whole(2),
        },
        lower: Frac::whole(-1),
        upper: Upper::Infinite,
        cost: Frac::whole(0),
        bands: Bands {
            items: Vec::new(alloc),
        },
    })
}

fn hold(alloc: Global) -> Result<Flow, Memory> {
    Ok(Flow {
        name: Name {
            items: Vec::from_slice(alloc, b"h")?,
        },
        kind: FlowKind::Hold {
            node: 0,
            gain: Frac::whole(1),
        },
        lower: Frac::whole(0),
        upper: Upper::Finite(Frac::whole(5)),
        cost: Frac::whole(-7),
        bands: Bands {
            items: Vec::new(alloc),
        },
    })
}

fn drain(alloc: Global) -> Result<Flow, Memory> {
    let bands = vec![in alloc;
        Band {
            width: Upper::Finite(Frac::whole(2)),
            slope: Frac::whole(3)
        },
        Band {
            width: Upper::Infinite,
            slope: Frac::whole(3)
        },
    ]?;
    Ok(Flow {
        name: Name {
            items: Vec::from_slice(alloc, b"z")?,
        },
        kind: FlowKind::Drain { node: 1 },
        lower: Frac::whole(0),
        upper: Upper::Finite(Frac::whole(10)),
        cost: Frac::whole(1),
        bands: Bands { items: bands },
    })
}

fn small_flows(alloc: Global) -> Result<Flows, Memory> {
    let items = vec![in alloc; arc(alloc)?, hold(alloc)?, drain(alloc)?]?;
    Ok(Flows { items })
}

fn small_scheme(alloc: Global, third: Frac) -> Result<Scheme, Fail> {
    let nodes = small_nodes(alloc)?;
    let supply = small_supply(alloc, third)?;
    let flows = small_flows(alloc)?;
    let made = Scheme::new(alloc, 2, nodes, supply, flows)?;
    Ok(made.ok_or("not a valid scheme")?)
}

#[test]
fn text_of_a_scheme(rt: HostRuntime) -> Result<(), Fail> {
    let third = read_amount(b"-1/3").ok_or("no amount")?;
    let scheme = small_scheme(rt.alloc(), third)?;
    let text = scheme_text(rt.alloc(), &scheme)?;
    let want =
        "netplan,1\nperiods,2\nnode,\"a,b\"\nnode,\"c\"\"d\"\nsupply,\"c\"\"d\",1,-1/3\nsupply,\"a,b\",2,4\narc,\"x,y\",\"a,b\",\"c\"\"d\",2,-1,inf,0\nhold,h,\"a,b\",1,0,5,-7\ndrain,z,\"c\"\"d\",0,10,1\npiece,z,2,3\npiece,z,inf,3\nend\n";
    assert!(rt; text.as_slice() == want.as_bytes(), "{text:?}");
    Ok(())
}
