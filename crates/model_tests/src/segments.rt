//! Tests of the arcs of segments, and of what flows over them.

ghost use Rattle.std.specs.Prelude.{◌≡◌, IfOk, length};
ghost use Rattle.convex_arcs.specs.Segments.{flat_arcs};

use convex_arcs::{GatherRefusal, flatten, gather};
use np_frac::{Frac, Memory, Op, Past};
use np_model::{Band, Bands, Ends, Fracs, NetArc, Upper};
use period_expand::{Expanded, Staged, Stageds};
use std::alloc::Global;
use std::test::Fail;

// From 0 to 1 at gain 1.
fn link() -> Ends {
    Ends::Link {
        from: 0,
        to: 1,
        gain: Frac::whole(1),
    }
}

// A link from 0 to 10 at 1 a unit, 5 more at 3, and what is beyond at 4.
fn two_nodes(alloc: Global) -> Result<Expanded, Memory>
    ensures { IfOk result (λ expanded. length (flat_arcs expanded.staged) ≡ 3) }
{
    let near = Band {
        width: Upper::Finite(Frac::whole(5)),
        slope: Frac::whole(3),
    };
    let far = Band {
        width: Upper::Infinite,
        slope: Frac::whole(4),
    };
    let mut items = Vec::new(alloc);
    items.push(Staged {
        flow: 0,
        period: 1,
        ends: Ends::Link {
            from: 0,
            to: 1,
            gain: Frac::whole(1),
        },
        lower: Frac::whole(0),
        upper: Upper::Finite(Frac::whole(10)),
        cost: Frac::whole(1),
        bands: Bands {
            items: Vec::from_slice(alloc, &[near, far])?,
        },
    })?;
    Ok(Expanded {
        supply: Fracs {
            items: Vec::from_slice(alloc, &[Frac::whole(12), Frac::whole(-12)])?,
        },
        staged: Stageds { items },
    })
}

#[test]
fn segments(rt: HostRuntime) -> Result<(), Fail> {
    let net = flatten(rt.alloc(), &two_nodes(rt.alloc())?)?;
    assert!(rt; net.supply.as_slice() == [Frac::whole(12), Frac::whole(-12)].as_slice());
    let first = NetArc {
        ends: link(),
        lower: Frac::whole(0),
        upper: Upper::Finite(Frac::whole(10)),
        cost: Frac::whole(1),
    };
    let second = NetArc {
        ends: link(),
        lower: Frac::whole(0),
        upper: Upper::Finite(Frac::whole(5)),
        cost: Frac::whole(3),
    };
    let third = NetArc {
        ends: link(),
        lower: Frac::whole(0),
        upper: Upper::Infinite,
        cost: Frac::whole(4),
    };
    assert!(rt; net.arcs.as_slice() == [first, second, third].as_slice());
    Ok(())
}

#[test]
fn amounts(rt: HostRuntime) -> Result<(), Fail> {
    let expanded = two_nodes(rt.alloc())?;
    let half = Frac::new(1, 2).ok_or("not a fraction")?;
    let third = Frac::new(1, 3).ok_or("not a fraction")?;
    let sixth = Frac::new(1, 6).ok_or("not a fraction")?;
    match gather(rt.alloc(), &expanded, &[half, third, sixth]) {
        Ok(amounts) => assert!(rt; amounts.as_slice() == [Frac::whole(1)].as_slice()),
        Err(_) => return Err(Fail::from("refused")),
    }
    let most = Frac::new(i128::MAX, 1).ok_or("not a fraction")?;
    let (one, none) = (Frac::whole(1), Frac::whole(0));
    let past = Past {
        op: Op::Plus,
        left: most,
        right: one,
    };
    let found = gather(rt.alloc(), &expanded, &[most, one, none]).err();
    assert!(rt; found == Some(GatherRefusal::Past(past)));
    Ok(())
}
