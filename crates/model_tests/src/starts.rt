//! Starts of small networks, with values worked out by hand.

ghost use Rattle.std.specs.Prelude.{◌≡◌, ◌<ℤ◌, ◌≤◌, pos, length};
ghost use Rattle.std.specs.List.{All};
ghost use Rattle.np_model.specs.Network.Arcs.{AreNodes, IsGaining};
ghost use Rattle.np_model.specs.Network.Nets.{IsSoundArc};

use basis_start::{StartRefusal, start};
use np_frac::{Frac, Memory, Op, Past};
use np_model::{Ends, Fracs, Net, NetArc, NetArcs, Overflow, Place, Row, StartBasis, Upper};
use std::alloc::Global;
use std::test::Fail;

// The link from A to B.
#[tactic(auto, using(np_frac::proofs::Field::whole_above))]
fn there(gain: i64) -> Ends
    requires { pos 0 <ℤ gain }
    ensures joins { AreNodes 2 result }
    ensures gains { IsGaining result }
{
    Ends::Link {
        from: 0,
        to: 1,
        gain: Frac::whole(gain),
    }
}

// The link from B to A.
#[tactic(auto, using(np_frac::proofs::Field::whole_above))]
fn back(gain: i64) -> Ends
    requires { pos 0 <ℤ gain }
    ensures joins { AreNodes 2 result }
    ensures gains { IsGaining result }
{
    Ends::Link {
        from: 1,
        to: 0,
        gain: Frac::whole(gain),
    }
}

// An arc of A and B with no upper bound, at 1 a unit.
fn arc(ends: Ends, lower: Frac) -> NetArc
    requires joins { AreNodes 2 ends }
    requires gains { IsGaining ends }
    ensures { IsSoundArc 2 result }
{
    NetArc {
        ends,
        lower,
        upper: Upper::Infinite,
        cost: Frac::whole(1),
    }
}

// The network of A (0) and B (1) with these supplies and arcs.
fn network(alloc: Global, supply: &[Frac], arcs: &[NetArc]) -> Result<Net, Memory>
    requires two { length supply.now ≡ 2 }
    requires few { length arcs.now ≤ 100000 }
    requires sound { All (IsSoundArc 2) arcs.now }
{
    Ok(Net {
        supply: Fracs {
            items: Vec::from_slice(alloc, supply)?,
        },
        arcs: NetArcs {
            items: Vec::from_slice(alloc, arcs)?,
        },
    })
}

fn started(alloc: Global, net: &Net) -> Result<StartBasis, Fail> {
    match start(alloc, net) {
        Ok(basis) => Ok(basis),
        Err(_) => Err(Fail::from("refused")),
    }
}

// A is short of 1: a feed brings it. Nothing is left at B: its drain carries nothing.
#[test]
fn a_need(rt: HostRuntime) -> Result<(), Fail> {
    let (one, none) = (Frac::whole(1), Frac::whole(0));
    let supply = [Frac::whole(-1), none];
    let arcs = [arc(there(2), none), arc(back(1), none)];
    let net = network(rt.alloc(), &supply, &arcs)?;
    let basis = started(rt.alloc(), &net)?;
    assert!(rt; basis.full.net.supply.as_slice() == supply.as_slice());
    assert!(rt; basis.full.net.arcs.as_slice() == arcs.as_slice());
    assert!(rt; basis.full.artificial.as_slice() == [Ends::Feed(0), Ends::Drain(1)].as_slice());
    assert!(rt; basis.flows.as_slice() == [none, none, one, none].as_slice());
    Ok(())
}

// At A 10 - 2 + 2 * 4 - 5 = 11 are left over. At B -12 + 3 * 2 - 4 + 1 = -9: there 9 are missing.
#[test]
fn lower_bounds(rt: HostRuntime) -> Result<(), Fail> {
    let supply = [Frac::whole(10), Frac::whole(-12)];
    let arcs = [
        arc(there(3), Frac::whole(2)),
        arc(back(2), Frac::whole(4)),
        arc(Ends::Drain(0), Frac::whole(5)),
        arc(Ends::Feed(1), Frac::whole(1)),
    ];
    let net = network(rt.alloc(), &supply, &arcs)?;
    let basis = started(rt.alloc(), &net)?;
    assert!(rt; basis.full.artificial.as_slice() == [Ends::Drain(0), Ends::Feed(1)].as_slice());
    let flows = [
        Frac::whole(2),
        Frac::whole(4),
        Frac::whole(5),
        Frac::whole(1),
        Frac::whole(11),
        Frac::whole(9),
    ];
    assert!(rt; basis.flows.as_slice() == flows.as_slice());
    Ok(())
}

// The greatest whole number that fits, times 2 at B, and times 3 and times 4 at A. A is told, since it comes before B, and times 3.
#[test]
fn first_overflow(rt: HostRuntime) -> Result<(), Fail> {
    let most = Frac::new(i128::MAX, 1).ok_or("not a fraction")?;
    let supply = [Frac::whole(0), Frac::whole(0)];
    let arcs = [arc(there(2), most), arc(back(3), most), arc(back(4), most)];
    let net = network(rt.alloc(), &supply, &arcs)?;
    let overflow = Overflow {
        row: Row::A1,
        place: Place::Node(0),
        past: Past {
            op: Op::Times,
            left: Frac::whole(3),
            right: most,
        },
    };
    assert!(rt; start(rt.alloc(), &net).err() == Some(StartRefusal::Past(overflow)));
    Ok(())
}
