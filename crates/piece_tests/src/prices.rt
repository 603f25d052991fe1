//! Prices and candidates on small networks, with values worked out by hand.

ghost use Rattle.std.specs.Prelude.{◌≡◌, ◌<ℤ◌, ◌≤ℤ◌, ◌≤◌, pos, length, IfOk};
ghost use Rattle.std.specs.List.{All};
ghost use Rattle.np_model.specs.Network.Arcs.{AreNodes, IsGaining};
ghost use Rattle.np_model.specs.Network.Nets.{IsSoundArc};
ghost use Rattle.np_model.specs.Basis.Phases.{real_arcs};

use arc_pricing::{PriceRefusal, candidates, eligible, price};
use np_frac::{Frac, Memory, Op, Past};
use np_model::{
    Ends, EndsList, Fracs, FullNet, Mark, Net, NetArc, NetArcs, Nums, Overflow, Phase, Place, Row,
    Upper,
};
use std::alloc::Global;
use std::test::Fail;

// The link from A to B.
#[tactic(auto, using(np_frac::proofs::Field::whole_above))]
fn there(gain: i64) -> Ends
    requires { pos 0 <ℤ gain }
    ensures joins { AreNodes 2 result }
    ensures gains { IsGaining result }
{
    Ends::Link {
        from: 0,
        to: 1,
        gain: Frac::whole(gain),
    }
}

// The link from B to A, with the gain 1.
#[tactic(auto, using(np_frac::proofs::Field::whole_above))]
fn back() -> Ends
    ensures joins { AreNodes 2 result }
    ensures gains { IsGaining result }
{
    Ends::Link {
        from: 1,
        to: 0,
        gain: Frac::whole(1),
    }
}

// An arc of A and B from 0 up to a bound.
#[tactic(auto, using(np_frac::proofs::Field::whole_at_least))]
fn arc(ends: Ends, most: i64, cost: Frac) -> NetArc
    requires joins { AreNodes 2 ends }
    requires gains { IsGaining ends }
    requires bounds { pos 0 ≤ℤ most }
    ensures { IsSoundArc 2 result }
{
    NetArc {
        ends,
        lower: Frac::whole(0),
        upper: Upper::Finite(Frac::whole(most)),
        cost,
    }
}

// The network of A (0) and B (1) with these supplies and arcs, and with a feed and a drain.
fn network(alloc: Global, supply: &[Frac], arcs: &[NetArc]) -> Result<FullNet, Memory>
    requires two { length supply.now ≡ 2 }
    requires few { length arcs.now ≤ 100000 }
    requires sound { All (IsSoundArc 2) arcs.now }
    ensures nodes { IfOk result (λ full. length full.net.supply ≡ 2) }
    ensures arcs { IfOk result (λ full. real_arcs full ≡ length arcs.now) }
{
    let supply = Vec::from_slice(alloc, supply)?;
    let arcs = Vec::from_slice(alloc, arcs)?;
    let artificial = Vec::from_slice(alloc, &[Ends::Feed(0), Ends::Drain(1)])?;
    Ok(FullNet {
        net: Net {
            supply: Fracs { items: supply },
            arcs: NetArcs { items: arcs },
        },
        artificial: EndsList { items: artificial },
    })
}

// Whether the answer is this list.
fn is_list(answer: &Result<Nums, PriceRefusal>, expected: &[u32]) -> bool {
    match answer {
        Ok(list) => list.as_slice() == expected,
        Err(_) => false,
    }
}

// An overflow of row A2 at the arc.
fn overflow(arc: u32, op: Op, left: Frac, right: Frac) -> Overflow {
    Overflow {
        row: Row::A2,
        place: Place::Arc(arc),
        past: Past { op, left, right },
    }
}

// Whether the answer is this overflow.
fn is_past(answer: &Result<Nums, PriceRefusal>, expected: Overflow) -> bool {
    match answer {
        Ok(_) => false,
        Err(refusal) => *refusal == PriceRefusal::Past(expected),
    }
}

// A power of two, or 0 where it is above 2^126.
fn power(exponent: u32) -> Frac {
    if exponent > 126 {
        return Frac::whole(0);
    }
    match Frac::new(1 << exponent, 1) {
        Some(value) => value,
        None => Frac::whole(0),
    }
}

// Two links in stage one, where arcs cost nothing: with the potentials -1 and 1 the one there has the price 0 - (-1) + 2 * 1 = 3, and the
// one back 0 - 1 + (-1) = -2. The artificial feed has 1 + (-1) = 0, and the drain 1 - 1 = 0.
#[test]
fn stage_one(rt: HostRuntime) -> Result<(), Fail> {
    let (one, low) = (Frac::whole(1), Frac::whole(-1));
    let arcs = [arc(there(2), 9, one), arc(back(), 9, one)];
    let full = network(rt.alloc(), &[low, Frac::whole(0)], &arcs)?;
    assert!(rt; price(&full, Phase::One, 0, low, one) == Ok(Frac::whole(3)));
    assert!(rt; price(&full, Phase::One, 1, one, low) == Ok(Frac::whole(-2)));
    assert!(rt; price(&full, Phase::One, 2, low, low) == Ok(Frac::whole(0)));
    assert!(rt; price(&full, Phase::One, 3, one, one) == Ok(Frac::whole(0)));
    let marks = [Mark::Lower, Mark::Lower];
    let listed = candidates(&rt, rt.alloc(), &full, Phase::One, &[low, one], &marks, 0);
    assert!(rt; is_list(&listed, &[1]));
    Ok(())
}

// The artificial arcs cost nothing in stage two: the feed has 0 + 5 = 5, and the drain 0 - 7 = -7. The link there has
// 3 - 5 + 2 * 7 = 12.
#[test]
fn stage_two(rt: HostRuntime) -> Result<(), Fail> {
    let (first, second) = (Frac::whole(5), Frac::whole(7));
    let arcs = [arc(there(2), 9, Frac::whole(3))];
    let full = network(rt.alloc(), &[first, second], &arcs)?;
    assert!(rt; price(&full, Phase::Two, 0, first, second) == Ok(Frac::whole(12)));
    assert!(rt; price(&full, Phase::Two, 1, first, first) == Ok(first));
    assert!(rt; price(&full, Phase::Two, 2, second, second) == Ok(Frac::whole(-7)));
    Ok(())
}

// The product of gain and potential comes first, then the cost less the potential at the tail, and then their sum.
#[test]
fn prices_overflow(rt: HostRuntime) -> Result<(), Fail> {
    let (two, big) = (Frac::whole(2), power(126));
    let arcs = [arc(there(2), 9, big)];
    let full = network(rt.alloc(), &[two, two], &arcs)?;
    let low = big.negated();
    let product = overflow(0, Op::Times, two, big);
    assert!(rt; price(&full, Phase::Two, 0, low, big) == Err(product));
    let difference = overflow(0, Op::Minus, big, low);
    assert!(rt; price(&full, Phase::Two, 0, low, two) == Err(difference));
    let sum = overflow(0, Op::Plus, big, big);
    assert!(rt; price(&full, Phase::Two, 0, Frac::whole(0), power(125)) == Err(sum));
    Ok(())
}

// Arc 0 is open, arc 1 fixed at 0, and arcs 2 and 3 are artificial.
#[test]
fn eligible_arcs(rt: HostRuntime) -> Result<(), Fail> {
    let (above, below, zero) = (Frac::whole(1), Frac::whole(-1), Frac::whole(0));
    let arcs = [arc(there(2), 9, above), arc(back(), 0, above)];
    let full = network(rt.alloc(), &[zero, zero], &arcs)?;
    assert!(rt; eligible(&full, 0, Mark::Lower, below) && eligible(&full, 0, Mark::Upper, above));
    assert!(rt; !eligible(&full, 0, Mark::Lower, above) && !eligible(&full, 0, Mark::Upper, below));
    assert!(rt; !eligible(&full, 0, Mark::Lower, zero) && !eligible(&full, 0, Mark::Upper, zero));
    assert!(rt; !eligible(&full, 0, Mark::Basic, below) && !eligible(&full, 0, Mark::Basic, above));
    assert!(rt; !eligible(&full, 1, Mark::Lower, below) && !eligible(&full, 1, Mark::Upper, above));
    assert!(rt; !eligible(&full, 2, Mark::Lower, below) && !eligible(&full, 3, Mark::Upper, above));
    Ok(())
}

// Five arcs, of which the last is fixed at 0.
fn five_arcs(alloc: Global, link_cost: Frac, feed_cost: Frac) -> Result<FullNet, Memory>
    ensures nodes { IfOk result (λ full. length full.net.supply ≡ 2) }
    ensures arcs { IfOk result (λ full. real_arcs full ≡ 5) }
{
    let zero = Frac::whole(0);
    let arcs = [
        arc(there(2), 9, link_cost),
        arc(back(), 9, Frac::whole(5)),
        arc(Ends::Drain(0), 9, Frac::whole(1)),
        arc(Ends::Feed(1), 9, feed_cost),
        arc(there(2), 0, link_cost),
    ];
    network(alloc, &[zero, zero], &arcs)
}

// With the potentials 1 and 2 the prices are -10 - 1 + 2 * 2 = -7, 5 - 2 + 1 = 4, 1 - 1 = 0, -3 + 2 = -1, and -7 once more on the fixed
// arc. Arc 1 is at its upper bound.
#[test]
fn cyclic_order(rt: HostRuntime) -> Result<(), Fail> {
    let full = five_arcs(rt.alloc(), Frac::whole(-10), Frac::whole(-3))?;
    let potentials = [Frac::whole(1), Frac::whole(2)];
    let marks = [
        Mark::Lower,
        Mark::Upper,
        Mark::Lower,
        Mark::Lower,
        Mark::Lower,
    ];
    let first = candidates(&rt, rt.alloc(), &full, Phase::Two, &potentials, &marks, 0);
    assert!(rt; is_list(&first, &[0, 1, 3]));
    let middle = candidates(&rt, rt.alloc(), &full, Phase::Two, &potentials, &marks, 2);
    assert!(rt; is_list(&middle, &[3, 0, 1]));
    let last = candidates(&rt, rt.alloc(), &full, Phase::Two, &potentials, &marks, 4);
    assert!(rt; is_list(&last, &[0, 1, 3]));
    Ok(())
}

// The marks decide: at the other bounds, or in the basis, none of these arcs may enter.
#[test]
fn none_may_enter(rt: HostRuntime) -> Result<(), Fail> {
    let full = five_arcs(rt.alloc(), Frac::whole(-10), Frac::whole(-3))?;
    let potentials = [Frac::whole(1), Frac::whole(2)];
    let marks = [
        Mark::Upper,
        Mark::Lower,
        Mark::Basic,
        Mark::Basic,
        Mark::Upper,
    ];
    let listed = candidates(&rt, rt.alloc(), &full, Phase::Two, &potentials, &marks, 3);
    assert!(rt; is_list(&listed, &[]));
    Ok(())
}

// At B stands 2^126. The price of arc 0 and of the fixed arc 4 would have the product 2 * 2^126, that of arc 3 the sum 2^126 + 2^126; of
// arc 1 it is 5 - 2^126 + 1. From 1 on arc 3 is the first, and from 4 on arc 0, since the fixed arc is not priced.
#[test]
fn first_overflow(rt: HostRuntime) -> Result<(), Fail> {
    let big = power(126);
    let full = five_arcs(rt.alloc(), Frac::whole(0), big)?;
    let potentials = [Frac::whole(1), big];
    let marks = [
        Mark::Lower,
        Mark::Lower,
        Mark::Lower,
        Mark::Lower,
        Mark::Lower,
    ];
    let third = candidates(&rt, rt.alloc(), &full, Phase::Two, &potentials, &marks, 1);
    assert!(rt; is_past(&third, overflow(3, Op::Plus, big, big)));
    let wrapped = candidates(&rt, rt.alloc(), &full, Phase::Two, &potentials, &marks, 4);
    assert!(rt; is_past(&wrapped, overflow(0, Op::Times, Frac::whole(2), big)));
    Ok(())
}

// The same with arcs 0 and 3 in the basis: they are not priced.
#[test]
fn basic_arcs_are_not_priced(rt: HostRuntime) -> Result<(), Fail> {
    let big = power(126);
    let full = five_arcs(rt.alloc(), Frac::whole(0), big)?;
    let marks = [
        Mark::Basic,
        Mark::Lower,
        Mark::Lower,
        Mark::Basic,
        Mark::Lower,
    ];
    let potentials = [Frac::whole(1), big];
    let listed = candidates(&rt, rt.alloc(), &full, Phase::Two, &potentials, &marks, 2);
    assert!(rt; is_list(&listed, &[1]));
    Ok(())
}

// With no real arcs the list is empty, wherever it begins.
#[test]
fn no_arcs(rt: HostRuntime) -> Result<(), Fail> {
    let zero = Frac::whole(0);
    let full = network(rt.alloc(), &[zero, zero], &[])?;
    let listed = candidates(&rt, rt.alloc(), &full, Phase::One, &[zero, zero], &[], 7);
    assert!(rt; is_list(&listed, &[]));
    Ok(())
}
