//! Ratio tests on two nodes, with values worked out by hand.

ghost use Rattle.std.specs.Prelude.{◌≡◌, ◌≢◌, ◌&&◌, ◌||◌, not, true, ◌∷◌, [], IfOk};
ghost use Rattle.np_frac.specs.Ratio.{zero_ratio, one_ratio, is_below};
ghost use Rattle.np_model.specs.declared.arc.Ends.TheVariants.{Link as LinkEnds, Drain as DrainEnds, Feed as FeedEnds};
ghost use Rattle.np_model.specs.declared.log.Mark.TheVariants as TheMark;
ghost use Rattle.np_model.specs.Network.Arcs.{IsAtMost, IsFinite, is_at_most};
ghost use Rattle.np_basis.specs.PivotLaws.{unit_of};

use np_frac::{Frac, Memory, Op, Past};
use np_model::{
    Direction, Ends, EndsList, Fracs, FullNet, Mark, Net, NetArc, NetArcs, Overflow, Phase, Piece,
    Place, Row, Steps, Upper,
};
use ratio_test::{RatioAnswer, ratio};
use std::alloc::Global;
use std::test::Fail;

// A node alone with its basic arc, which has one end, and the marks of two more arcs that touch it.
#[derive(Debug, Drop)]
struct Alone {
    node: u32,
    arc: u32,
    ends: Ends,
    flow: Frac,
    first: (u32, Mark),
    second: (u32, Mark),
}

impl Piece for Alone {
    ghost use Rattle.std.specs.Prelude.{◌∷◌, []};
    ghost use Rattle.np_frac.specs.Ratio.{zero_ratio};

    ghost lists = { λ p. record {
      nodes = (p.node, zero_ratio) ∷ [];
      basics = (p.arc, p.ends, p.flow) ∷ [];
      marks = p.first ∷ p.second ∷ [];
    } };

    fn least(&self) -> u32 {
        self.node
    }

    fn size(&self) -> u32 {
        1
    }

    fn node_at(&self, _place: u32) -> u32 {
        self.node
    }

    fn contains(&self, node: u32) -> bool {
        node == self.node
    }

    fn potential_of(&self, _node: u32) -> Frac {
        Frac::whole(0)
    }

    fn mark_of(&self, arc: u32) -> Mark {
        if arc == self.arc {
            Mark::Basic
        } else if arc == self.first.0 {
            self.first.1
        } else {
            self.second.1
        }
    }

    fn flow_of(&self, _arc: u32) -> Frac {
        self.flow
    }
}

// A basic arc from 0 up to a bound: its flow, and its amount of the direction.
#[derive(Debug, Drop)]
struct BasicArc {
    upper: Upper,
    flow: Frac,
    amount: Frac,
}

// The entering arc from 0 up to a bound: its mark, and whether its flow grows.
#[derive(Debug, Drop)]
struct Entering {
    upper: Upper,
    mark: Mark,
    up: bool,
}

// Whether there are amounts from 0 up to the bound, and the mark is that of a bound.
fn may_enter(arc: &Entering) -> bool
    ensures bounds { result ≡ true → IsAtMost zero_ratio arc.now.upper }
    ensures not_basic { result ≡ true → arc.now.mark ≢ TheMark.Basic }
    ensures finite { result ≡ true → arc.now.mark ≡ TheMark.Upper → IsFinite arc.now.upper }
{
    if !arc.upper.is_at_least(Frac::whole(0)) {
        return false;
    }
    match arc.mark {
        Mark::Lower => true,
        Mark::Upper => arc.upper.is_finite(),
        Mark::Basic => false,
    }
}

// An arc from 0 up to a bound.
fn arc(ends: Ends, upper: Upper) -> NetArc
    ensures { result ≡ record { ends = ends; lower = zero_ratio; upper = upper; cost = zero_ratio } }
{
    NetArc {
        ends,
        lower: Frac::whole(0),
        upper,
        cost: Frac::whole(0),
    }
}

// Node 0 with the feed.
fn first_node(flow: Frac, link: Mark) -> Alone
    ensures { result ≡ record { node = 0; arc = 0; ends = FeedEnds 0; flow = flow; first = (2, link); second = (3, TheMark.Lower) } }
{
    Alone {
        node: 0,
        arc: 0,
        ends: Ends::Feed(0),
        flow,
        first: (2, link),
        second: (3, Mark::Lower),
    }
}

// Node 1 with the drain.
fn second_node(flow: Frac, link: Mark) -> Alone
    ensures { result ≡ record { node = 1; arc = 1; ends = DrainEnds 1; flow = flow; first = (2, link); second = (4, TheMark.Lower) } }
{
    Alone {
        node: 1,
        arc: 1,
        ends: Ends::Drain(1),
        flow,
        first: (2, link),
        second: (4, Mark::Lower),
    }
}

// Whether the flow keeps its bounds and the amount is not 0.
fn is_allowed(arc: &BasicArc) -> bool
    ensures { result ≡ (not (is_below arc.now.flow zero_ratio) && is_at_most arc.now.flow arc.now.upper && (is_below arc.now.amount zero_ratio || is_below zero_ratio arc.now.amount)) }
{
    let zero = Frac::whole(0);
    !arc.flow.is_below(zero)
        && arc.upper.is_at_least(arc.flow)
        && (arc.amount.is_below(zero) || zero.is_below(arc.amount))
}

// A node alone with this basic arc, and arcs 0 and 1 at their lower bounds.
fn node_alone(node: u32, arc: u32, ends: Ends, flow: Frac) -> Alone
    ensures { result ≡ record { node = node; arc = arc; ends = ends; flow = flow; first = (0, TheMark.Lower); second = (1, TheMark.Lower) } }
{
    Alone {
        node,
        arc,
        ends,
        flow,
        first: (0, Mark::Lower),
        second: (1, Mark::Lower),
    }
}

// The amount of the entering arc.
fn unit(up: bool) -> Frac
    ensures { result ≡ unit_of up }
{
    if up {
        Frac::whole(1)
    } else {
        Frac::whole(1).negated()
    }
}

// The direction in which the link enters.
fn entering_link(alloc: Global, feed: Frac, drain: Frac, up: bool) -> Result<Direction, Memory>
    ensures enter { IfOk result (λ made. made.enter ≡ 2) }
    ensures up { IfOk result (λ made. made.up ≡ up) }
    ensures steps { IfOk result (λ made. made.steps ≡ (0, feed) ∷ (1, drain) ∷ (2, unit_of up) ∷ []) }
{
    let steps = Vec::from_slice(alloc, &[(0, feed), (1, drain), (2, unit(up))])?;
    Ok(Direction {
        enter: 2,
        up,
        steps: Steps { items: steps },
    })
}

// The link from node 0 to node 1.
fn there() -> Ends
    ensures { result ≡ LinkEnds 0 1 one_ratio }
{
    Ends::Link {
        from: 0,
        to: 1,
        gain: Frac::whole(1),
    }
}

// The ratio test of the link, in a network with a feed (0) at node 0, a drain (1) at node 1, the link (2) from 0 to 1, and two artificial
// drains (3 and 4).
fn asked(
    alloc: Global,
    feed: &BasicArc,
    drain: &BasicArc,
    link: &Entering,
) -> Result<Result<RatioAnswer, Overflow>, Memory> {
    let zero = Frac::whole(0);
    if !is_allowed(feed) || !is_allowed(drain) || !may_enter(link) {
        return Err(Memory);
    }
    let supply = Vec::from_slice(alloc, &[zero, zero])?;
    let arcs = Vec::from_slice(
        alloc,
        &[
            arc(Ends::Feed(0), feed.upper),
            arc(Ends::Drain(1), drain.upper),
            arc(there(), link.upper),
        ],
    )?;
    let artificial = Vec::from_slice(alloc, &[Ends::Drain(0), Ends::Drain(1)])?;
    let full = FullNet {
        net: Net {
            supply: Fracs { items: supply },
            arcs: NetArcs { items: arcs },
        },
        artificial: EndsList { items: artificial },
    };
    let first = first_node(feed.flow, link.mark);
    let second = second_node(drain.flow, link.mark);
    let direction = entering_link(alloc, feed.amount, drain.amount, link.up)?;
    Ok(ratio(&full, Phase::Two, &first, Some(&second), &direction))
}

// The start of stage one where node 0 needs 1: the links there (0) with the gain 2 and back (1) stand at 0, and each node stands alone with its
// artificial arc, a feed (2) that brings 1 and a drain (3) that carries nothing. The link back enters. (Potentials are not asked for.)
fn start_of_stage_one(alloc: Global) -> Result<Result<RatioAnswer, Overflow>, Memory> {
    let (one, zero) = (Frac::whole(1), Frac::whole(0));
    let supply = Vec::from_slice(alloc, &[zero, zero])?;
    let there = Ends::Link {
        from: 0,
        to: 1,
        gain: Frac::whole(2),
    };
    let back = Ends::Link {
        from: 1,
        to: 0,
        gain: one,
    };
    let arcs = Vec::from_slice(
        alloc,
        &[arc(there, Upper::Infinite), arc(back, Upper::Infinite)],
    )?;
    let artificial = Vec::from_slice(alloc, &[Ends::Feed(0), Ends::Drain(1)])?;
    let full = FullNet {
        net: Net {
            supply: Fracs { items: supply },
            arcs: NetArcs { items: arcs },
        },
        artificial: EndsList { items: artificial },
    };
    let first = node_alone(0, 2, Ends::Feed(0), one);
    let second = node_alone(1, 3, Ends::Drain(1), zero);
    let down = unit(false);
    let steps = Vec::from_slice(alloc, &[(1, unit(true)), (2, down), (3, down)])?;
    let direction = Direction {
        enter: 1,
        up: true,
        steps: Steps { items: steps },
    };
    Ok(ratio(&full, Phase::One, &first, Some(&second), &direction))
}

// The feed can go down by 1, and the drain not at all.
#[test]
fn first_pivot(rt: HostRuntime) -> Result<(), Fail> {
    let answer = start_of_stage_one(rt.alloc())?;
    assert!(rt; answer == leaves(3, Mark::Lower, 0));
    Ok(())
}

// A drain (0), a feed (1) and an artificial drain (2) at one node, which is the only piece. The feed enters upwards.
fn one_piece(
    alloc: Global,
    drain: &BasicArc,
    feed: &Upper,
) -> Result<Result<RatioAnswer, Overflow>, Memory> {
    let zero = Frac::whole(0);
    if !is_allowed(drain) || !feed.is_at_least(zero) {
        return Err(Memory);
    }
    let supply = Vec::from_slice(alloc, &[zero])?;
    let arcs = Vec::from_slice(
        alloc,
        &[arc(Ends::Drain(0), drain.upper), arc(Ends::Feed(0), *feed)],
    )?;
    let artificial = Vec::from_slice(alloc, &[Ends::Drain(0)])?;
    let full = FullNet {
        net: Net {
            supply: Fracs { items: supply },
            arcs: NetArcs { items: arcs },
        },
        artificial: EndsList { items: artificial },
    };
    let piece = Alone {
        node: 0,
        arc: 0,
        ends: Ends::Drain(0),
        flow: drain.flow,
        first: (1, Mark::Lower),
        second: (2, Mark::Lower),
    };
    let steps = Vec::from_slice(alloc, &[(0, drain.amount), (1, unit(true))])?;
    let direction = Direction {
        enter: 1,
        up: true,
        steps: Steps { items: steps },
    };
    Ok(ratio(&full, Phase::Two, &piece, None, &direction))
}

// (10 - 4) / 2 = 3 lets the drain go furthest, where the feed could go 5.
#[test]
fn a_piece_alone(rt: HostRuntime) -> Result<(), Fail> {
    let drain = whole_arc(up_to(10), 4, 2);
    let upper = one_piece(rt.alloc(), &drain, &up_to(5))?;
    assert!(rt; upper == leaves(0, Mark::Upper, 3));
    let flip = one_piece(rt.alloc(), &drain, &up_to(2))?;
    assert!(rt; flip == flips(2));
    Ok(())
}

fn up_to(most: i64) -> Upper {
    Upper::Finite(Frac::whole(most))
}

fn whole_arc(upper: Upper, flow: i64, amount: i64) -> BasicArc {
    BasicArc {
        upper,
        flow: Frac::whole(flow),
        amount: Frac::whole(amount),
    }
}

// The link enters upwards.
fn upwards(upper: Upper) -> Entering {
    Entering {
        upper,
        mark: Mark::Lower,
        up: true,
    }
}

// The link enters downwards from its upper bound.
fn downwards(most: i64) -> Entering {
    Entering {
        upper: up_to(most),
        mark: Mark::Upper,
        up: false,
    }
}

fn leaves(arc: u32, leave_at: Mark, step: i64) -> Result<RatioAnswer, Overflow> {
    Ok(RatioAnswer::Leave {
        arc,
        leave_at,
        step: Frac::whole(step),
    })
}

fn flips(step: i64) -> Result<RatioAnswer, Overflow> {
    Ok(RatioAnswer::Flip(Frac::whole(step)))
}

// (10 - 4) / 2 = 3 lets the feed go furthest, and (6 - 0) / 3 = 2 the drain.
#[test]
fn bounds_of_basic_arcs(rt: HostRuntime) -> Result<(), Fail> {
    let feed = whole_arc(up_to(10), 4, 2);
    let free = whole_arc(Upper::Infinite, 0, 1);
    let upper = asked(rt.alloc(), &feed, &free, &upwards(Upper::Infinite))?;
    assert!(rt; upper == leaves(0, Mark::Upper, 3));
    let drain = whole_arc(Upper::Infinite, 6, -3);
    let lower = asked(rt.alloc(), &feed, &drain, &upwards(up_to(5)))?;
    assert!(rt; lower == leaves(1, Mark::Lower, 2));
    Ok(())
}

// The link goes to its bound 1 or 2, where the drain can go 2. Both stop at 2: then the link flips.
#[test]
fn flips_of_the_link(rt: HostRuntime) -> Result<(), Fail> {
    let feed = whole_arc(up_to(10), 4, 2);
    let drain = whole_arc(Upper::Infinite, 6, -3);
    let alone = asked(rt.alloc(), &feed, &drain, &upwards(up_to(1)))?;
    assert!(rt; alone == flips(1));
    let tie = asked(rt.alloc(), &feed, &drain, &upwards(up_to(2)))?;
    assert!(rt; tie == flips(2));
    Ok(())
}

// (10 - 4) / 3 = 2 and (6 - 0) / 3 = 2: of the two the feed has the lesser number. From 5 down the link can go 5.
#[test]
fn ties_and_falls(rt: HostRuntime) -> Result<(), Fail> {
    let feed = whole_arc(up_to(10), 4, 3);
    let drain = whole_arc(Upper::Infinite, 6, -3);
    let tie = asked(rt.alloc(), &feed, &drain, &upwards(Upper::Infinite))?;
    assert!(rt; tie == leaves(0, Mark::Upper, 2));
    let falling = whole_arc(up_to(10), 4, -1);
    let free = whole_arc(Upper::Infinite, 0, 1);
    let lower = asked(rt.alloc(), &falling, &free, &downwards(5))?;
    assert!(rt; lower == leaves(0, Mark::Lower, 4));
    let flip = asked(rt.alloc(), &free, &free, &downwards(5))?;
    assert!(rt; flip == flips(5));
    Ok(())
}

// All flows grow without a bound.
#[test]
fn rays(rt: HostRuntime) -> Result<(), Fail> {
    let feed = whole_arc(Upper::Infinite, 4, 1);
    let drain = whole_arc(Upper::Infinite, 0, 2);
    let free = asked(rt.alloc(), &feed, &drain, &upwards(Upper::Infinite))?;
    assert!(rt; free == Ok(RatioAnswer::Ray));
    Ok(())
}

// A fraction of whole numbers, or 0 where it is none.
fn over(num: i128, den: i128) -> Frac {
    match Frac::new(num, den) {
        Some(value) => value,
        None => Frac::whole(0),
    }
}

// An overflow of row A5 at the link.
fn overflows(op: Op, left: Frac, right: Frac) -> Result<RatioAnswer, Overflow> {
    Err(Overflow {
        row: Row::A5,
        place: Place::Arc(2),
        past: Past { op, left, right },
    })
}

// The room of 1/2^64 less 1/3^50 would have the denominator 2^64 * 3^50, and 2^126 over 1/4 is 2^128. Where the feed
// cannot go at all, the quotient of the drain is still made.
#[test]
fn first_overflow(rt: HostRuntime) -> Result<(), Fail> {
    let (small, less) = (over(1, 1 << 64), over(1, 717_897_987_691_852_588_770_249));
    let (quarter, big) = (over(1, 4), over(1 << 126, 1));
    let feed = BasicArc {
        upper: Upper::Finite(small),
        flow: less,
        amount: Frac::whole(1),
    };
    let drain = BasicArc {
        upper: Upper::Finite(big),
        flow: Frac::whole(0),
        amount: quarter,
    };
    let first = asked(rt.alloc(), &feed, &drain, &upwards(Upper::Infinite))?;
    assert!(rt; first == overflows(Op::Minus, small, less));
    let stopped = whole_arc(up_to(4), 4, 2);
    let second = asked(rt.alloc(), &stopped, &drain, &upwards(Upper::Infinite))?;
    assert!(rt; second == overflows(Op::Over, big, quarter));
    Ok(())
}
