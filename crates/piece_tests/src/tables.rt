//! Passes of one table, in one thread and in four.

ghost use Rattle.std.specs.Prelude.{◌≡◌, ◌+◌, ◌^◌, ◌<◌, ◌≤◌, [], length, IfOk};
ghost use Rattle.std.specs.Thread.{IsSync};
ghost use Rattle.piece_tests.specs.Passes.{IsVisitor, HasDrain, artificial_opening};
ghost use Rattle.tree_table.specs.Passes.{first_view};
ghost use Rattle.tree_table.specs.Calls.{IsOf};

use np_basis::laws::{examples, pivots};
use np_frac::{Frac, Memory};
use np_model::{
    Ends, EndsList, Entry, Fracs, FullNet, Hands, Mark, Net, NetArc, NetArcs, Phase, Piece, Upper,
};
use std::alloc::{AllocError, Global};
use std::test::Fail;
use std::thread::{Threads, join};
use tree_table::{Pass, Taken, TakenTwo, TreeTable};

// A node alone with a drain of the same number.
#[derive(Debug, Drop)]
struct Alone {
    node: u32,
}

impl Piece for Alone {
    ghost use Rattle.std.specs.Prelude.{◌∷◌, []};
    ghost use Rattle.np_frac.specs.Ratio.{zero_ratio};
    ghost use Rattle.np_model.specs.declared.arc.Ends.TheVariants.{Drain};

    ghost lists = { λ p. record { nodes = (p.node, zero_ratio) ∷ []; basics = (p.node, Drain p.node, zero_ratio) ∷ []; marks = [] } };

    fn least(&self) -> u32 {
        self.node
    }

    fn size(&self) -> u32 {
        1
    }

    fn node_at(&self, _place: u32) -> u32 {
        self.node
    }

    fn contains(&self, node: u32) -> bool {
        node == self.node
    }

    fn potential_of(&self, _node: u32) -> Frac {
        Frac::whole(0)
    }

    fn mark_of(&self, arc: u32) -> Mark {
        if arc == self.node {
            Mark::Basic
        } else {
            Mark::Lower
        }
    }

    fn flow_of(&self, _arc: u32) -> Frac {
        Frac::whole(0)
    }
}

// Two nodes and no arcs but the artificial ones.
fn two_nodes(alloc: Global) -> Result<FullNet, AllocError>
    ensures { IfOk result (λ full. length full.net.supply ≡ 2) }
{
    let supply = Fracs {
        items: vec![in alloc; Frac::whole(0), Frac::whole(0)]?,
    };
    let arcs = NetArcs {
        items: Vec::new(alloc),
    };
    let artificial = EndsList {
        items: vec![in alloc; Ends::Drain(0), Ends::Drain(1)]?,
    };
    Ok(FullNet {
        net: Net { supply, arcs },
        artificial,
    })
}

// Four nodes and no arcs but the artificial ones.
fn four_nodes(alloc: Global) -> Result<FullNet, AllocError>
    ensures { IfOk result (λ full. length full.net.supply ≡ 4) }
{
    let zero = Frac::whole(0);
    let supply = Fracs {
        items: vec![in alloc; zero, zero, zero, zero]?,
    };
    let arcs = NetArcs {
        items: Vec::new(alloc),
    };
    let artificial = EndsList {
        items: vec![in alloc;
            Ends::Drain(0),
            Ends::Drain(1),
            Ends::Drain(2),
            Ends::Drain(3),
        ]?,
    };
    Ok(FullNet {
        net: Net { supply, arcs },
        artificial,
    })
}

// The node 0 alone, by one of its two drains, which takes 1. The other one stands at its lower bound.
#[derive(Debug, Drop)]
struct Drained {
    potential: Frac,
    arc: u32,
    other: u32,
}

impl Piece for Drained {
    ghost use Rattle.piece_tests.specs.Passes.{drained_by};

    ghost lists = { λ p. drained_by p.potential p.arc p.other };

    fn least(&self) -> u32 {
        0
    }

    fn size(&self) -> u32 {
        1
    }

    fn node_at(&self, _place: u32) -> u32 {
        0
    }

    fn contains(&self, node: u32) -> bool {
        node == 0
    }

    fn potential_of(&self, _node: u32) -> Frac {
        self.potential
    }

    fn mark_of(&self, arc: u32) -> Mark {
        if arc == self.arc {
            Mark::Basic
        } else {
            Mark::Lower
        }
    }

    fn flow_of(&self, _arc: u32) -> Frac {
        Frac::whole(1)
    }
}

// A node of supply 1 with a drain that costs nothing.
fn node_with_drain(alloc: Global) -> Result<FullNet, AllocError>
    ensures { IfOk result (λ full. HasDrain full) }
{
    let supply = Fracs {
        items: vec![in alloc; Frac::whole(1)]?,
    };
    let arcs = NetArcs {
        items: vec![in alloc;
            NetArc {
                ends: Ends::Drain(0),
                lower: Frac::whole(0),
                upper: Upper::Infinite,
                cost: Frac::whole(0)
            },
        ]?,
    };
    let artificial = EndsList {
        items: vec![in alloc; Ends::Drain(0)]?,
    };
    Ok(FullNet {
        net: Net { supply, arcs },
        artificial,
    })
}

// Takes the piece of the artificial drain, and puts that of the other drain in its place.
fn pivot_once(table: &TreeTable<Drained>, pass: &mut Pass<Drained>) -> Option<u64>
    requires table { IsOf table.now pass.old }
    requires view { pass.old.view ≡ first_view artificial_opening }
    requires room { 1 ≤ pass.old.spare }
    ensures { IsOf table.now pass.new × (pass.new.view.hands ≡ []) × (pass.new.view.shares ≡ 64) }
{
    examples();
    pivots();
    match table.take(pass, 0) {
        Taken::Busy { word: _ } => None,
        Taken::Piece(_) => {
            let cheap = Drained {
                potential: Frac::whole(0),
                arc: 0,
                other: 1,
            };
            let entry = Entry {
                enter: 0,
                leave: 1,
                leave_at: Mark::Lower,
            };
            Some(table.commit(pass, Hands::One(cheap), entry))
        }
    }
}

// One pivot: its ticket is 0, and the table gives the piece after it and its entry.
#[test]
fn one_pivot(rt: HostRuntime) -> Result<(), Fail> {
    let full = node_with_drain(rt.alloc())?;
    let dear = Drained {
        potential: Frac::whole(1),
        arc: 1,
        other: 0,
    };
    let pieces = vec![in rt.alloc(); dear]?;
    let Ok((table, mut pass)) = TreeTable::set_up(rt.alloc(), &full, Phase::One, pieces, 1) else {
        panic!(rt; "no memory")
    };
    assert!(rt; pivot_once(&table, &mut pass) == Some(0));
    assert!(rt; pass.hands() == 0 && pass.spare() == 0);
    let closed = table.close(pass);
    assert!(rt; closed.pieces.len() == 1 && closed.entries.items.len() == 1);
    assert!(rt; closed.pieces[0].arc == 0 && closed.pieces[0].other == 1);
    let entry = closed.entries.items[0];
    assert!(rt; entry.enter == 0 && entry.leave == 1 && entry.leave_at == Mark::Lower);
    Ok(())
}

// The shares of a pass, the pieces that it has in hand, and its spare.
fn counts(pass: &Pass<Alone>) -> [u32; 3] {
    [pass.shares(), pass.hands(), pass.spare()]
}

// Two passes of a table of two pieces: what one has in hand the other finds taken.
#[test]
fn two_passes(rt: HostRuntime) -> Result<(), Fail> {
    let full = two_nodes(rt.alloc())?;
    let pieces = vec![in rt.alloc(); Alone { node: 1 }, Alone { node: 0 }]?;
    let Ok((table, mut one)) = TreeTable::set_up(rt.alloc(), &full, Phase::One, pieces, 3) else {
        panic!(rt; "no memory")
    };
    let begun = counts(&one);
    let Ok(mut other) = table.fork(rt.alloc(), &mut one, 2) else {
        panic!(rt; "no memory")
    };
    let (left, forked) = (counts(&one), counts(&other));
    let Taken::Piece(piece) = table.take(&mut one, 1) else {
        panic!(rt; "busy")
    };
    let taken = [piece.node, one.hands()];
    let Taken::Busy { word } = table.take(&mut other, 1) else {
        panic!(rt; "taken twice")
    };
    let TakenTwo::Busy { slot, word: again } = table.take_two(&mut other, 0, 1) else {
        panic!(rt; "taken twice")
    };
    let missed = other.hands();
    table.put_back(&mut one, Hands::One(piece));
    let put_back = one.hands();
    let TakenTwo::Both(first, second) = table.take_two(&mut other, 0, 1) else {
        panic!(rt; "busy")
    };
    let both = [first.node, second.node, other.hands()];
    table.put_back(&mut other, Hands::Two(first, second));
    table.fold(&mut one, other);
    let folded = counts(&one);
    let closed = table.close(one);
    assert!(rt; begun == [64, 0, 3] && left == [32, 0, 3] && forked == [32, 0, 2]);
    assert!(rt; taken == [1, 1] && word == 1 && slot == 1 && again == 1);
    assert!(rt; missed == 0 && put_back == 0 && both == [0, 1, 2] && folded == [64, 0, 3]);
    assert!(rt; closed.pieces.len() == 2 && closed.entries.items.len() == 0);
    assert!(rt; closed.pieces[0].node == 0 && closed.pieces[1].node == 1);
    Ok(())
}

// A slot of no piece is empty.
#[test]
fn empty_slot(rt: HostRuntime) -> Result<(), Fail> {
    let full = two_nodes(rt.alloc())?;
    let pieces = vec![in rt.alloc(); Alone { node: 0 }]?;
    let Ok((table, mut pass)) = TreeTable::set_up(rt.alloc(), &full, Phase::Two, pieces, 0) else {
        panic!(rt; "no memory")
    };
    let Taken::Busy { word } = table.take(&mut pass, 1) else {
        panic!(rt; "no piece has node 1")
    };
    assert!(rt; word == 2);
    let closed = table.close(pass);
    assert!(rt; closed.pieces.len() == 1);
    Ok(())
}

// Takes pieces of these two slots by turns, both or the second one, and puts them back.
fn visit<T: Piece>(
    table: &TreeTable<T>,
    mut pass: Pass<T>,
    first: u32,
    second: u32,
    turns: u32,
) -> Pass<T>
    requires { IsVisitor table.now second pass × (first < second) }
    ensures { IsVisitor table.now second result × (result.view.shares ≡ pass.view.shares) }
{
    for turn in 0..turns {
        if turn % 2 == 0 {
            if let TakenTwo::Both(a, b) = table.take_two(&mut pass, first, second) {
                table.put_back(&mut pass, Hands::Two(a, b));
            }
        } else if let Taken::Piece(piece) = table.take(&mut pass, second) {
            table.put_back(&mut pass, Hands::One(piece));
        }
    }
    pass
}

// Two threads visit two slots each, of which one is common to them. This shows too that any table may be shared, and any pass moved.
fn visit_both<T: Piece, R: Threads + Sync>(
    rt: &R,
    table: &TreeTable<T>,
    one: Pass<T>,
    other: Pass<T>,
    first: u32,
    turns: u32,
) -> Pass<T>
    requires one { IsVisitor table.now (first + 1) one }
    requires other { IsVisitor table.now (first + 2) other }
    requires few { first < 2 ^ 31 }
    ensures { IsVisitor table.now (first + 1) result × (result.view.shares ≡ one.view.shares + other.view.shares) }
{
    let (middle, last) = (first + 1, first + 2);
    let (mut one, other) = join(
        rt,
        || -> Pass<T>
            requires { IsVisitor table.now middle one × (first < middle) }
            ensures { IsVisitor table.entry.now middle result × (result.view.shares ≡ one.view.shares) }
        { visit(table, one, first, middle, turns) },
        || -> Pass<T>
            requires { IsVisitor table.now last other × (middle < last) }
            ensures { IsVisitor table.entry.now last result × (result.view.shares ≡ other.view.shares) }
        { visit(table, other, middle, last, turns) },
    );
    table.fold(&mut one, other);
    one
}

// Four threads visit the slots 0 to 3.
fn visit_by_four<T: Piece, R: Threads + Sync>(
    rt: &R,
    alloc: Global,
    table: &TreeTable<T>,
    mut pass: Pass<T>,
    turns: u32,
) -> Result<Pass<T>, Memory>
    requires { IsVisitor table.now 3 pass × (pass.view.shares ≡ 64) }
    ensures { IfOk result (λ p. IsVisitor table.now 1 p × (p.view.shares ≡ 64)) }
{
    let mut third = table.fork(alloc, &mut pass, 0)?;
    let second = table.fork(alloc, &mut pass, 0)?;
    let fourth = table.fork(alloc, &mut third, 0)?;
    let (mut one, other) = join(
        rt,
        || -> Pass<T>
            requires { IsSync R.row × IsVisitor table.now 1 pass × IsVisitor table.now 2 second × (pass.view.shares ≡ 16) × (second.view.shares ≡ 16) }
            ensures { IsVisitor table.entry.now 1 result × (result.view.shares ≡ 32) }
        { visit_both(rt, table, pass, second, 0, turns) },
        || -> Pass<T>
            requires { IsSync R.row × IsVisitor table.now 2 third × IsVisitor table.now 3 fourth × (third.view.shares ≡ 16) × (fourth.view.shares ≡ 16) }
            ensures { IsVisitor table.entry.now 2 result × (result.view.shares ≡ 32) }
        { visit_both(rt, table, third, fourth, 1, turns) },
    );
    table.fold(&mut one, other);
    Ok(one)
}

// After 100,000 turns in four threads each piece is home.
#[test]
fn four_threads(rt: HostRuntime) -> Result<(), Fail> {
    let full = four_nodes(rt.alloc())?;
    let pieces = vec![in rt.alloc();
        Alone { node: 0 },
        Alone { node: 1 },
        Alone { node: 2 },
        Alone { node: 3 },
    ]?;
    let Ok((table, pass)) = TreeTable::set_up(rt.alloc(), &full, Phase::One, pieces, 0) else {
        panic!(rt; "no memory")
    };
    let Ok(pass) = visit_by_four(&rt, rt.alloc(), &table, pass, 25000) else {
        panic!(rt; "no memory")
    };
    let closed = table.close(pass);
    assert!(rt; closed.pieces.len() == 4 && closed.entries.items.len() == 0);
    assert!(rt; closed.pieces[0].node == 0 && closed.pieces[1].node == 1);
    assert!(rt; closed.pieces[2].node == 2 && closed.pieces[3].node == 3);
    Ok(())
}
