//! Two passes of a table take turns in one thread, over the driver's own pieces. The one finds a slot taken while the other has its piece in
//! hand, and finds it empty once that piece is no more, as it was joined to another. In a table of stage two it takes a piece that has lost a
//! node which it had at the opening, and is told which one.

ghost use Rattle.std.specs.Prelude.{◌≡◌, ◌≢◌, ◌≤◌, ◌<◌, ◌+◌, ◌++◌, ◌∷◌, [], length, None, IfOk, OnOk};
ghost use Rattle.std.specs.List.{All};
ghost use Rattle.np_model.specs.Network.Arcs.{AreNodes, IsGaining};
ghost use Rattle.np_model.specs.Network.Nets.{IsSoundArc};
ghost use Rattle.np_model.specs.Basis.Phases.{phase_net, real_arcs};
ghost use Rattle.np_model.specs.Basis.States.{IsState};
ghost use Rattle.np_model.specs.declared.phase.Phase.TheVariants.{One, Two};
ghost use Rattle.tree_table.specs.Calls.{IsOf, Stays};
ghost use Rattle.tree_table.specs.Passes.{IsIdle, slot_count};
ghost use Rattle.pivot_workers.specs.Openings.{NameSlots};
ghost use Rattle.pivot_workers.specs.Work.{IsReady};
ghost use Rattle.simplex_driver.specs.Runs.{IsGood, Goes};
ghost use Rattle.simplex_driver.specs.Store.{state_of, IsKept};

use crate::driver::{Due, turn_if_due};
use crate::forest::Forest;
use crate::rounds::take_pieces;
use crate::solving::read_values;
use basis_start::start;
use np_frac::{Frac, Memory};
use np_model::{
    Ends, Entry, Fracs, FullNet, Hands, Mark, Net, NetArc, NetArcs, Nums, OpenGate, Phase, Piece,
    Prepared, Upper,
};
use np_runs::laws::started;
use pivot_step::TreePivoter;
use pivot_workers::{Attempted, attempt, opening_slots, see};
use quasi_tree::Quasi;
use std::alloc::Global;
use std::test::Fail;
use tree_table::{Closed, Pass, Taken, TreeTable};

// A link with this gain, or a drain where it is not above 0.
fn link(nodes: u32, from: u32, to: u32, gain: Frac) -> Ends
    requires one { from < nodes }
    requires other { to < nodes }
    requires apart { from ≢ to }
    ensures joins { AreNodes nodes result }
    ensures gains { IsGaining result }
{
    if Frac::whole(0).is_below(gain) {
        Ends::Link { from, to, gain }
    } else {
        Ends::Drain(from)
    }
}

// An arc from 0 with no upper bound, in a network of so many nodes.
fn arc(nodes: u32, ends: Ends, cost: i64) -> NetArc
    requires joins { AreNodes nodes ends }
    requires gains { IsGaining ends }
    ensures { IsSoundArc nodes result }
{
    NetArc {
        ends,
        lower: Frac::whole(0),
        upper: Upper::Infinite,
        cost: Frac::whole(cost),
    }
}

// The network with these supplies and arcs.
fn network(alloc: Global, supply: &[Frac], arcs: &[NetArc]) -> Result<Net, Memory>
    requires few_nodes { length supply.now ≤ 20000 }
    requires few_arcs { length arcs.now ≤ 100000 }
    requires sound { All (IsSoundArc (length supply.now)) arcs.now }
{
    Ok(Net {
        supply: Fracs {
            items: Vec::from_slice(alloc, supply)?,
        },
        arcs: NetArcs {
            items: Vec::from_slice(alloc, arcs)?,
        },
    })
}

// A pivot after which the arc that leaves stands at its lower bound.
fn entry(enter: u32, leave: u32) -> Entry {
    Entry {
        enter,
        leave,
        leave_at: Mark::Lower,
    }
}

// A link from node 0 to node 1, which has two drains, and a drain of node 0 that earns 1.
fn four_arcs(alloc: Global) -> Result<Net, Memory> {
    let arcs = [
        arc(2, link(2, 0, 1, Frac::whole(1)), 0),
        arc(2, Ends::Drain(1), 0),
        arc(2, Ends::Drain(0), -1),
        arc(2, Ends::Drain(1), 5),
    ];
    network(alloc, &[Frac::whole(1), Frac::whole(0)], &arcs)
}

// A table of all pieces, its first pass, and for each node the least node of its piece.
fn opened(
    alloc: Global,
    full: &FullNet,
    phase: Phase,
    forest: &mut Forest,
) -> Result<(TreeTable<Quasi>, Pass<Quasi>, Nums), Fail>
    requires kept { IsKept (phase_net phase full.now) forest.old }
    requires state { IsState (phase_net phase full.now) (state_of forest.old) }
    ensures table { IfOk result (λ r. IsOf r.0 r.1) }
    ensures ready { IfOk result (λ r. IsReady full.now phase r.1) }
    ensures shares { IfOk result (λ r. (r.1.view.shares ≡ 64) × (r.1.spare ≡ 8)) }
    ensures slots { IfOk result (λ r. NameSlots (length full.now.net.supply) r.2) }
{
    let nodes = full.net.supply.items.len() as u32;
    let pieces = take_pieces(alloc, &mut forest.slots)?;
    let openings = opening_slots(alloc, &pieces, nodes)?;
    match TreeTable::set_up(alloc, full, phase, pieces, 8) {
        Ok((table, pass)) => Ok((table, pass, openings)),
        Err(_) => Err(Fail::from("no memory")),
    }
}

// The word of a slot where no piece is at home; a piece goes home again.
fn word_at(table: &TreeTable<Quasi>, pass: &mut Pass<Quasi>, slot: u32) -> Option<u64>
    requires table { IsOf table.now pass.old }
    requires near { slot < slot_count pass.old.view }
    requires idle { IsIdle pass.old.view }
    ensures same { Stays pass.old pass.new × (pass.new.spare ≡ pass.old.spare) × IsIdle pass.new.view }
    ensures told { (pass.new.view.shares ≡ pass.old.view.shares) × (pass.new.view.opening ≡ pass.old.view.opening) × (pass.new.view.entries ≡ pass.old.view.entries) }
{
    match table.take(pass, slot) {
        Taken::Busy { word } => Some(word),
        Taken::Piece(piece) => {
            table.put_back(pass, Hands::One(piece));
            None
        }
    }
}

// The word of a slot for one pass while another has its piece in hand.
fn word_beside(
    table: &TreeTable<Quasi>,
    holder: &mut Pass<Quasi>,
    pass: &mut Pass<Quasi>,
    slot: u32,
) -> Option<u64>
    requires table { IsOf table.now holder.old × IsOf table.now pass.old }
    requires near { (slot < slot_count holder.old.view) × (slot < slot_count pass.old.view) }
    requires idle { IsIdle holder.old.view × IsIdle pass.old.view }
    ensures same { Stays pass.old pass.new × (pass.new.spare ≡ pass.old.spare) × IsIdle pass.new.view }
    ensures told { (pass.new.view.shares ≡ pass.old.view.shares) × (pass.new.view.opening ≡ pass.old.view.opening) × (pass.new.view.entries ≡ pass.old.view.entries) }
    ensures holder { Stays holder.old holder.new × (holder.new.spare ≡ holder.old.spare) × IsIdle holder.new.view }
    ensures held { (holder.new.view.shares ≡ holder.old.view.shares) × (holder.new.view.opening ≡ holder.old.view.opening) }
{
    match table.take(holder, slot) {
        Taken::Busy { .. } => None,
        Taken::Piece(piece) => {
            let word = word_at(table, pass, slot);
            table.put_back(holder, Hands::One(piece));
            word
        }
    }
}

// Tries an arc at the slots that are named for its ends, where it is one of the network and the pass has room.
fn tried(
    alloc: Global,
    table: &TreeTable<Quasi>,
    pass: &mut Pass<Quasi>,
    full: &FullNet,
    phase: Phase,
    openings: &[u32],
    arc: u32,
) -> Option<Attempted>
    requires table { IsOf table.now pass.old }
    requires ready { IsReady full.now phase pass.old }
    requires slots { NameSlots (length full.now.net.supply) openings.now }
    ensures same { Stays pass.old pass.new }
    ensures ready { IsReady full.now phase pass.new }
    ensures shares { pass.new.view.shares ≡ pass.old.view.shares }
    ensures spare { pass.old.spare ≤ pass.new.spare + 1 }
    ensures entries { length pass.new.view.entries ≤ length pass.old.view.entries + 1 }
{
    if arc as usize >= full.net.arcs.items.len() || pass.spare() == 0 {
        return None;
    }
    let seen = see(openings, full, arc);
    let pivoter = TreePivoter;
    Some(attempt(
        alloc, table, pass, &pivoter, full, phase, arc, seen, &OpenGate, 1, 0,
    ))
}

// What two passes of stage one find at slot 1: their shares, the word while the one has its piece in hand, what comes of the arcs that it lets
// enter, and the word after that.
#[derive(Clone, Copy, Debug, PartialEq, Eq)]
struct SlotSeen {
    shares: [u32; 2],
    in_hand: Option<u64>,
    entered: [Option<Attempted>; 2],
    gone: Option<u64>,
}

fn slot_seen(
    alloc: Global,
    table: &TreeTable<Quasi>,
    pass: &mut Pass<Quasi>,
    full: &FullNet,
    openings: &[u32],
) -> Result<SlotSeen, Fail>
    requires table { IsOf table.now pass.old }
    requires ready { IsReady full.now One pass.old }
    requires shares { pass.old.view.shares ≡ 64 }
    requires slots { NameSlots (length full.now.net.supply) openings.now }
    requires two { 1 < length full.now.net.supply }
    ensures { Stays pass.old pass.new × (pass.new.view.hands ≡ []) × (pass.new.view.shares ≡ 64) }
{
    let mut second = table.fork(alloc, pass, 0)?;
    let shares = [pass.shares(), second.shares()];
    let in_hand = word_beside(table, pass, &mut second, 1);
    let drained = tried(alloc, table, pass, full, Phase::One, openings, 1);
    let linked = tried(alloc, table, pass, full, Phase::One, openings, 0);
    let gone = word_at(table, &mut second, 1);
    table.fold(pass, second);
    Ok(SlotSeen {
        shares,
        in_hand,
        entered: [drained, linked],
        gone,
    })
}

// Stage one: what is found at slot 1, and what the table has in the end.
fn gone_slot(
    alloc: Global,
    full: &FullNet,
    forest: &mut Forest,
) -> Result<(SlotSeen, Closed<Quasi>), Fail>
    requires { Goes full.now None [] forest.old }
{
    if full.net.supply.items.len() < 2 {
        return Err(Fail::from("no second node"));
    }
    let (table, mut pass, openings) = opened(alloc, full, Phase::One, forest)?;
    let seen = slot_seen(alloc, &table, &mut pass, full, openings.items.as_slice());
    let closed = table.close(pass);
    Ok((seen?, closed))
}

// What comes of arc 2 by one pass, and then of arc 3 by another.
fn piece_seen(
    alloc: Global,
    table: &TreeTable<Quasi>,
    pass: &mut Pass<Quasi>,
    full: &FullNet,
    openings: &[u32],
) -> Result<[Option<Attempted>; 2], Fail>
    requires table { IsOf table.now pass.old }
    requires ready { IsReady full.now Two pass.old }
    requires shares { (pass.old.view.shares ≡ 64) × (pass.old.spare ≡ 8) }
    requires slots { NameSlots (length full.now.net.supply) openings.now }
    ensures { Stays pass.old pass.new × (pass.new.view.hands ≡ []) × (pass.new.view.shares ≡ 64) }
{
    let mut second = table.fork(alloc, pass, 1)?;
    let split = tried(alloc, table, pass, full, Phase::Two, openings, 2);
    let lost = tried(alloc, table, &mut second, full, Phase::Two, openings, 3);
    table.fold(pass, second);
    Ok([split, lost])
}

// Makes the pivot of an arc, by the driver's own calls.
fn pivoted(
    alloc: Global,
    full: &FullNet,
    forest: &mut Forest,
    entries: &mut Vec<Entry>,
    arc: u32,
) -> Result<(), Fail>
    requires good { IsGood full.now }
    requires goes { Goes full.now None entries.old.items forest.old }
    ensures { OnOk result (Goes full.now None entries.new.items forest.new) }
{
    if arc as usize >= full.net.arcs.items.len() {
        return Err(Fail::from("no arc"));
    }
    let homes = forest.homes(alloc)?;
    match forest.attempt(alloc, full, Phase::One, &homes, arc) {
        Prepared::Ready { entry, change } => {
            forest.pivot(full, Phase::One, &homes, entry, change);
            entries.push(entry)?;
            Ok(())
        }
        _ => Err(Fail::from("no pivot")),
    }
}

// Lets arcs 1 and 0 enter, and turns to stage two.
fn turned(alloc: Global, full: &FullNet, forest: &mut Forest) -> Result<(), Fail>
    requires good { IsGood full.now }
    requires goes { Goes full.now None [] forest.old }
    ensures kept { OnOk result (IsKept (phase_net Two full.now) forest.new) }
    ensures state { OnOk result (IsState (phase_net Two full.now) (state_of forest.new)) }
{
    let mut entries = Vec::new(alloc);
    pivoted(alloc, full, forest, &mut entries, 1)?;
    pivoted(alloc, full, forest, &mut entries, 0)?;
    if entries.len() > 2 {
        return Err(Fail::from("more than two pivots"));
    }
    match turn_if_due(alloc, full, forest, None, &entries) {
        Due::Live(Some(_)) => Ok(()),
        _ => Err(Fail::from("no turn")),
    }
}

// Stage two: the slots of the nodes at first, what comes of arcs 2 and 3, and what the table has in the end.
fn lost_node(
    alloc: Global,
    full: &FullNet,
    forest: &mut Forest,
) -> Result<(Nums, [Option<Attempted>; 2], Closed<Quasi>), Fail>
    requires good { IsGood full.now }
    requires goes { Goes full.now None [] forest.old }
{
    turned(alloc, full, forest)?;
    let (table, mut pass, openings) = opened(alloc, full, Phase::Two, forest)?;
    let seen = piece_seen(alloc, &table, &mut pass, full, openings.items.as_slice());
    let closed = table.close(pass);
    Ok((openings, seen?, closed))
}

#[derive(Drop)]
struct BothStages {
    one: (SlotSeen, Closed<Quasi>),
    two: (Nums, [Option<Attempted>; 2], Closed<Quasi>),
}

// Both stages, each from the start.
fn both_stages(alloc: Global, net: &Net) -> Result<BothStages, Fail> {
    started();
    read_values(net.supply.items.as_slice());
    match start(alloc, net) {
        Ok(start) => {
            let mut forest = Forest::opening(alloc, &start)?;
            let mut other = Forest::opening(alloc, &start)?;
            Ok(BothStages {
                one: gone_slot(alloc, &start.full, &mut forest)?,
                two: lost_node(alloc, &start.full, &mut other)?,
            })
        }
        Err(_) => Err(Fail::from("no start")),
    }
}

#[test]
fn two_passes(rt: HostRuntime) -> Result<(), Fail> {
    let both = both_stages(rt.alloc(), &four_arcs(rt.alloc())?)?;
    let (seen, closed) = both.one;
    let entered = [
        Some(Attempted::Pivoted { ticket: 0 }),
        Some(Attempted::Pivoted { ticket: 1 }),
    ];
    assert!(rt; seen.shares == [32, 32]);
    assert!(rt; seen.in_hand == Some(1) && seen.entered == entered && seen.gone == Some(2));
    assert!(rt; closed.pieces.len() == 1);
    assert!(rt; closed.entries.items.as_slice() == [entry(1, 5), entry(0, 4)].as_slice());
    let (openings, answers, closed) = both.two;
    assert!(rt; openings.items.as_slice() == [0, 0].as_slice());
    assert!(rt; answers[0] == Some(Attempted::Pivoted { ticket: 0 }));
    assert!(rt; answers[1] == Some(Attempted::Stale { node: 1, slot: 0 }));
    assert!(rt; closed.pieces.len() == 2);
    assert!(rt; closed.pieces[0].size() == 1 && closed.pieces[0].contains(0));
    assert!(rt; closed.pieces[1].size() == 1 && closed.pieces[1].contains(1));
    assert!(rt; closed.entries.items.as_slice() == [entry(2, 0)].as_slice());
    Ok(())
}
