//! Where the pieces of an arc's ends were seen, and taking them from there.

ghost use Rattle.std.specs.Prelude.{◌≡◌, ◌<◌, length, [], ◌∷◌};
ghost use Rattle.std.specs.List.{All};
ghost use Rattle.np_model.specs.declared.phase.Phase.{Phase};
ghost use Rattle.np_model.specs.Network.Arcs.{AreNodes};
ghost use Rattle.np_model.specs.Basis.Graphs.{ends_at};
ghost use Rattle.np_model.specs.Basis.Phases.{phase_net, real_arcs};
ghost use Rattle.tree_table.specs.Calls.{IsOf, Stays, lists_in};
ghost use Rattle.tree_table.specs.Passes.{IsIdle, slot_count};
ghost use Rattle.pivot_workers.specs.Openings.{NameSlots};
ghost use Rattle.pivot_workers.specs.Takes.{seen_at, slots_of};
ghost use Rattle.pivot_workers.specs.Steps.Grabs.{MatchGrabbed, HasGrabbed, HasMissed};

use np_model::{Ends, FullNet, Hands, Piece};
use tree_table::{Pass, Taken, TakenTwo, TreeTable};

/// The slots at which the pieces of an arc's ends were seen: that of the tail and that of the head of a link, or that of the one end.
#[derive(Clone, Copy, Debug, PartialEq, Eq)]
pub struct Seen {
    pub first: u32,
    pub second: Option<u32>,
}

// The numbers named for these ends.
fn named_at(openings: &[u32], ends: &Ends) -> Seen
    requires { AreNodes (length openings.now) ends.now }
    ensures { result ≡ seen_at openings.now ends.now }
{
    match ends {
        Ends::Link { from, to, .. } => Seen {
            first: openings[*from as usize],
            second: Some(openings[*to as usize]),
        },
        Ends::Drain(at) | Ends::Feed(at) => Seen {
            first: openings[*at as usize],
            second: None,
        },
    }
}

/// The numbers named for the ends of this arc, a real one. There is a second one exactly for a link. After a pivot they can be out of date. Takes
/// no memory.
pub fn see(openings: &[u32], full: &FullNet, arc: u32) -> Seen
    requires arc { arc < real_arcs full.now }
    requires slots { NameSlots (length full.now.net.supply) openings.now }
    ensures seen { (phase : Phase) → result ≡ seen_at openings.now (ends_at (phase_net phase full.now).arcs arc) }

    // Each is the number of a slot.
    ensures near { All (λ k. k < length full.now.net.supply) (slots_of result) }
{
    named_at(openings, &full.ends(arc))
}

// The pieces that were seen, or the slot that is busy.
#[derive(Drop)]
pub(crate) enum Grabbed<T> {
    Got(Hands<T>),
    Busy { slot: u32, word: u64 },
}

fn grab_one<T: Piece>(table: &TreeTable<T>, pass: &mut Pass<T>, slot: u32) -> Grabbed<T>
    requires table { IsOf table.now pass.old }
    requires idle { IsIdle pass.old.view }
    requires near { slot < slot_count pass.old.view }
    ensures same { Stays pass.old pass.new × (pass.new.spare ≡ pass.old.spare) }
    ensures answer { MatchGrabbed result
        (λ hands. HasGrabbed pass.old.view pass.new.view (slot ∷ []) (lists_in T.lists hands))
        (λ busy word. HasMissed pass.old.view pass.new.view (slot ∷ []) busy word) }
{
    match table.take(pass, slot) {
        Taken::Piece(piece) => Grabbed::Got(Hands::One(piece)),
        Taken::Busy { word } => Grabbed::Busy { slot, word },
    }
}

fn grab_two<T: Piece>(table: &TreeTable<T>, pass: &mut Pass<T>, low: u32, high: u32) -> Grabbed<T>
    requires table { IsOf table.now pass.old }
    requires idle { IsIdle pass.old.view }
    requires near { (low < high) × (high < slot_count pass.old.view) }
    ensures same { Stays pass.old pass.new × (pass.new.spare ≡ pass.old.spare) }
    ensures answer { MatchGrabbed result
        (λ hands. HasGrabbed pass.old.view pass.new.view (low ∷ high ∷ []) (lists_in T.lists hands))
        (λ busy word. HasMissed pass.old.view pass.new.view (low ∷ high ∷ []) busy word) }
{
    match table.take_two(pass, low, high) {
        TakenTwo::Both(piece, other) => Grabbed::Got(Hands::Two(piece, other)),
        TakenTwo::Busy { slot, word } => Grabbed::Busy { slot, word },
    }
}

// Takes the pieces at the slots, in their order, or none.
pub(crate) fn grab<T: Piece>(table: &TreeTable<T>, pass: &mut Pass<T>, seen: Seen) -> Grabbed<T>
    requires table { IsOf table.now pass.old }
    requires idle { IsIdle pass.old.view }
    requires near { All (λ k. k < slot_count pass.old.view) (slots_of seen) }
    ensures same { Stays pass.old pass.new × (pass.new.spare ≡ pass.old.spare) }
    ensures answer { MatchGrabbed result
        (λ hands. HasGrabbed pass.old.view pass.new.view (slots_of seen) (lists_in T.lists hands))
        (λ busy word. HasMissed pass.old.view pass.new.view (slots_of seen) busy word) }
{
    match seen.second {
        None => grab_one(table, pass, seen.first),
        Some(second) => {
            if second == seen.first {
                grab_one(table, pass, seen.first)
            } else if seen.first < second {
                grab_two(table, pass, seen.first, second)
            } else {
                grab_two(table, pass, second, seen.first)
            }
        }
    }
}
