//! Whether the pieces taken still have the ends of the arc.

ghost use Rattle.std.specs.Prelude.{ℕ, List, MatchBool, MatchOption};
ghost use Rattle.gain_graphs.specs.Arcs.{IsIn};
ghost use Rattle.tree_table.specs.Calls.{lists_in};
ghost use Rattle.pivot_workers.specs.Takes.{LieAt, HasSecond, slots_of};
ghost use Rattle.pivot_workers.specs.Stale.{LacksAt, HasAt, IsStale, IsFresh};

use crate::seeing::Seen;
use np_model::{Ends, Hands, Piece};

// Whether the piece at the slot lacks the node.
fn lacks<T: Piece>(hands: &Hands<T>, slot: u32, node: u32) -> bool
    requires lie { (slots : List ℕ) × LieAt slots (lists_in T.lists hands.now) × IsIn slot slots }
    ensures { MatchBool result (LacksAt slot node (lists_in T.lists hands.now)) (HasAt slot node (lists_in T.lists hands.now)) }
{
    match hands {
        Hands::One(piece) => !piece.contains(node),
        Hands::Two(piece, other) => {
            if piece.least() == slot {
                !piece.contains(node)
            } else {
                !other.contains(node)
            }
        }
    }
}

// An end that is not in the piece at the slot where it was seen, with that slot.
#[derive(Clone, Copy, PartialEq, Eq)]
pub(crate) struct Gone {
    pub node: u32,
    pub slot: u32,
}

// The first such end, the tail before the head.
pub(crate) fn find_stale<T: Piece>(hands: &Hands<T>, ends: Ends, seen: Seen) -> Option<Gone>
    requires second { HasSecond ends seen.second }
    requires lie { LieAt (slots_of seen) (lists_in T.lists hands.now) }
    ensures { MatchOption result (IsFresh ends seen (lists_in T.lists hands.now)) (λ gone. IsStale ends seen gone.node gone.slot (lists_in T.lists hands.now)) }
{
    match ends {
        Ends::Drain(at) | Ends::Feed(at) => {
            if lacks(hands, seen.first, at) {
                return Some(Gone {
                    node: at,
                    slot: seen.first,
                });
            }
            None
        }
        Ends::Link { from, to, .. } => match seen.second {
            None => unreachable!(),
            Some(second) => {
                if lacks(hands, seen.first, from) {
                    return Some(Gone {
                        node: from,
                        slot: seen.first,
                    });
                }
                if lacks(hands, second, to) {
                    return Some(Gone {
                        node: to,
                        slot: second,
                    });
                }
                None
            }
        },
    }
}
