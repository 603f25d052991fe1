//! How a table ends.

ghost use Rattle.std.specs.Prelude.{◌≡◌, ℕ, List, [], map, vec_len, vec_capacity, ◌≤◌};
ghost use Rattle.std.specs.Slots.{slots_items, slots_len, IsFull};
ghost use Rattle.np_model.specs.declared.log.Entry.{Entry};
ghost use Rattle.tree_table.specs.Weights.{AreSame};
ghost use Rattle.tree_table.specs.Calls.{IsOf, IsClosed};
ghost use Rattle.tree_table.specs.Steps.Closing.{somes, ticketed_from};

use crate::pass::Pass;
use crate::table::TreeTable;
use np_model::{Entries, Entry, Piece};
use std::alloc::Global;

/// What a closed table had.
#[derive(Debug, Drop)]
pub struct Closed<T> {
    /// The pieces, by ascending slot.
    pub pieces: Vec<T>,
    /// The entries, in the order of their tickets.
    pub entries: Entries,
}

// The entries in the order of their tickets.
fn by_ticket(mut made: Vec<(u64, Entry)>, mut order: Vec<Entry>) -> Vec<Entry>
    requires bare { order.items ≡ [] }
    requires room { vec_len made ≤ vec_capacity order }
    ensures { (entries : List Entry) → AreSame made.items (ticketed_from 0 entries) → result.items ≡ entries }
{
    made.sort_unstable_by_key(|e| e.0);
    for e in made.iter() {
        order.push_reserved(e.1);
    }
    order
}

// All values that the slots have, in their order.
fn gather<T>(mut closed: atomic_table::Closed<Option<T>, Global>, mut pieces: Vec<T>) -> Vec<T>
    requires full { IsFull closed.slots }
    requires bare { vec_len pieces ≡ 0 }
    requires room { slots_len closed.slots ≤ vec_capacity pieces }
    ensures { result.items ≡ somes (slots_items closed.slots) }
{
    let count = closed.slot_count();
    for k in 0..count {
        match closed.take(k) {
            Some(piece) => pieces.push_reserved(piece),
            None => {}
        }
    }
    closed.free();
    pieces
}

impl<T: Piece> TreeTable<T> {
    /// All pieces, by ascending slot, and all entries, in the order of their tickets from 0: they lead from the pieces that the table was set up with
    /// to these. It asks that the pass has all shares and nothing in hand.
    pub fn close(self, pass: Pass<T>) -> Closed<T>
        requires table { IsOf self pass }
        requires shares { pass.view.shares ≡ 64 }
        requires bare { pass.view.hands ≡ [] }
        ensures { IsClosed pass.view (map T.lists result.pieces.items) result.entries }
    {
        let TreeTable { table, room } = self;
        let Pass {
            seat,
            shares: _,
            hands: _,
            slots: _,
            spare: _,
            made,
            order,
        } = pass;
        let closed = table.close_with(seat);
        Closed {
            pieces: gather(closed, room.into_list()),
            entries: Entries {
                items: by_ticket(made, order),
            },
        }
    }
}
