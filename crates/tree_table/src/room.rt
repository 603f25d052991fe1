//! The list that the pieces of a closed table are gathered in. It is empty until then, and lies in a table of one slot and no word on which
//! nobody steps: so threads may share it, though what it is a list of may not be shared.

ghost use Rattle.std.specs.Prelude.{◌≡◌, ◌≤◌, IfOk, vec_len, vec_capacity};
ghost use Rattle.tree_table.specs.Steps.Room.{HasRoom};

use atomic_table::{Refused, Table, TableRule};
use std::alloc::{AllocError, Global};

pub(crate) struct Roomy;

impl<T> TableRule<Vec<T>, (), u32> for Roomy {
    ghost holds = { λ count. HasRoom count };

    ghost first = { λ _. tt };
}

pub(crate) struct Room<T> {
    table: Table<Vec<T>, (), u32, Roomy, Global>,
    pub(crate) count: u32,
    ghost sized: { (table.shared.table_id.slots ≡ 1) × (table.shared.key ≡ count) },
}

impl<T> Room<T> {
    // An empty list with room for so many pieces.
    pub(crate) fn new(alloc: Global, count: u32) -> Result<Room<T>, AllocError>
        ensures { IfOk result (λ r. r.count ≡ count) }
    {
        let mut shelf = Vec::with_capacity(alloc, 1)?;
        let Ok(list) = Vec::with_capacity(alloc, count as usize) else {
            shelf.destroy_empty();
            return Err(AllocError);
        };
        shelf.push_reserved(list);
        match Table::new(alloc, &[], shelf, &count) {
            Ok((table, _seat)) => Ok(Room { table, count }),
            Err(Refused { mut slots }) => {
                if let Some(list) = slots.pop() {
                    list.destroy_empty();
                }
                slots.destroy_empty();
                Err(AllocError)
            }
        }
    }

    // The list.
    pub(crate) fn into_list(self) -> Vec<T>
        ensures { (vec_len result ≡ 0) × (self.count ≤ vec_capacity result) }
    {
        let Room { table, count: _ } = self;
        let mut closed = table.close();
        let list = closed.take(0);
        closed.free();
        list
    }
}
