//! The table.

ghost use Rattle.std.specs.Prelude.{◌≡◌, ◌+◌};

use crate::room::Room;
use crate::rule::{Ruled, Start};
use crate::view::Shown;
use atomic_table::{Seat, Table};
use np_model::Piece;
use std::alloc::Global;

/// A table of pieces. It has a clock, and for each node of the network a slot with a claim word. Each piece stands in the slot of its least node,
/// or is in the hands of one [`Pass`](crate::Pass). Threads may share a table.
pub struct TreeTable<T: Piece> {
    pub(crate) table: Table<Option<T>, Shown, Start<T>, Ruled<T>, Global>,
    pub(crate) room: Room<T>,
    ghost sized: { (table.shared.table_id.words ≡ table.shared.table_id.slots + 1) × (room.count ≡ table.shared.table_id.slots) },
}

/// What a pass steps with.
pub type Token<T> = Seat<Option<T>, Shown>;
