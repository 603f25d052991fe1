//! How a table is made.

ghost use Rattle.std.specs.Prelude.{◌≡◌, ℕ, ◌<◌, ◌≤◌, [], map, length, IfOk, IfErr, vec_len, vec_capacity};
ghost use Rattle.np_model.specs.Basis.Pieces.{AreApart};
ghost use Rattle.tree_table.specs.Slots.{HaveSlots, having};
ghost use Rattle.tree_table.specs.Passes.{IsOpen, opening_of, first_view};
ghost use Rattle.tree_table.specs.Steps.Room.{AreEmptyWords};
ghost use Rattle.tree_table.specs.Steps.Tokens.{IsSameSeat};
ghost use Rattle.tree_table.specs.Calls.{IsOf, emptied};

use crate::pass::{Pass, Slots};
use crate::room::Room;
use crate::rule::Start;
use crate::table::{Token, TreeTable};
use atomic_table::Table;
use np_model::{Entry, FullNet, Phase, Piece};
use std::alloc::{AllocError, Global};
use std::snapshot::Snapshot;

/// There is not enough memory for a table. The pieces are those that were given.
#[derive(Debug, Drop)]
pub struct SetupRefusal<T> {
    pub pieces: Vec<T>,
}

impl<T: Piece> TreeTable<T> {
    // All pieces go home. They are in the hands of the pass, and each slot is empty.
    fn fill(&self, seat: &mut Token<T>, mut pieces: Vec<T>)
        requires table { seat.old.table_id ≡ self.now.table.shared.table_id }
        requires live { IsOpen seat.old.me.0 }
        requires hands { seat.old.me.0.hands ≡ map T.lists pieces.items }
        requires slots { seat.old.me.0.slots ≡ [] }
        requires out { seat.old.me.1 ≡ [] }
        requires lie { HaveSlots seat.old.table_id.slots (map T.lists pieces.items) }
        requires apart { (u : ℕ) → having u (map T.lists pieces.items) ≤ 1 }
        ensures same { IsSameSeat seat.old seat.new }
        ensures after { seat.new.me ≡ (emptied seat.old.me.0, []) }
    {
        while let Some(piece) = pieces.pop() {
            let slot = piece.least();
            self.open_slot(seat, slot);
            self.put_slot(seat, slot, piece);
        }
        pieces.destroy_empty();
    }

    /// A table of these pieces, all at home, for a network in a phase. The first pass has all 64 shares, nothing in hand, and room for so many
    /// entries. It asks that each piece has nodes, that its least one is a node of the network, and that no node is in two pieces. The one refusal
    /// is want of memory.
    pub fn set_up(
        alloc: Global,
        full: &FullNet,
        phase: Phase,
        pieces: Vec<T>,
        room: u32,
    ) -> Result<(TreeTable<T>, Pass<T>), SetupRefusal<T>>
        requires lie { HaveSlots (length full.now.net.supply) (map T.lists pieces.items) }
        requires apart { AreApart (map T.lists pieces.items) }
        ensures table { IfOk result (λ r. IsOf r.0 r.1) }
        ensures pass { IfOk result (λ r. (r.1.spare ≡ room) × (r.1.view ≡ first_view (opening_of full.now phase (map T.lists pieces.items)))) }
        ensures memory { IfErr result (λ r. r.pieces.items ≡ pieces.items) }
    {
        let nodes = full.net.supply.items.len();
        let Ok((made, order, words, list)) = reserve(alloc, nodes, room) else {
            return Err(SetupRefusal { pieces });
        };
        let start = Start {
            full: Snapshot::of(full),
            phase: Snapshot::of(&phase),
            pieces: Snapshot::of(&pieces),
        };
        let Ok((table, mut seat)) = Table::vacant(alloc, words.as_slice(), nodes, &start) else {
            list.into_list().destroy_empty();
            return Err(SetupRefusal { pieces });
        };
        let table = TreeTable { table, room: list };
        table.fill(&mut seat, pieces);
        let pass = Pass {
            seat,
            shares: 64,
            hands: 0,
            slots: Slots::None,
            spare: room,
            made,
            order,
        };
        Ok((table, pass))
    }
}

// The memory of a table and its first pass: two rooms for so many entries, the words, and the list that the pieces are gathered in.
fn reserve<T>(
    alloc: Global,
    nodes: usize,
    room: u32,
) -> Result<(Vec<(u64, Entry)>, Vec<Entry>, Vec<u64>, Room<T>), AllocError>
    requires { nodes < 4294967296 }
    ensures made { IfOk result (λ r. (r.0.items ≡ []) × (vec_len r.0 ≡ 0) × (room ≤ vec_capacity r.0)) }
    ensures order { IfOk result (λ r. (r.1.items ≡ []) × (room ≤ vec_capacity r.1)) }
    ensures words { IfOk result (λ r. AreEmptyWords nodes r.2.items) }
    ensures list { IfOk result (λ r. r.3.count ≡ nodes) }
{
    let made = Vec::with_capacity(alloc, room as usize)?;
    let order = Vec::with_capacity(alloc, room as usize)?;
    let words = empty_words(alloc, nodes)?;
    let list = Room::new(alloc, nodes as u32)?;
    Ok((made, order, words, list))
}

// The words of a table in which all slots are empty.
fn empty_words(alloc: Global, nodes: usize) -> Result<Vec<u64>, AllocError>
    requires { nodes < 4294967296 }
    ensures { IfOk result (λ v. AreEmptyWords nodes v.items) }
{
    let mut words = Vec::from_elem(alloc, 2u64, nodes + 1)?;
    words[0] = 0;
    Ok(words)
}
