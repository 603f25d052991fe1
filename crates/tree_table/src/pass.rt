//! The passes of a table.

ghost use Rattle.std.specs.Prelude.{◌≡◌, length};

use crate::table::Token;
use np_model::{Entry, Piece};
use std::marker::Model;

// The slots that are taken, the last one last.
#[derive(Clone, Copy)]
pub(crate) enum Slots {
    None,
    One(u32),
    Two(u32, u32),
}

/// The right to take pieces of a table. It has some of the 64 shares of the table, keeps the entries of the pivots that were made with it, and may
/// move to another thread.
#[derive(Drop)]
pub struct Pass<T: Piece> {
    pub(crate) seat: Token<T>,
    pub(crate) shares: u32,
    pub(crate) hands: u32,
    pub(crate) slots: Slots,
    pub(crate) spare: u32,
    // the entries with their tickets
    pub(crate) made: Vec<(u64, Entry)>,
    // room for as many entries
    pub(crate) order: Vec<Entry>,
}

impl<T: Piece> Model for Pass<T> {
    ghost use Rattle.tree_table.specs.Passes.{PassState};

    ghost Value = { PassState };

    ghost use Rattle.tree_table.specs.Steps.Kept.{state_of, IsKept};

    ghost view = { λ p. state_of p.seat p.spare };

    ghost invariant = { λ p. IsKept p.seat p.shares p.hands p.slots p.spare p.made p.order };
}

impl<T: Piece> Pass<T> {
    /// Its shares, of the 64 that the table has. A pass with all of them is the only one.
    pub fn shares(&self) -> u32
        ensures { result ≡ self.now.view.shares }
    {
        self.shares
    }

    /// How many pieces it has in hand.
    pub fn hands(&self) -> u32
        ensures { result ≡ length self.now.view.hands }
    {
        self.hands
    }

    /// For how many more entries it has room.
    pub fn spare(&self) -> u32
        ensures { result ≡ self.now.spare }
    {
        self.spare
    }
}
