//! What a worker does with a table.

ghost use Rattle.std.specs.Prelude.{◌≡◌, ℕ, ◌+◌, ◌<◌, ◌≤◌, [], ◌++◌, length, IfOk, OnErr, vec_len, vec_capacity};
ghost use Rattle.tree_table.specs.Passes.{IsIdle, slot_count};
ghost use Rattle.tree_table.specs.Replay.{AreBelow, Becomes};
ghost use Rattle.tree_table.specs.Kinds.{looking, pivoting, half, other_half, folded, IsWholeAt};
ghost use Rattle.tree_table.specs.Calls.{IsOf, Stays, MatchTaken, MatchTwo, IsGot, AreGot, IsBusy, IsBusyTwo, with_one, with_two, with_none, lists_in, emptied};

use crate::pass::{Pass, Slots};
use crate::rule::{Both, Halves, Look};
use crate::table::TreeTable;
use np_frac::Memory;
use np_model::{Entry, Hands, Piece};
use std::alloc::Global;
use std::marker::Brand;

/// What a take of one piece answers.
#[derive(Debug, Drop)]
pub enum Taken<T> {
    /// The piece.
    Piece(T),
    /// No piece is at home in the slot: its claim word showed this, 1 where the slot is taken and 2 where it is empty.
    Busy { word: u64 },
}

/// What a take of two pieces answers.
#[derive(Debug, Drop)]
pub enum TakenTwo<T> {
    /// The pieces, in the order of their slots.
    Both(T, T),
    /// No piece is at home in this slot: its claim word showed this, 1 where the slot is taken and 2 where it is empty.
    Busy { slot: u32, word: u64 },
}

impl<T: Piece> TreeTable<T> {
    /// A new pass with half of the shares, rounded down, and room for so many entries. It asks that the pass has two shares at least and nothing
    /// in hand. It looks at the clock, and at that moment the table is whole. After want of memory the pass is as it was.
    pub fn fork(&self, alloc: Global, pass: &mut Pass<T>, room: u32) -> Result<Pass<T>, Memory>
        requires table { IsOf self.now pass.old }
        requires shares { 2 ≤ pass.old.view.shares }
        requires bare { pass.old.view.hands ≡ [] }
        ensures same { Stays pass.old pass.new × (pass.new.spare ≡ pass.old.spare) × IsIdle pass.new.view }
        ensures other { IfOk result (λ other. IsOf self.now other × (other.spare ≡ room) × (other.view ≡ other_half pass.old.view)) }
        ensures pass { IfOk result (λ _. (clock : ℕ) × (pass.new.view ≡ half (looking pass.old.view 0 clock)) × IsWholeAt T.lists pass.old.view clock) }
        ensures memory { OnErr result (pass.new.view ≡ pass.old.view) }
    {
        let part = pass.shares / 2;
        let made = Vec::with_capacity(alloc, room as usize)?;
        let order = Vec::with_capacity(alloc, room as usize)?;
        let shared = &self.table.shared;
        shared.load::<Look<T>>(&mut pass.seat, 0);
        let seat = shared.split_seat::<Halves>(&mut pass.seat);
        pass.shares -= part;
        Ok(Pass {
            seat,
            shares: part,
            hands: 0,
            slots: Slots::None,
            spare: room,
            made,
            order,
        })
    }

    /// Takes the piece of this slot. It asks that the slot is that of a node and that the pass has nothing in hand. It looks at the claim word of
    /// the slot, and answers Busy exactly where that shows no piece at home; with all shares this is where no piece has the slot.
    pub fn take(&self, pass: &mut Pass<T>, slot: u32) -> Taken<T>
        requires table { IsOf self.now pass.old }
        requires near { slot < slot_count pass.old.view }
        requires bare { pass.old.view.hands ≡ [] }
        ensures same { Stays pass.old pass.new × (pass.new.spare ≡ pass.old.spare) }
        ensures answer { MatchTaken result
            (λ piece. IsGot pass.old.view slot (T.lists piece) × (pass.new.view ≡ with_one pass.old.view slot (T.lists piece)))
            (λ word. IsBusy pass.old.view slot word × (pass.new.view ≡ with_none pass.old.view slot word)) }
    {
        match self.try_slot(&mut pass.seat, slot) {
            Ok(piece) => {
                pass.hands = 1;
                pass.slots = Slots::One(slot);
                Taken::Piece(piece)
            }
            Err(word) => Taken::Busy { word },
        }
    }

    /// Takes the pieces of these two slots, or none: where the second one is busy, the first piece goes home again. It asks that both slots are those
    /// of nodes, the lesser one first, and that the pass has nothing in hand. It looks at the claim word of the first slot and, where a piece is at
    /// home there, at that of the second one, and answers Busy exactly where the last look shows no piece at home.
    pub fn take_two(&self, pass: &mut Pass<T>, first: u32, second: u32) -> TakenTwo<T>
        requires table { IsOf self.now pass.old }
        requires near { (first < second) × (second < slot_count pass.old.view) }
        requires bare { pass.old.view.hands ≡ [] }
        ensures same { Stays pass.old pass.new × (pass.new.spare ≡ pass.old.spare) }
        ensures answer { MatchTwo result
            (λ a b. AreGot pass.old.view first second (T.lists a) (T.lists b) × (pass.new.view ≡ with_two pass.old.view first second (T.lists a) (T.lists b)))
            (λ slot word. IsBusyTwo pass.old.view first second slot word pass.new.view) }
    {
        match self.try_slot(&mut pass.seat, first) {
            Err(word) => TakenTwo::Busy { slot: first, word },
            Ok(one) => match self.try_slot(&mut pass.seat, second) {
                Ok(other) => {
                    pass.hands = 2;
                    pass.slots = Slots::Two(first, second);
                    TakenTwo::Both(one, other)
                }
                Err(word) => {
                    self.put_slot(&mut pass.seat, first, one);
                    TakenTwo::Busy { slot: second, word }
                }
            },
        }
    }

    /// Puts the pieces home that the pass has in hand.
    pub fn put_back(&self, pass: &mut Pass<T>, hands: Hands<T>)
        requires table { IsOf self.now pass.old }
        requires hands { pass.old.view.hands ≡ lists_in T.lists hands }
        ensures same { Stays pass.old pass.new × (pass.new.spare ≡ pass.old.spare) }
        ensures home { pass.new.view ≡ emptied pass.old.view }
    {
        let slots = pass.slots;
        self.home_all(&mut pass.seat, slots, hands);
        pass.hands = 0;
        pass.slots = Slots::None;
    }

    /// Draws the ticket of a pivot on all that the pass has in hand, and puts the pieces after it home, each into the slot of its least node. It asks
    /// that these are the pieces after that pivot and that there is room for an entry. It answers the ticket: the tickets of a pass rise, and that of
    /// a pass with all shares is the number of its entries. The order is: ticket; the slot of a new least node is taken; a slot whose piece is
    /// no more is left empty; and only then the pieces are put.
    pub fn commit(&self, pass: &mut Pass<T>, hands: Hands<T>, entry: Entry) -> u64
        requires table { IsOf self.now pass.old }
        requires pivot { Becomes pass.old.view.opening pass.old.view.hands entry (lists_in T.lists hands) }
        requires room { 1 ≤ pass.old.spare }
        ensures same { Stays pass.old pass.new }
        ensures spare { pass.new.spare + 1 ≡ pass.old.spare }
        ensures entry { pass.new.view ≡ emptied (pivoting pass.old.view result entry (lists_in T.lists hands)) }
        ensures rises { AreBelow result pass.old.view.entries }
        ensures all { pass.old.view.shares ≡ 64 → result ≡ length pass.old.view.entries }
    {
        let ticket = self.draw::<Brand>(&mut pass.seat, &hands, entry);
        pass.made.push_reserved((ticket, entry));
        pass.spare -= 1;
        let slots = pass.slots;
        self.home_all(&mut pass.seat, slots, hands);
        pass.hands = 0;
        pass.slots = Slots::None;
        ticket
    }

    /// The other pass ends, and its shares, entries and looks go to the pass. It asks that the other one has nothing in hand, and that there is room for its
    /// entries. It looks at the clock, and at that moment the table is whole.
    pub fn fold(&self, pass: &mut Pass<T>, other: Pass<T>)
        requires table { IsOf self.now pass.old × IsOf self.now other }
        requires bare { other.view.hands ≡ [] }
        requires room { length other.view.entries ≤ pass.old.spare }
        ensures same { Stays pass.old pass.new × (pass.old.view.hands ≡ [] → IsIdle pass.new.view) }
        ensures spare { pass.new.spare + length other.view.entries ≡ pass.old.spare }
        ensures both { (clock : ℕ) × (pass.new.view ≡ looking (folded pass.old.view other.view) 0 clock) × IsWholeAt T.lists (folded pass.old.view other.view) clock }
    {
        let shared = &self.table.shared;
        let Pass {
            seat,
            shares,
            hands: _,
            slots: _,
            spare: _,
            made,
            order: _,
        } = other;
        shared.join_seat::<Both>(&mut pass.seat, seat);
        shared.load::<Look<T>>(&mut pass.seat, 0);
        pass.shares += shares;
        pass.spare -= made.len() as u32;
        add_all(&mut pass.made, made.as_slice());
    }
}

// Adds these entries, for which there is room.
fn add_all(to: &mut Vec<(u64, Entry)>, from: &[(u64, Entry)])
    requires { vec_len to.old + length from.now ≤ vec_capacity to.old }
    ensures items { to.new.items ≡ to.old.items ++ from.now }
    ensures room { vec_capacity to.new ≡ vec_capacity to.old }
{
    for entry in from {
        to.push_reserved(*entry);
    }
}
