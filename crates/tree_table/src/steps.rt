//! The steps on claim words and the clock, each with what it does to its pass.

ghost use Rattle.std.specs.Prelude.{◌≡◌, ℕ, ◌+◌, ◌^◌, ◌<◌, ◌≤◌, ◌∷◌, length, None, IfOk, IfErr};
ghost use Rattle.atomic_table.specs.Table.{rest};
ghost use Rattle.np_model.specs.Basis.Pieces.{PieceLists};
ghost use Rattle.tree_table.specs.Weights.{weigh, times, without};
ghost use Rattle.tree_table.specs.Slots.{LiesAt, having, lacking};
ghost use Rattle.tree_table.specs.Passes.{IsOpen};
ghost use Rattle.tree_table.specs.Replay.{AreBelow, Becomes};
ghost use Rattle.tree_table.specs.Kinds.{looking, taking, putting, opening_slot, shutting, pivoting, Missed};
ghost use Rattle.tree_table.specs.Calls.{IsGot, lists_in};
ghost use Rattle.tree_table.specs.Steps.Tokens.{IsSameSeat};

use crate::rule::{Open, Pivot, Put, Shut, Take, Ticket};
use crate::table::{Token, TreeTable};
use np_model::{Entry, Hands, Piece};

// What a claim word shows where a piece is at home in its slot, where a pass has taken the slot, and where neither is so.
const HOME: u64 = 0;

const TAKEN: u64 = 1;

const EMPTY: u64 = 2;

impl<T: Piece> TreeTable<T> {
    // Takes the piece of the slot, or tells what its claim word showed.
    pub(crate) fn try_slot(&self, seat: &mut Token<T>, slot: u32) -> Result<T, u64>
        requires table { seat.old.table_id ≡ self.now.table.shared.table_id }
        requires near { slot < seat.old.table_id.slots }
        requires live { IsOpen seat.old.me.0 }
        ensures same { IsSameSeat seat.old seat.new }
        ensures ok { IfOk result (λ piece. IsGot seat.old.me.0 slot (T.lists piece) × (seat.new.me ≡ (taking (looking seat.old.me.0 (slot + 1) 0) slot (T.lists piece), (slot, None) ∷ seat.old.me.1))) }
        ensures err { IfErr result (λ word. Missed seat.old.me slot word seat.new.me) }
    {
        let shared = &self.table.shared;
        let place = slot as usize;
        let found = shared.compare_exchange::<Take<T>>(seat, place + 1, HOME, TAKEN);
        if found != HOME {
            return Err(found);
        }
        Ok(shared.exchange(seat, place, None).unwrap())
    }

    // Puts a piece into its slot, which is the one that was taken last.
    pub(crate) fn put_slot(&self, seat: &mut Token<T>, slot: u32, piece: T)
        requires table { seat.old.table_id ≡ self.now.table.shared.table_id }
        requires near { slot < seat.old.table_id.slots }
        requires live { IsOpen seat.old.me.0 }
        requires lies { LiesAt slot (T.lists piece) }
        requires carried { seat.old.me.1 ≡ (slot, None) ∷ rest seat.old.me.1 }
        requires listed { 1 ≤ times slot seat.old.me.0.slots }
        requires held { (f : PieceLists → ℕ) → weigh f (lacking slot seat.old.me.0.hands) + f (T.lists piece) ≡ weigh f seat.old.me.0.hands }
        requires others { (j : ℕ) → times j (without slot seat.old.me.0.slots) ≤ having j (lacking slot seat.old.me.0.hands) }
        ensures same { IsSameSeat seat.old seat.new }
        ensures after { seat.new.me ≡ (putting seat.old.me.0 slot, rest seat.old.me.1) }
    {
        let shared = &self.table.shared;
        let place = slot as usize;
        match shared.exchange(seat, place, Some(piece)) {
            None => {}
            Some(_) => unreachable!(),
        }
        shared.store::<Put>(seat, place + 1, HOME);
    }

    // Takes the empty slot of a node in hand.
    pub(crate) fn open_slot(&self, seat: &mut Token<T>, slot: u32)
        requires table { seat.old.table_id ≡ self.now.table.shared.table_id }
        requires near { slot < seat.old.table_id.slots }
        requires live { IsOpen seat.old.me.0 }
        requires held { 1 ≤ having slot seat.old.me.0.hands }
        requires unlisted { times slot seat.old.me.0.slots ≡ 0 }
        ensures same { IsSameSeat seat.old seat.new }
        ensures after { seat.new.me ≡ (opening_slot seat.old.me.0 slot, (slot, None) ∷ seat.old.me.1) }
    {
        self.table
            .shared
            .compare_exchange::<Open>(seat, slot as usize + 1, EMPTY, TAKEN);
    }

    // Leaves a slot empty, which is the one that was taken last.
    pub(crate) fn shut_slot(&self, seat: &mut Token<T>, slot: u32)
        requires table { seat.old.table_id ≡ self.now.table.shared.table_id }
        requires near { slot < seat.old.table_id.slots }
        requires live { IsOpen seat.old.me.0 }
        requires carried { seat.old.me.1 ≡ (slot, None) ∷ rest seat.old.me.1 }
        requires listed { 1 ≤ times slot seat.old.me.0.slots }
        ensures same { IsSameSeat seat.old seat.new }
        ensures after { seat.new.me ≡ (shutting seat.old.me.0 slot, rest seat.old.me.1) }
    {
        self.table
            .shared
            .store::<Shut>(seat, slot as usize + 1, EMPTY);
    }

    // Draws the ticket of a pivot on all that is in hand.
    pub(crate) fn draw<J: Pivot>(&self, seat: &mut Token<T>, hands: &Hands<T>, entry: Entry) -> u64
        requires given { (J.entry ≡ entry) × (J.after ≡ lists_in T.lists hands.now) }
        requires table { seat.old.table_id ≡ self.now.table.shared.table_id }
        requires live { IsOpen seat.old.me.0 }
        requires room { length seat.old.me.0.entries + 1 < 2 ^ 32 }
        requires pivot { Becomes seat.old.me.0.opening seat.old.me.0.hands entry (lists_in T.lists hands.now) }
        ensures same { IsSameSeat seat.old seat.new }
        ensures after { seat.new.me ≡ (pivoting seat.old.me.0 result entry (lists_in T.lists hands.now), seat.old.me.1) }
        ensures rises { AreBelow result seat.old.me.0.entries }
        ensures all { seat.old.me.0.shares ≡ 64 → result ≡ length seat.old.me.0.entries }
    {
        let _ = hands;
        let _ = entry;
        self.table.shared.fetch_add::<Ticket<J>>(seat, 0, 1)
    }
}
