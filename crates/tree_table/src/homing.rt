//! The pieces in hand go home: first slots are opened and shut, and then the pieces are put.

ghost use Rattle.std.specs.Prelude.{◌≡◌, ◌≢◌, ◌<◌, [], ◌∷◌, map, None};
ghost use Rattle.tree_table.specs.Slots.{LiesAt};
ghost use Rattle.tree_table.specs.Passes.{IsOpen};
ghost use Rattle.tree_table.specs.Steps.Tokens.{IsSameSeat};
ghost use Rattle.tree_table.specs.Calls.{emptied, lists_in};
ghost use Rattle.tree_table.specs.Steps.Kept.{slots_in, GoHome};

use crate::pass::Slots;
use crate::table::{Token, TreeTable};
use np_model::{Hands, Piece};

impl<T: Piece> TreeTable<T> {
    // One piece, from one slot.
    fn home_one(&self, seat: &mut Token<T>, a: u32, p: T)
        requires table { seat.old.table_id ≡ self.now.table.shared.table_id }
        requires near { a < seat.old.table_id.slots }
        requires live { IsOpen seat.old.me.0 }
        requires out { seat.old.me.1 ≡ (a, None) ∷ [] }
        requires slots { seat.old.me.0.slots ≡ a ∷ [] }
        requires hands { seat.old.me.0.hands ≡ T.lists p ∷ [] }
        requires lies { LiesAt a (T.lists p) }
        ensures same { IsSameSeat seat.old seat.new }
        ensures after { seat.new.me ≡ (emptied seat.old.me.0, []) }
    {
        self.put_slot(seat, a, p);
    }

    // Two pieces, from their two slots, of which the second one was taken last.
    fn home_two(&self, seat: &mut Token<T>, a: u32, d: u32, p: T, q: T)
        requires table { seat.old.table_id ≡ self.now.table.shared.table_id }
        requires near { (a < seat.old.table_id.slots) × (d < seat.old.table_id.slots) × (a ≢ d) }
        requires live { IsOpen seat.old.me.0 }
        requires out { seat.old.me.1 ≡ (d, None) ∷ (a, None) ∷ [] }
        requires slots { seat.old.me.0.slots ≡ d ∷ a ∷ [] }
        requires hands { seat.old.me.0.hands ≡ T.lists p ∷ T.lists q ∷ [] }
        requires lies { LiesAt a (T.lists p) × LiesAt d (T.lists q) }
        ensures same { IsSameSeat seat.old seat.new }
        ensures after { seat.new.me ≡ (emptied seat.old.me.0, []) }
    {
        self.put_slot(seat, d, q);
        self.home_one(seat, a, p);
    }

    // One piece, from two slots: the second one is shut.
    fn home_merged(&self, seat: &mut Token<T>, first: u32, last: u32, whole: T)
        requires table { seat.old.table_id ≡ self.now.table.shared.table_id }
        requires near { (first < seat.old.table_id.slots) × (last < seat.old.table_id.slots) × (first ≢ last) }
        requires live { IsOpen seat.old.me.0 }
        requires out { seat.old.me.1 ≡ (last, None) ∷ (first, None) ∷ [] }
        requires slots { seat.old.me.0.slots ≡ last ∷ first ∷ [] }
        requires hands { seat.old.me.0.hands ≡ T.lists whole ∷ [] }
        requires lies { LiesAt first (T.lists whole) }
        ensures same { IsSameSeat seat.old seat.new }
        ensures after { seat.new.me ≡ (emptied seat.old.me.0, []) }
    {
        self.shut_slot(seat, last);
        self.home_one(seat, first, whole);
    }

    // Two pieces, from one slot: that of the second piece is opened.
    fn home_split(&self, seat: &mut Token<T>, a: u32, d: u32, p: T, q: T)
        requires table { seat.old.table_id ≡ self.now.table.shared.table_id }
        requires near { (a < seat.old.table_id.slots) × (d < seat.old.table_id.slots) × (a ≢ d) }
        requires live { IsOpen seat.old.me.0 }
        requires out { seat.old.me.1 ≡ (a, None) ∷ [] }
        requires slots { seat.old.me.0.slots ≡ a ∷ [] }
        requires hands { seat.old.me.0.hands ≡ T.lists p ∷ T.lists q ∷ [] }
        requires lies { LiesAt a (T.lists p) × LiesAt d (T.lists q) }
        ensures same { IsSameSeat seat.old seat.new }
        ensures after { seat.new.me ≡ (emptied seat.old.me.0, []) }
    {
        self.open_slot(seat, d);
        self.home_two(seat, a, d, p, q);
    }

    // Two pieces, from two slots of which the second one is not that of the second piece: this one is opened, and that one shut.
    fn home_moved(&self, seat: &mut Token<T>, a: u32, b: u32, d: u32, p: T, q: T)
        requires table { seat.old.table_id ≡ self.now.table.shared.table_id }
        requires near { (a < seat.old.table_id.slots) × (b < seat.old.table_id.slots) × (d < seat.old.table_id.slots) × (a ≢ b) × (a ≢ d) × (b ≢ d) }
        requires live { IsOpen seat.old.me.0 }
        requires out { seat.old.me.1 ≡ (b, None) ∷ (a, None) ∷ [] }
        requires slots { seat.old.me.0.slots ≡ b ∷ a ∷ [] }
        requires hands { seat.old.me.0.hands ≡ T.lists p ∷ T.lists q ∷ [] }
        requires lies { LiesAt a (T.lists p) × LiesAt d (T.lists q) }
        ensures same { IsSameSeat seat.old seat.new }
        ensures after { seat.new.me ≡ (emptied seat.old.me.0, []) }
    {
        self.open_slot(seat, d);
        seat.turn();
        self.shut_slot(seat, b);
        self.put_slot(seat, a, p);
        self.home_one(seat, d, q);
    }

    // The pieces in hand, from the slots that are taken.
    pub(crate) fn home_all(&self, seat: &mut Token<T>, slots: Slots, hands: Hands<T>)
        requires table { seat.old.table_id ≡ self.now.table.shared.table_id }
        requires live { IsOpen seat.old.me.0 }
        requires slots { seat.old.me.0.slots ≡ slots_in slots }
        requires out { seat.old.me.1 ≡ map (λ k. (k, None)) (slots_in slots) }
        requires hands { seat.old.me.0.hands ≡ lists_in T.lists hands }
        requires go_home { GoHome seat.old.table_id.slots (slots_in slots) (lists_in T.lists hands) }
        ensures same { IsSameSeat seat.old seat.new }
        ensures after { seat.new.me ≡ (emptied seat.old.me.0, []) }
    {
        match hands {
            Hands::One(p) => match slots {
                Slots::None => unreachable!(),
                Slots::One(a) => self.home_one(seat, a, p),
                Slots::Two(a, b) => self.home_merged(seat, a, b, p),
            },
            Hands::Two(p, q) => match slots {
                Slots::None => unreachable!(),
                Slots::One(a) => {
                    let d = q.least();
                    self.home_split(seat, a, d, p, q);
                }
                Slots::Two(a, b) => {
                    let d = q.least();
                    if b == d {
                        self.home_two(seat, a, d, p, q);
                    } else {
                        self.home_moved(seat, a, b, d, p, q);
                    }
                }
            },
        }
    }
}
