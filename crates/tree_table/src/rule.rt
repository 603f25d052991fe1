//! The rule of the table, and the kinds of step.

ghost use Rattle.std.specs.Prelude.{map};
ghost use Rattle.tree_table.specs.Passes.{opening_of, opening_view};
ghost use Rattle.tree_table.specs.Whole.{IsWhole};
ghost use Rattle.tree_table.specs.Kinds.{tried, put, opened, shut, ticketed, looked, half, other_half, folded, spent_view};

use crate::view::Shown;
use atomic_table::{Join, Play, Split, TableRule};
use np_model::{FullNet, Phase, Piece};
use std::marker::{Brand, PhantomData};
use std::snapshot::Snapshot;

/// What a table is told when it is made.
#[derive(Drop)]
pub struct Start<T> {
    pub full: Snapshot<FullNet>,
    pub phase: Snapshot<Phase>,
    pub pieces: Snapshot<Vec<T>>,
}

/// The table is whole between any two steps.
pub struct Ruled<T> {
    of: PhantomData<T>,
}

impl<T: Piece> TableRule<Option<T>, Shown, Start<T>> for Ruled<T> {
    ghost holds = { λ start. IsWhole T.lists (opening_of start.full.value start.phase.value (map T.lists start.pieces.value.items)) };

    ghost first = { λ start. opening_view (opening_of start.full.value start.phase.value (map T.lists start.pieces.value.items)) };
}

/// A take, and a look at a claim word.
pub struct Take<T> {
    of: PhantomData<T>,
}

impl<T: Piece> Play<Option<T>, Shown> for Take<T> {
    ghost then = { tried T.lists };
}

/// A put.
pub struct Put;

impl<T> Play<Option<T>, Shown> for Put {
    ghost then = { put };
}

/// An opening of a slot.
pub struct Open;

impl<T> Play<Option<T>, Shown> for Open {
    ghost then = { opened };
}

/// A shutting of a slot.
pub struct Shut;

impl<T> Play<Option<T>, Shown> for Shut {
    ghost then = { shut };
}

/// A look at the clock, of fork and fold.
pub struct Look<T> {
    of: PhantomData<T>,
}

impl<T: Piece> Play<Option<T>, Shown> for Look<T> {
    ghost then = { looked T.lists };
}

/// The pivot that a ticket is drawn for. Each call picks it.
pub trait Pivot {
    ghost use Rattle.std.specs.Prelude.{List};
    ghost use Rattle.np_model.specs.Basis.Pieces.{PieceLists};
    ghost use Rattle.np_model.specs.declared.log.Entry.{Entry};

    ghost entry: { Entry };

    ghost after: { List PieceLists };
}

impl Pivot for Brand {
    ghost use Rattle.std.specs.Prelude.{[]};
    ghost use Rattle.np_model.specs.declared.log.Mark.TheVariants.{Lower};

    ghost entry = { record { enter = 0; leave = 0; leave_at = Lower } };

    ghost after = { [] };
}

/// The drawing of a ticket.
pub struct Ticket<J> {
    of: PhantomData<J>,
}

impl<T, J: Pivot> Play<Option<T>, Shown> for Ticket<J> {
    ghost then = { ticketed J.entry J.after };
}

/// How shares are split.
pub struct Halves;

impl Split<Shown> for Halves {
    ghost left = { half };

    ghost right = { other_half };
}

/// How two passes become one.
pub struct Both;

impl Join<Shown> for Both {
    ghost both = { folded };

    ghost spent = { spent_view };
}
