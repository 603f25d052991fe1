//! The pieces of a pivot that can be made.

ghost use Rattle.std.specs.Prelude.{◌≡◌};

use np_model::Hands;
use quasi_tree::Quasi;
use std::marker::Model;

/// The pieces after a pivot that is prepared: one, or two with the lesser least node first.
#[derive(Debug, Drop)]
pub struct Change {
    pub(crate) pieces: Hands<Quasi>,
}

impl Model for Change {
    ghost use Rattle.np_model.specs.declared.piece.Hands.{Hands};
    ghost use Rattle.quasi_tree.specs.Store.{Store};

    ghost Value = { Hands Store };

    ghost view = { λ change. change.pieces };
}

/// The pieces after a pivot that is prepared, in place of those before it: one, or two with the lesser least node first. Takes no memory.
pub fn apply(change: Change) -> Hands<Quasi>
    ensures { result ≡ change }
{
    change.pieces
}
