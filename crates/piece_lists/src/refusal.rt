//! Why a move is not made.

use np_frac::Memory;
use np_model::Overflow;

/// Why a move is not made.
#[derive(Clone, Copy, Debug, PartialEq, Eq)]
pub enum MoveRefusal {
    /// An operation of the move overflows.
    Past(Overflow),
    /// There is not enough memory.
    Memory,
}

impl From<Memory> for MoveRefusal {
    ghost use Rattle.std.specs.Prelude.{◌≡◌};
    ghost use Rattle.piece_lists.specs.declared.refusal.MoveRefusal.TheVariants as refusal;

    ghost from_gives = { λ _ e. e ≡ refusal.Memory };

    fn from(_memory: Memory) -> MoveRefusal {
        MoveRefusal::Memory
    }
}
