//! Why a piece has no new potentials.

ghost use Rattle.std.specs.Prelude.{◌≡◌};
ghost use Rattle.tree_potentials.specs.Along.{overflow_at_turn};

use np_frac::{Memory, Past};
use np_model::{Overflow, Place, Row};

/// Why a piece has no new potentials.
#[derive(Clone, Copy, Debug, PartialEq, Eq)]
pub enum PotentialRefusal {
    /// An operation of row A3 or A7 overflows on the piece.
    Past(Overflow),
    /// There is not enough memory.
    Memory,
}

impl From<Memory> for PotentialRefusal {
    ghost use Rattle.std.specs.Prelude.{◌≡◌};
    ghost use Rattle.tree_potentials.specs.declared.refusal.PotentialRefusal.TheVariants as refusal;

    ghost from_gives = { λ _ e. e ≡ refusal.Memory };

    fn from(_memory: Memory) -> PotentialRefusal {
        PotentialRefusal::Memory
    }
}

// An overflow in this row, told as one of the turn to stage two.
pub(crate) fn at_turn(row: Row, past: Past) -> Overflow
    ensures { result ≡ overflow_at_turn row past }
{
    Overflow {
        row,
        place: Place::Turn,
        past,
    }
}
