//! Why an entering arc has no direction.

ghost use Rattle.std.specs.Prelude.{◌≡◌};
ghost use Rattle.tree_flows.specs.Along.{overflow_at};

use np_frac::{Memory, Past};
use np_model::{Overflow, Place, Row};

/// Why an entering arc has no direction.
#[derive(Clone, Copy, Debug, PartialEq, Eq)]
pub enum DirRefusal {
    /// An operation of row A3 or A4 overflows on one of the pieces.
    Past(Overflow),
    /// There is not enough memory.
    Memory,
}

impl From<Memory> for DirRefusal {
    ghost use Rattle.std.specs.Prelude.{◌≡◌};
    ghost use Rattle.tree_flows.specs.declared.refusal.DirRefusal.TheVariants as refusal;

    ghost from_gives = { λ _ e. e ≡ refusal.Memory };

    fn from(_memory: Memory) -> DirRefusal {
        DirRefusal::Memory
    }
}

// An overflow in this row, told as one of the entering arc.
pub(crate) fn at_arc(enter: u32, row: Row, past: Past) -> Overflow
    ensures { result ≡ overflow_at enter row past }
{
    Overflow {
        row,
        place: Place::Arc(enter),
        past,
    }
}
