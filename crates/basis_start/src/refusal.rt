//! Why there is no start.

use np_frac::Memory;
use np_model::Overflow;

/// Why there is no start.
#[derive(Clone, Copy, Debug, PartialEq, Eq)]
pub enum StartRefusal {
    /// An operation of row A1 overflows: the first one at the first node where one does.
    Past(Overflow),
    /// There is not enough memory.
    Memory,
}

impl From<Memory> for StartRefusal {
    ghost use Rattle.std.specs.Prelude.{◌≡◌};
    ghost use Rattle.basis_start.specs.declared.refusal.StartRefusal.TheVariants as refusal;

    ghost from_gives = { λ _ e. e ≡ refusal.Memory };

    fn from(_memory: Memory) -> StartRefusal {
        StartRefusal::Memory
    }
}
