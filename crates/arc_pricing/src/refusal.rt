//! Why there is no list of candidates.

use np_frac::Memory;
use np_model::Overflow;

/// Why there is no list of candidates.
#[derive(Clone, Copy, Debug, PartialEq, Eq)]
pub enum PriceRefusal {
    /// An operation of row A2 overflows: that of the first arc, in the order of the list, whose price has one.
    Past(Overflow),
    /// There is not enough memory.
    Memory,
}

impl From<Memory> for PriceRefusal {
    ghost use Rattle.std.specs.Prelude.{◌≡◌};
    ghost use Rattle.arc_pricing.specs.declared.refusal.PriceRefusal.TheVariants as refusal;

    ghost from_gives = { λ _ e. e ≡ refusal.Memory };

    fn from(_memory: Memory) -> PriceRefusal {
        PriceRefusal::Memory
    }
}
