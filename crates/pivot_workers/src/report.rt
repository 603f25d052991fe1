//! What workers tell.

ghost use Rattle.std.specs.Prelude.{◌≡◌, ◌+◌, ◌<◌, ◌^◌, false};

use np_model::Entries;

/// What a worker did, or several did.
#[derive(Clone, Copy, Debug, PartialEq, Eq)]
pub struct Report {
    /// How many pivots were made.
    pub pivots: u32,
    /// Whether there was not enough memory for some of the work, which was left undone.
    pub memory: bool,
}

impl Report {
    // What both did.
    pub(crate) fn with(self, other: Report) -> Report
        requires { self.pivots + other.pivots < 2 ^ 32 }
        ensures pivots { result.pivots ≡ self.pivots + other.pivots }
        ensures memory { result.memory ≡ false → (self.memory ≡ false) × (other.memory ≡ false) }
    {
        Report {
            pivots: self.pivots + other.pivots,
            memory: self.memory || other.memory,
        }
    }
}

/// What a round gives.
#[derive(Debug, Drop)]
pub struct Round<T> {
    /// The pieces of the state that the entries lead to, by ascending least node.
    pub pieces: Vec<T>,
    /// The entries of the pivots, in order.
    pub entries: Entries,
    pub report: Report,
}
