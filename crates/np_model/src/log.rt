//! The pivots of a run.

ghost use Rattle.std.specs.Prelude.{◌≡◌};

use crate::lists::Entries;

/// Where an arc stands against the basis.
#[derive(Clone, Copy, Debug, PartialEq, Eq)]
pub enum Mark {
    /// Outside the basis, at its lower bound.
    Lower,
    /// Outside the basis, at its upper bound.
    Upper,
    /// In the basis.
    Basic,
}

impl Mark {
    ghost use Rattle.np_model.specs.Scheme.Verdicts.{mark_word};

    /// Its word, as it is printed.
    #[tactic(auto, unfolding(crate::specs::Scheme::Verdicts::mark_word))]
    pub fn word(self) -> &'static [u8]
        ensures { result.now ≡ mark_word self }
    {
        match self {
            Mark::Lower => b"lower",
            Mark::Upper => b"upper",
            Mark::Basic => b"basic",
        }
    }
}

/// A pivot: the arc that enters the basis, the arc that leaves it (the same one on a flip), and the bound at
/// which the leaving arc comes to rest.
#[derive(Clone, Copy, Debug, PartialEq, Eq)]
pub struct Entry {
    pub enter: u32,
    pub leave: u32,
    pub leave_at: Mark,
}

/// The pivots of a run, and after how many of them its second stage began, if it did.
#[derive(Debug, Drop)]
pub struct Log {
    pub turned: Option<u32>,
    pub entries: Entries,
}
