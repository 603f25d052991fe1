//! Why a text is refused.

ghost use Rattle.std.specs.Prelude.{◌≡◌};
ghost use Rattle.net_csv.specs.Words.{code_word};

use np_frac::Memory;

/// What is wrong with a record.
#[derive(Clone, Copy, Debug, PartialEq, Eq)]
pub enum Code {
    /// One of the first two records is not the one that has to stand there.
    Header,
    /// The first field is no word of a record.
    Unknown,
    /// The record has too many or too few fields.
    FieldCount,
    /// A name that is defined has the wrong length or a byte that no name has.
    BadName,
    /// A name is defined again.
    Repeated,
    /// A name is used that no record before defines.
    NoSuchName,
    /// A number is not written as one.
    BadNumber,
    /// A period is none of those of the text.
    BadPeriod,
    /// An arc ends where it begins.
    SameEnds,
    /// A gain is not above 0.
    BadGain,
    /// A lower bound is above the upper one, or a band has no width.
    BadBounds,
    /// A slope is below the one before it.
    NotConvex,
    /// A piece would begin at an infinite end.
    PieceAfterInfinite,
    /// There are too many nodes or arcs, counted over all periods.
    TooMany,
    /// The text has no such record, and `end` was not read.
    NoEnd,
    /// A record stands behind `end`.
    AfterEnd,
}

impl Code {
    /// The word of a fault, as it is printed: the name of its variant.
    #[tactic(auto, unfolding(crate::specs::Words::code_word))]
    pub fn word(self) -> &'static [u8]
        ensures { result.now ≡ code_word self }
    {
        match self {
            Code::Header => b"Header",
            Code::Unknown => b"Unknown",
            Code::FieldCount => b"FieldCount",
            Code::BadName => b"BadName",
            Code::Repeated => b"Repeated",
            Code::NoSuchName => b"NoSuchName",
            Code::BadNumber => b"BadNumber",
            Code::BadPeriod => b"BadPeriod",
            Code::SameEnds => b"SameEnds",
            Code::BadGain => b"BadGain",
            Code::BadBounds => b"BadBounds",
            Code::NotConvex => b"NotConvex",
            Code::PieceAfterInfinite => b"PieceAfterInfinite",
            Code::TooMany => b"TooMany",
            Code::NoEnd => b"NoEnd",
            Code::AfterEnd => b"AfterEnd",
        }
    }
}

/// Why a text was not read.
#[derive(Clone, Copy, Debug, PartialEq, Eq)]
pub enum Refused {
    /// The first fault: the number of its record, from 1, and what is wrong there.
    Fault { place: u32, code: Code },
    /// Memory ran out.
    Memory,
}

impl From<Memory> for Refused {
    ghost use Rattle.std.specs.Prelude.{◌≡◌};
    ghost use Rattle.net_csv.specs.declared.refused.Refused.TheVariants as refused;

    ghost from_gives = { λ _ e. e ≡ refused.Memory };

    fn from(_memory: Memory) -> Refused {
        Refused::Memory
    }
}

/// What may stand behind `end`.
#[derive(Clone, Copy, Debug, PartialEq, Eq)]
pub enum Tail {
    /// Nothing: a record there is a fault.
    Nothing,
    /// A plan text: reading stops at `end`.
    Plan,
}

/// Why a record was not taken.
#[derive(Clone, Copy, PartialEq, Eq)]
pub(crate) enum Stop {
    /// The record has this fault.
    Fault(Code),
    /// Memory ran out.
    Memory,
}

impl From<Memory> for Stop {
    ghost use Rattle.std.specs.Prelude.{◌≡◌};
    ghost use Rattle.net_csv.specs.declared.refused.Stop.TheVariants as stop;

    ghost from_gives = { λ _ e. e ≡ stop.Memory };

    fn from(_memory: Memory) -> Stop {
        Stop::Memory
    }
}

impl From<Code> for Stop {
    ghost use Rattle.std.specs.Prelude.{◌≡◌};
    ghost use Rattle.net_csv.specs.declared.refused.Stop.TheVariants as stop;

    ghost from_gives = { λ c e. e ≡ stop.Fault c };

    fn from(code: Code) -> Stop {
        Stop::Fault(code)
    }
}
