//! Why a plan text is refused.

ghost use Rattle.std.specs.Prelude.{◌≡◌};
ghost use Rattle.certificates.specs.Words.{plan_code_word};

use np_frac::Memory;

/// What is wrong with a record.
#[derive(Clone, Copy, Debug, PartialEq, Eq)]
pub enum PlanCode {
    /// One of the first two records is not the one that has to stand there.
    Header,
    /// The first field is no word of a record.
    Unknown,
    /// The record has too many or too few fields.
    FieldCount,
    /// A name is used that the network does not define.
    NoSuchName,
    /// A period is none in which the name has an amount.
    BadPeriod,
    /// A number or a word is not one that may stand there.
    BadNumber,
    /// What the record gives was given before.
    Repeated,
    /// At `end` a part is missing without which the verdict says nothing.
    Missing,
    /// The text has no such record, and `end` was not read.
    NoEnd,
    /// A record stands behind `end`.
    AfterEnd,
}

impl PlanCode {
    /// The word of a fault, as it is printed: the name of its variant.
    #[tactic(auto, unfolding(crate::specs::Words::plan_code_word))]
    pub fn word(self) -> &'static [u8]
        ensures { result.now ≡ plan_code_word self }
    {
        match self {
            PlanCode::Header => b"Header",
            PlanCode::Unknown => b"Unknown",
            PlanCode::FieldCount => b"FieldCount",
            PlanCode::NoSuchName => b"NoSuchName",
            PlanCode::BadPeriod => b"BadPeriod",
            PlanCode::BadNumber => b"BadNumber",
            PlanCode::Repeated => b"Repeated",
            PlanCode::Missing => b"Missing",
            PlanCode::NoEnd => b"NoEnd",
            PlanCode::AfterEnd => b"AfterEnd",
        }
    }
}

/// Why a plan text was not read.
#[derive(Clone, Copy, Debug, PartialEq, Eq)]
pub enum PlanRefused {
    /// The first fault: the number of its record in the whole input, from 1, and what is wrong there.
    Fault { place: u32, code: PlanCode },
    /// Memory ran out.
    Memory,
}

impl From<Memory> for PlanRefused {
    ghost use Rattle.std.specs.Prelude.{◌≡◌};
    ghost use Rattle.certificates.specs.declared.refused.PlanRefused.TheVariants as refused;

    ghost from_gives = { λ _ e. e ≡ refused.Memory };

    fn from(_memory: Memory) -> PlanRefused {
        PlanRefused::Memory
    }
}

/// Why a record was not taken.
#[derive(Clone, Copy, PartialEq, Eq)]
pub(crate) enum Stop {
    /// The record has this fault.
    Fault(PlanCode),
    /// Memory ran out.
    Memory,
}

impl From<Memory> for Stop {
    ghost use Rattle.std.specs.Prelude.{◌≡◌};
    ghost use Rattle.certificates.specs.declared.refused.Stop.TheVariants as stop;

    ghost from_gives = { λ _ e. e ≡ stop.Memory };

    fn from(_memory: Memory) -> Stop {
        Stop::Memory
    }
}

impl From<PlanCode> for Stop {
    ghost use Rattle.std.specs.Prelude.{◌≡◌};
    ghost use Rattle.certificates.specs.declared.refused.Stop.TheVariants as stop;

    ghost from_gives = { λ c e. e ≡ stop.Fault c };

    fn from(code: PlanCode) -> Stop {
        Stop::Fault(code)
    }
}
