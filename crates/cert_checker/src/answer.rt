//! What the checker answers.

ghost use Rattle.std.specs.Prelude.{◌≡◌};

use np_frac::{Frac, Memory, Past};
use np_model::CheckRow;

/// A clause of the walk.
#[derive(Clone, Copy, Debug, PartialEq, Eq)]
pub enum Clause {
    /// The flows at a node balance its supply.
    Balance,
    /// A flow is within its bounds.
    Bound,
    /// The reduced cost of a flow has the sign that its amount asks for.
    Reduced,
    /// The flows cost what the plan says.
    Cost,
    /// A flow with a reduced cost below 0 has an upper bound, where all costs are taken as 0.
    Upper,
    /// The gap of the prices is above 0, and is what the plan says.
    Gap,
    /// An amount of the ray is not below 0.
    RaySign,
    /// A flow along which the ray runs has no upper bound.
    RayUpper,
    /// The ray balances at a node.
    RayBalance,
    /// The cost of the ray is below 0.
    RayCost,
    /// A plan whose verdict is that the budget ended or a number did not fit shows nothing.
    Uncertified,
}

impl Clause {
    ghost use Rattle.cert_checker.specs.Words.{clause_word};

    /// Its word, as it is printed.
    #[tactic(auto, unfolding(crate::specs::Words::clause_word))]
    pub fn word(self) -> &'static [u8]
        ensures { result.now ≡ clause_word self }
    {
        match self {
            Clause::Balance => b"balance",
            Clause::Bound => b"bound",
            Clause::Reduced => b"reduced",
            Clause::Cost => b"cost",
            Clause::Upper => b"upper",
            Clause::Gap => b"gap",
            Clause::RaySign => b"ray-sign",
            Clause::RayUpper => b"ray-upper",
            Clause::RayBalance => b"ray-balance",
            Clause::RayCost => b"ray-cost",
            Clause::Uncertified => b"uncertified",
        }
    }
}

/// What a plan was shown to be.
#[derive(Clone, Copy, Debug, PartialEq, Eq)]
pub enum Checked {
    /// A least-cost plan, with its cost.
    Optimal(Frac),
    /// There is no plan, as prices with this gap show.
    Infeasible(Frac),
    /// Every cost is undercut by some plan.
    Unbounded,
}

/// Why a plan was not accepted.
#[derive(Clone, Copy, Debug, PartialEq, Eq)]
pub enum CheckRefusal {
    /// The first place of the walk where a clause fails: a node of the scheme for the balance clauses, a flow for the
    /// others, with its period; the clauses of a whole plan have no name and period 0.
    Reject {
        clause: Clause,
        name: Option<u32>,
        period: u32,
    },
    /// The first operation of the walk that overflows, whose exact result does not fit a fraction, and the row that it
    /// stands in.
    Past {
        row: CheckRow,
        past: Past,
    },
    /// Want of memory.
    Memory,
}

impl From<Memory> for CheckRefusal {
    ghost use Rattle.std.specs.Prelude.{◌≡◌};
    ghost use Rattle.cert_checker.specs.declared.answer.CheckRefusal.TheVariants as refusal;

    ghost from_gives = { λ _ e. e ≡ refusal.Memory };

    fn from(_memory: Memory) -> CheckRefusal {
        CheckRefusal::Memory
    }
}
