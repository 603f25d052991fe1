//! A plan as its text gives it: a verdict, and what shows it.

ghost use Rattle.std.specs.Prelude.{◌≡◌};

use crate::lists::Fracs;
use crate::log::Log;
use crate::rows::Overflow;
use np_frac::Frac;

/// What a plan claims.
#[derive(Clone, Copy, Debug, PartialEq, Eq)]
pub enum Verdict {
    /// No plan is cheaper.
    Optimal,
    /// There is no plan.
    Infeasible,
    /// Every cost is undercut by some plan.
    Unbounded,
    /// The pivot budget ended.
    Budget,
    /// An exact number did not fit a fraction of 128 bits.
    Overflow,
}

impl Verdict {
    ghost use Rattle.np_model.specs.Scheme.Verdicts.{verdict_word, parts_of};

    /// Its word, as it is printed.
    #[tactic(auto, unfolding(crate::specs::Scheme::Verdicts::verdict_word))]
    pub fn word(self) -> &'static [u8]
        ensures { result.now ≡ verdict_word self }
    {
        match self {
            Verdict::Optimal => b"optimal",
            Verdict::Infeasible => b"infeasible",
            Verdict::Unbounded => b"unbounded",
            Verdict::Budget => b"budget",
            Verdict::Overflow => b"overflow",
        }
    }

    /// The parts that a plan of this verdict has, beside its log.
    pub fn parts(self) -> Parts
        ensures { result ≡ parts_of self }
    {
        let none = Parts {
            cost: false,
            gap: false,
            arc: false,
            overflow: false,
            flows: false,
            prices: false,
            ray: false,
        };
        match self {
            Verdict::Optimal => Parts {
                cost: true,
                flows: true,
                prices: true,
                ..none
            },
            Verdict::Infeasible => Parts {
                gap: true,
                prices: true,
                ..none
            },
            Verdict::Unbounded => Parts {
                flows: true,
                ray: true,
                ..none
            },
            Verdict::Budget => Parts { arc: true, ..none },
            Verdict::Overflow => Parts {
                overflow: true,
                ..none
            },
        }
    }
}

/// Which parts a plan has, beside its log: a cost or a gap, the arc at which its budget ended, the operation that
/// overflowed, flows, prices, and a ray.
#[derive(Clone, Copy, Debug, PartialEq, Eq)]
pub struct Parts {
    pub cost: bool,
    pub gap: bool,
    pub arc: bool,
    pub overflow: bool,
    pub flows: bool,
    pub prices: bool,
    pub ray: bool,
}

/// A plan. `amount` is the cost of an optimal plan and the gap of an infeasible one. `flows` and `ray` have one
/// amount for each staged arc, by period and then in the order of the flows; `prices` has one for each node in
/// each period, as a scheme's supply. A verdict uses the parts that its text prints.
#[derive(Debug, Drop)]
pub struct Plan {
    pub verdict: Verdict,
    pub amount: Option<Frac>,
    pub flows: Fracs,
    pub prices: Fracs,
    pub ray: Fracs,
    pub arc: Option<u32>,
    pub overflow: Option<Overflow>,
    pub log: Log,
}
