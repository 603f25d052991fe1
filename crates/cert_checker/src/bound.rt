//! The bounds of the flows.

ghost use Rattle.std.specs.Prelude.{◌≡◌, length, map};
ghost use Rattle.std.specs.List.{zip};
ghost use Rattle.cert_checker.specs.Walk.{bound_clause, first_refusal, goes_on_unless};
ghost use Rattle.cert_checker.specs.Steps.Arcs.{as_stage};

use crate::answer::{CheckRefusal, Clause};
use crate::segment::end_of;
use crate::staged::StagedArc;
use np_frac::Frac;
use np_model::CheckRow;

// Whether a flow is at least its lower bound and at most its last end.
fn check_bound(arc: &StagedArc, amount: Frac) -> Result<(), CheckRefusal>
    ensures { result ≡ goes_on_unless (bound_clause (as_stage arc.now, amount)) }
{
    match end_of(arc.flow) {
        Ok(end) => {
            if amount.is_below(arc.flow.lower) || !end.is_at_least(amount) {
                return Err(arc.reject(Clause::Bound));
            }
            Ok(())
        }
        Err(past) => Err(CheckRefusal::Past {
            row: CheckRow::C2,
            past,
        }),
    }
}

/// Whether all flows keep their bounds: the first that does not, or of which an end overflows.
pub fn check_bounds(arcs: &[StagedArc], amounts: &[Frac]) -> Result<(), CheckRefusal>
    requires { length amounts.now ≡ length arcs.now }
    ensures { result ≡ goes_on_unless (first_refusal bound_clause (zip (map as_stage arcs.now) amounts.now)) }
{
    for i in 0..arcs.len() {
        check_bound(&arcs[i], amounts[i])?;
    }
    Ok(())
}
