//! Laws of plan texts and of what a run has ended in, each as the clause of a function that does nothing.

ghost use Rattle.std.specs.Prelude.{◌≡◌, ◌≢◌, ℕ, Bool, List, [], None};
ghost use Rattle.std.specs.List.{All};
ghost use Rattle.np_model.specs.declared.plan.Plan.{Plan};
ghost use Rattle.np_model.specs.declared.scheme.Scheme.{Scheme};
ghost use Rattle.np_model.specs.Scheme.Fits.{PlanFits};
ghost use Rattle.np_records.specs.Records.{records_of};
ghost use Rattle.np_records.specs.Texts.{records_text};
ghost use Rattle.certificates.specs.Certificates.{OptimalShows, InfeasibleForbids, UnboundedFalls, EndedPartsFit, EndedLogFits};
ghost use Rattle.certificates.specs.Claims.{outline_of};
ghost use Rattle.certificates.specs.Grammar.{IsPlanOf, plan_fault};
ghost use Rattle.certificates.specs.Reading.{StandsForAPlan, IsReadAs};
ghost use Rattle.certificates.specs.Writing.{plan_rows, told, HasFractions};

use convex_arcs::laws::{filled_plans, other_verdicts, schemes};
use np_runs::laws::{outcomes, parts};
use period_expand::laws::expansions;

/// An outcome that a run over the expanded network of a scheme has ended in shows its verdict of the scheme itself: the amounts that optimal
/// flows are gathered to are a feasible plan, as the potentials show; potentials of an infeasible network certify that the scheme
/// has no plan; and gathered flows and ray that every cost has a cheaper one. Its parts fit a plan, and where the budget is at most a million
/// pivots its log does.
pub fn ended_outcomes()
    ensures optimal { OptimalShows }
    ensures infeasible { InfeasibleForbids }
    ensures unbounded { UnboundedFalls }
    ensures parts { EndedPartsFit }
    ensures log { EndedLogFits }
{
    outcomes();
    parts();
    expansions();
    schemes();
    convex_arcs::laws::amounts();
    filled_plans();
    other_verdicts();
}

/// For a scheme, records are those of at most one plan.
pub fn one_plan()
    ensures { (scheme : Scheme) (rows : List (List (List ℕ))) (first second : Plan)
        → IsPlanOf scheme rows first → IsPlanOf scheme rows second → first ≡ second }
{}

/// Records without a fault, behind whatever others, are those of a plan, and it fits the scheme.
pub fn some_plan()
    ensures { (skip : ℕ) (scheme : Scheme) (rows : List (List (List ℕ)))
        → plan_fault skip (outline_of scheme) rows ≡ None → StandsForAPlan scheme rows }
{}

/// The records that are written for a plan have no fault, and they are those of what they tell of it.
pub fn written_plans_are_read()
    ensures read { (scheme : Scheme) (plan : Plan) (log : Bool) → PlanFits scheme plan → HasFractions (told plan log)
        → IsReadAs scheme (plan_rows scheme plan log) (told plan log) }

    // Their bytes are read as these records.
    ensures bytes { (scheme : Scheme) (plan : Plan) (log : Bool) → PlanFits scheme plan → HasFractions (told plan log)
        → records_of (records_text (plan_rows scheme plan log)) ≡ plan_rows scheme plan log }

    // Each of them has a field, as a text needs that may stand behind others.
    ensures full { (scheme : Scheme) (plan : Plan) (log : Bool) → PlanFits scheme plan → HasFractions (told plan log)
        → All (λ fields. fields ≢ []) (plan_rows scheme plan log) }
{}
