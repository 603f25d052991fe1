//! Laws of the demo network, as the clauses of a function that does nothing.

ghost use Rattle.demo_network.specs.Plans.{HasPlan, IsNotForbidden, FallsNowhere};

use np_model::laws::infeasible_by_prices;

/// The demo network has a feasible plan: what is too much at a node drains away, what it lacks is bought, and nothing else
/// flows. So no prices certify that there is none. No cost of it is below 0, so along no ray do costs fall without end.
pub fn demo_has_plans()
    ensures plan { HasPlan }
    ensures not_forbidden { IsNotForbidden }
    ensures falls_nowhere { FallsNowhere }
{
    infeasible_by_prices();
}
