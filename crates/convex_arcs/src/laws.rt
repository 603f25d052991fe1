//! Where each segment stands, and what the flows of the segments come to, as the clauses of functions that do nothing.

ghost use Rattle.convex_arcs.specs.Gathered.{GatheredIsExact, AmountsByPlace, AmountsBalance, AmountsFeasible, AmountsCostNoMore};
ghost use Rattle.convex_arcs.specs.Filled.{FilledIsFeasible, FilledCostsTheSame, FilledGathersBack, GatheredIsLeast, LeastPlansFill, GatheredIsShown, ForbidsPlans, GatheredFalls};
ghost use Rattle.convex_arcs.specs.Schemes.{ExpandedIsNet, LeastFlowsGather, LeastPlansAreFilled};
ghost use Rattle.convex_arcs.specs.Segments.{SegmentsStandInOrder, HasNoOtherSegments};

use period_expand::laws::expansions;

/// Segment `k` (from 0) of a staged arc stands behind the segments of all staged arcs before it and behind `k` of its
/// own, and there are no other arcs.
pub fn places()
    ensures each { SegmentsStandInOrder }
    ensures no_others { HasNoOtherSegments }
{}

/// What is gathered are the exact sums of the flows of the segments of each staged arc, and they balance at each node as
/// the flows do. Where the flows are feasible for the arcs of the segments, the amounts are feasible, and where slopes
/// do not fall, they cost no more than the flows.
pub fn amounts()
    ensures exact { GatheredIsExact }
    ensures by_place { AmountsByPlace }
    ensures balance { AmountsBalance }
    ensures feasible { AmountsFeasible }
    ensures cost { AmountsCostNoMore }
{}

/// A feasible plan of the staged arcs, filled into the segments in order, is feasible for their arcs, costs the same
/// and gathers back to itself. So flows of least cost for the arcs of the segments gather to amounts of least cost for
/// the staged arcs, and a plan of least cost fills into flows of least cost: the least cost is the same. Prices that show
/// the flows show the amounts.
pub fn filled_plans()
    ensures feasible { FilledIsFeasible }
    ensures cost { FilledCostsTheSame }
    ensures gathered { FilledGathersBack }
    ensures least { GatheredIsLeast }
    ensures fills { LeastPlansFill }
    ensures shown { GatheredIsShown }
{}

/// The expanded network of a scheme is a valid network, and has the scheme's least cost: its flows of least cost are gathered to a plan of least
/// cost of the scheme, at equal cost, and a plan of least cost of the scheme fills in flows of least cost.
pub fn schemes()
    ensures net { ExpandedIsNet }
    ensures gathers { LeastFlowsGather }
    ensures fills { LeastPlansAreFilled }
{
    expansions();
}

/// Prices that certify that no flows are feasible for the arcs of the segments certify that the staged arcs have no
/// plan, with the same gap, and a ray of the flows gives one of the amounts.
pub fn other_verdicts()
    ensures forbidden { ForbidsPlans }
    ensures falls { GatheredFalls }
{}
