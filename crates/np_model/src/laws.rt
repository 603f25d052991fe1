//! The laws of generalised minimum-cost flow, as the clauses of functions that do nothing.

ghost use Rattle.np_model.specs.Network.Arcs.{ReducedExactly};
ghost use Rattle.np_model.specs.Network.Duality.{ReducedByEnds, WeakDuality, NoPlan, Falls};
ghost use Rattle.np_model.specs.Scheme.Convex.{StagesDuality, StagesFall};
ghost use Rattle.np_model.specs.Scheme.Plans.{PricesProve, PricesExclude, RaysProve};

/// The reduced cost of a link from i to j with cost c and gain g is `c - p(i) + g * p(j)`, that of a drain at v `c - p(v)`, and
/// that of a feed at v `c + p(v)`; what the operations of [`Ends::reduced_cost`](crate::Ends::reduced_cost) find is that ratio.
pub fn reduced_costs()
    ensures by_ends { ReducedByEnds }
    ensures exact { ReducedExactly }
{}

/// Weak duality: where a list of ratios is feasible and potentials show it optimal by complementary slackness, no
/// feasible list of ratios, of whatever size, costs less.
pub fn weak_duality()
    ensures { WeakDuality }
{}

/// Where potentials have a gap above 0, no list of ratios is feasible.
pub fn no_plan()
    ensures { NoPlan }
{}

/// Along a ray of unboundedness every cost is undercut by a feasible plan.
pub fn falls()
    ensures { Falls }
{}

/// Weak duality for convex costs: where the bounds of the staged arcs are in order and their slopes do not fall, amounts
/// are feasible, and potentials show them optimal segment by segment, no feasible list of ratios costs less.
pub fn convex_duality()
    ensures { StagesDuality }
{}

/// Where the bounds of the staged arcs are in order and their slopes do not fall, every cost is undercut by a feasible plan
/// along a ray of the staged arcs, by their convex cost.
pub fn convex_falls()
    ensures { StagesFall }
{}

/// A feasible plan of a scheme that prices show optimal, segment by segment, is a least-cost plan of the scheme.
pub fn optimal_by_prices()
    ensures { PricesProve }
{}

/// Where prices have a gap above 0, the scheme has no feasible plan.
pub fn infeasible_by_prices()
    ensures { PricesExclude }
{}

/// Where a scheme has a plan with a ray, every cost has a feasible plan of the scheme that costs less, by its convex cost.
pub fn unbounded_by_ray()
    ensures { RaysProve }
{}
