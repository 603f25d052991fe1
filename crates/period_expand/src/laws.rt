//! What each expansion is, and where each staged arc stands, as the clauses of functions that do nothing.

ghost use Rattle.np_model.specs.declared.scheme.Scheme.{Scheme};
ghost use Rattle.np_model.specs.Scheme.Plans.{staged};
ghost use Rattle.period_expand.specs.Expansion.{IsExpansion};
ghost use Rattle.period_expand.specs.Places.{StandsAtItsPlace, HasNoOthers};

/// By period and then by the order of the flows: the arc of flow `f` (from 0) in period `P` (from 1) stands behind one
/// arc of each flow for each earlier period, and behind those of the earlier flows in its own. A hold has none in the
/// last period, and there are no other arcs.
pub fn places()
    ensures each { StandsAtItsPlace }
    ensures no_others { HasNoOthers }
{}

/// The staged arcs of every scheme are an expansion: few nodes and segments, and each arc joins nodes, with a gain above
/// 0, bounds in order and slopes that do not fall.
pub fn expansions()
    ensures { (scheme : Scheme) → IsExpansion scheme.supply (staged scheme) }
{}
