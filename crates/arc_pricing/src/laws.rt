//! The laws of prices, as the clauses of functions that do nothing.

ghost use Rattle.arc_pricing.specs.Laws.{PricesAreExact, EligibleByTest, CyclicHasAll};

/// What row A2 finds for an arc is its reduced cost by the potentials at its ends.
pub fn prices()
    ensures { PricesAreExact }
{}

/// The test of the list of candidates finds exactly the eligible arcs.
pub fn eligibility()
    ensures { EligibleByTest }
{}

/// The cyclic order has each number below the number of arcs.
pub fn cyclic_order()
    ensures { CyclicHasAll }
{}
