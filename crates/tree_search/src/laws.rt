//! The laws of searches over the arcs of a piece, as the clauses of functions that do nothing.

ghost use Rattle.tree_search.specs.Outwards.{SearchesGoOutwards, SearchesAreInOrder};

/// The steps of a search from the nodes of the extra arc are the links that hang off it: each with its near and its far end, all of them, and
/// to each other node of the piece one.
pub fn outwards()
    ensures { SearchesGoOutwards }
{}

/// The steps of the cycle but its last, and then those of such a search, are all that leads outwards from the least node of the cycle, or
/// from the node of the arc with one end: in an order in which each begins at a node that was reached before, and all nodes are reached.
pub fn in_order()
    ensures { SearchesAreInOrder }
{}
