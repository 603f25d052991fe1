//! The laws of forests and of what a table tells of them, as the clauses of functions that do nothing.

ghost use Rattle.pivot_workers.specs.Laws.{TurnsArePivots, ForestIsKept};

/// A pivot that a table tells of is one of the state whose pieces there were, and the pieces after it are those of the state after.
pub fn forests()
    ensures pivots { TurnsArePivots }
    ensures kept { ForestIsKept }
{}
