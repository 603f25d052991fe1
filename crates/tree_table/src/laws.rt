//! The laws of what a table tells, as the clauses of functions that do nothing.

ghost use Rattle.tree_table.specs.Laws.{MembersAreThere, OthersAreLeft, OpeningIsSeen, SeenIsKept, OneIsSeen, NextIsSeen, LogIsOne};

/// Lists compared by weight: pieces that are among others are members of them, and there are the pieces beside them.
pub fn weights()
    ensures members { MembersAreThere }
    ensures others { OthersAreLeft }
{}

/// The pieces that a pass has seen: at first those that the table was set up with. They rest on what that was, and on the entries and the shares of
/// the pass. With all shares they are the same at every look, and after the next pivot the pieces after it are in the place of those before it.
pub fn seen()
    ensures opening { OpeningIsSeen }
    ensures kept { SeenIsKept }
    ensures one { OneIsSeen }
    ensures next { NextIsSeen }
{}

/// Tickets put entries in order: two logs with the same pivots under the same tickets have the same entries, one after the other.
pub fn tickets()
    ensures { LogIsOne }
{}
