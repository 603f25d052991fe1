//! The laws of the ratio test, as the clauses of functions that do nothing.

ghost use Rattle.ratio_test.specs.Laws.{FlipIsMove, LeaveIsMove, AnswerIsUnique};

/// Where the direction is that of the entering arc from its bound, the answer is the move of a pivot: on a flip the entering arc leaves at
/// its other bound, and else the arc of the answer.
pub fn moves()
    ensures flip { FlipIsMove }
    ensures leave { LeaveIsMove }
{}

/// No direction has two answers.
pub fn one_answer()
    ensures { AnswerIsUnique }
{}
