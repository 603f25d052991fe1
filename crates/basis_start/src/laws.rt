//! The law of residuals, as the clauses of a function that does nothing.

ghost use Rattle.basis_start.specs.Laws.{ResidualsAreExact, ResidualsFitWhereFound};

/// What the operations of row A1 find is the residual of the node: its supply less the balance of the lower bounds there.
pub fn residuals()
    ensures exact { ResidualsAreExact }
    ensures fit { ResidualsFitWhereFound }
{}
