//! The laws of the pieces of the start, as the clauses of a function that does nothing.

ghost use Rattle.quasi_tree.specs.Laws.{FlowsByResiduals, PotentialsByResiduals, PiecesByResiduals};

/// Where the artificial arcs are those that the residuals ask for, the flows, potentials and pieces of the start are those that the residuals give.
pub fn starts()
    ensures flows { FlowsByResiduals }
    ensures potentials { PotentialsByResiduals }
    ensures pieces { PiecesByResiduals }
{}
