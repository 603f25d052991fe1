//! Laws of the walk, each as the clause of a function that does nothing.

ghost use Rattle.cert_checker.specs.Laws.{WalkProves, WalkEnds, AcceptsOptimal, AcceptsInfeasible, AcceptsUnbounded};

/// What the walk accepts is proved: a plan that it calls optimal is one of least cost, of a scheme that it calls infeasible no
/// list of ratios is a feasible plan, and of one that it calls unbounded every cost has a feasible plan that costs less.
pub fn walk_proves()
    ensures { WalkProves }
{}

/// The walk has an answer of every plan: it accepts, or it names a clause or an operation. Only the program that walks can want
/// memory.
pub fn walk_ends()
    ensures { WalkEnds }
{}

/// What holds is accepted: a plan whose claim holds is refused only where an operation of the walk overflows.
pub fn walk_accepts()
    ensures optimal { AcceptsOptimal }
    ensures infeasible { AcceptsInfeasible }
    ensures unbounded { AcceptsUnbounded }
{}
