//! The two stages of the solver.

/// A stage of the solver. Stage one looks for a feasible flow: artificial arcs cost 1 and real arcs nothing. Stage two looks for a
/// least one: real arcs have their own costs, and artificial arcs carry nothing.
#[derive(Clone, Copy, Debug, PartialEq, Eq)]
pub enum Phase {
    One,
    Two,
}
