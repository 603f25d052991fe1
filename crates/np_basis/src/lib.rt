//! Bases of a network: the laws of the states that the solver goes through, of their pieces, and of the rows of a piece.
//!
//! A state is a feasible flow with an augmented forest of basic arcs, as `np_model` defines it: there are the definitions, and
//! in `gain_graphs` the theory over any field. Here are the laws that a solver over fractions needs of them, in the words of its own
//! lists: the start is a state; each node lies in one piece, and a piece of a state is sound; potentials, node weights, the
//! extra arc of a piece and the direction of an arc that enters exist and are unique; the divisors of its cycle are not 0; and a pivot of
//! one or two pieces is one of the state, and leaves every other piece as it is. They are the clauses of the functions in [`laws`]. No code
//! has a value here.
#![tactic(auto)]

pub mod laws;
