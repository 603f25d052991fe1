//! Gain graphs: the theory of bases of generalised minimum-cost flow, over any field.
//!
//! A gain graph is a network whose links multiply what they carry by a gain. The bases of its flow problem are its augmented forests:
//! the pieces are quasi-trees, trees of links with one arc more, which has one end or closes a cycle that is not breakeven. What a
//! network simplex does at a pivot rests on the laws of such forests: potentials and flows exist and are unique on each piece, the arc
//! more is one, and an exchange of arcs along a direction leaves a forest. They are the clauses of the functions in [`laws`]. No code
//! has a value here: the crate is for the solver's proofs, which cite its laws.
//!
//! Sources: R. K. Ahuja, T. L. Magnanti and J. B. Orlin, *Network Flows*, chapter 15 (generalised flows: augmented forests, good
//! where each cycle is not breakeven); T. Zaslavsky, *Biased Graphs*, parts I and II (gain graphs, half edges, and the matroid whose bases
//! these forests are). The proofs are this project's own: they strip no leaves and count no cycles, but go by one lemma of linear
//! algebra, that fewer equations than unknowns have a solution that is not 0.
#![tactic(auto)]

pub mod laws;
