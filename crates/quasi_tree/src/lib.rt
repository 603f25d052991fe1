//! Pieces of an augmented forest as three ascending lists: nodes with potentials, basic arcs with ends and flows, and marks of the other
//! arcs that touch them.
#![tactic(auto)]

pub mod laws;
mod lists;
mod place;
mod quasi;
mod start;

pub use lists::{FlowList, Lists, MarkList, NodeList};
pub use quasi::Quasi;
pub use start::start_potential;
