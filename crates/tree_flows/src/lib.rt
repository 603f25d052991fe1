//! The direction of an entering arc on the pieces that hold its ends, by the rows A3 and A4.
#![tactic(auto)]

mod answer;
mod cycle;
mod inwards;
mod layout;
mod moves;
mod pieces;
mod refusal;
mod sums;
mod terms;
mod walk;

pub use answer::direction;
pub use refusal::DirRefusal;
