//! The potentials of a piece of an augmented forest, at which each of its basic arcs has the reduced cost 0, by the rows A3 and A7.
#![tactic(auto)]

mod carry;
mod cycle;
mod refusal;
mod rows;
mod setting;

pub use refusal::PotentialRefusal;
pub use setting::potentials;
