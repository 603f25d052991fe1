//! The basis that stage one starts from: each arc at its lower bound, and an artificial arc at each node for what is left of its supply.
#![tactic(auto)]

mod basis;
pub mod laws;
mod refusal;
mod residual;

pub use basis::start;
pub use refusal::StartRefusal;
