//! Convex costs as parallel arcs: each staged arc becomes one plain arc for each of its segments.
#![tactic(auto)]

mod amounts;
mod flat;
pub mod laws;

pub use amounts::{GatherRefusal, gather};
pub use flat::flatten;
