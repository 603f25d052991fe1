//! The checker: whether a plan is what it claims to be. It stands on the fractions and the model alone, so a planner
//! who distrusts everything else reads np_frac, np_model and this crate.
#![tactic(auto)]

mod answer;
mod balance;
mod bound;
mod cost;
mod gap;
pub mod laws;
mod ray;
mod reduced;
mod segment;
mod staged;
mod sums;
mod walk;

pub use answer::{CheckRefusal, Checked, Clause};
pub use sums::{summed_cost, summed_gap};
pub use walk::check;
