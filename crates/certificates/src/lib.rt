//! Plans: that of what a run has ended in, the plan of a plan text or its first fault, and the text of a plan.
#![tactic(auto)]

mod amounts;
mod certifying;
mod claims;
mod fields;
mod index;
pub mod laws;
mod plan;
mod reading;
mod refused;
mod rows;
mod words;
mod writing;

pub use certifying::{TextRefusal, certify};
pub use reading::read_plan;
pub use refused::{PlanCode, PlanRefused};
pub use writing::plan_text;
