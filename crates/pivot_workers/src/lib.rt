//! Workers that pivot on the pieces of a shared table, each in a thread of its own where one can be made, and the rounds in which they do so.
#![tactic(auto)]

mod attempting;
mod halves;
pub mod laws;
mod openings;
mod pivoting;
mod report;
mod rounding;
mod seeing;
mod stale;
pub mod sweeping;
mod working;

pub use attempting::{Attempted, attempt};
pub use openings::opening_slots;
pub use report::{Report, Round};
pub use rounding::run_round;
pub use seeing::{Seen, see};
pub use working::work;
