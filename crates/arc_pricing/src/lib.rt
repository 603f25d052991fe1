//! Prices: the reduced cost of an arc by row A2, and the arcs that may enter the basis by it.
#![tactic(auto)]

pub mod laws;
mod prices;
mod refusal;
mod scan;

pub use prices::{eligible, price};
pub use refusal::PriceRefusal;
pub use scan::candidates;
