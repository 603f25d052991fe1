//! The ratio test: how far the flows can go along a direction within their bounds, by row A5, and the arc that stops them.
#![tactic(auto)]

mod answer;
mod flow;
mod follow;
pub mod laws;
mod limit;
mod stop;

pub use answer::RatioAnswer;
pub use follow::ratio;
