//! The driver of the generalised network simplex method: from the start of stage one by pivots and rounds of workers to one of five outcomes.
#![tactic(auto)]

mod attempt;
mod driver;
mod forest;
mod homes;
mod opening;
mod picking;
mod ray;
mod rounds;
mod solving;
mod stepping;
mod telling;
mod turning;

pub use solving::{NetSimplex, solve};

#[cfg(test)]
mod passes;
