//! A scheme over its periods: each flow in each period becomes an arc between nodes that are numbered over all periods.
#![tactic(auto)]

mod expand;
pub mod laws;
mod staged;

pub use expand::{Expanded, expand_periods};
pub use staged::{Staged, Stageds};
