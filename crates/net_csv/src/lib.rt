//! Network texts: the scheme of one, or its first fault.
#![tactic(auto)]

mod amounts;
mod draft;
mod fields;
mod given;
mod kinds;
pub mod laws;
mod numbers;
mod reading;
mod refused;
mod supply;
mod writing;

pub use reading::read_scheme;
pub use refused::{Code, Refused, Tail};
pub use writing::scheme_text;
