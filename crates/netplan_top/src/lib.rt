//! The commands, over any source and any sink.
#![tactic(auto)]

mod commands;
pub mod laws;
mod texts;
mod top;
mod words;

pub use demo_network::demo_scheme;
pub use top::run;
