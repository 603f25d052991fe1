//! A network for trials, made from a number.
#![tactic(auto)]

pub mod laws;
mod parts;
mod scheme;

pub use scheme::demo_scheme;
