//! Exact fractions within 128 bits, their texts and their laws.
//!
//! A [`Frac`] is a ratio in lowest terms whose parts are at most 2^127 - 1 in size. Each operation answers the exact
//! ratio, or [`Past`] with its operands where that does not fit. Nothing but [`write_frac`] takes memory.
#![tactic(auto)]

mod amount;
mod digits;
mod divisor;
mod frac;
pub mod laws;
mod memory;
mod text;
mod wide;

pub use amount::read_amount;
pub use digits::read_number;
pub use frac::{Frac, Op, Past};
pub use memory::Memory;
pub use text::{minus_sign, read_frac, write_frac};
