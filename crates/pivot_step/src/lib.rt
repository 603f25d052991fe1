//! A pivot of one piece or two: whether an arc may enter, along which direction and how far the flows go, and the pieces after that.
#![tactic(auto)]

mod attempt;
mod change;
mod exchange;
mod following;
pub mod laws;
mod pivoter;
mod settling;
mod testing;

pub use attempt::prepare;
pub use change::{Change, apply};
pub use pivoter::TreePivoter;
pub use testing::flow_at;
