//! Planning problems on networks that lose and gain: their types, what a plan of one is, and the laws of
//! generalised minimum-cost flow.
#![tactic(auto)]

mod arc;
mod fits;
mod full;
mod gate;
pub mod laws;
mod lists;
mod log;
mod network;
mod outcome;
mod phase;
mod piece;
mod pivoter;
mod plan;
mod rows;
mod scheme;
mod valid;

pub use arc::{Ends, NetArc, Upper};
pub use gate::{Gate, OpenGate, Spot};
pub use lists::{
    Bands, EndsList, Entries, Flows, Fracs, Marks, Name, Names, NetArcs, Nums, Steps, zeros,
};
pub use log::{Entry, Log, Mark};
pub use network::{FullNet, Net, StartBasis};
pub use outcome::Outcome;
pub use phase::Phase;
pub use piece::{Direction, Hands, Piece, Prepared};
pub use pivoter::Pivoter;
pub use plan::{Parts, Plan, Verdict};
pub use rows::{CheckRow, Overflow, Place, Row};
pub use scheme::{Band, Flow, FlowKind, Scheme};
pub use valid::is_name;
