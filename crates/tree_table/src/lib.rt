//! The shared table of the pieces of an augmented forest, from which several workers take pieces, put them back, and replace them by the pieces
//! after a pivot. It is over any [`Piece`](np_model::Piece), and nothing in it waits or is done under a lock.
#![tactic(auto)]

mod calls;
mod closing;
mod homing;
pub mod laws;
mod pass;
mod room;
mod rule;
mod set_up;
mod steps;
mod table;
mod view;

pub use calls::{Taken, TakenTwo};
pub use closing::Closed;
pub use pass::Pass;
pub use set_up::SetupRefusal;
pub use table::TreeTable;
