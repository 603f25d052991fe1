//! The lists of pieces of an augmented forest: made one, changed by a pivot, and taken apart into the pieces that the basic arcs make.
#![tactic(auto)]

mod flowing;
mod joining;
mod numbered;
mod parts;
mod pieces;
mod refusal;

pub use flowing::flows_after;
pub use joining::{both, marks_after};
pub use numbered::{Numbered, merged, picked, without};
pub use pieces::pieces_over;
pub use refusal::MoveRefusal;
