//! The search over the basic arcs of a piece of an augmented forest, away from its extra arc, in time proportional to the piece.
//!
//! A piece is an ascending list of nodes and an ascending list of basic arcs. Here nodes and arcs are named by their places in these
//! lists: [`joints_of`] finds the places of the ends of each arc, [`arcs_at_nodes`] the arcs at each node, [`find_extra`] the arc with
//! one end or the cycle, and [`search_off`] the order in which all other arcs hang off it.
#![tactic(auto)]

mod find;
mod joints;
pub mod laws;
mod marks;
mod off;
mod piece;
mod round;
mod search;

pub use find::find_extra;
pub use joints::{joints_of, node_of};
pub use marks::marks_of;
pub use off::search_off;
pub use piece::{ExtraArc, Joint, Step};
pub use search::{Incidence, Search, arcs_at_nodes, search_from};
