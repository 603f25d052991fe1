//! Pieces of an augmented forest, as all who handle them see them.

ghost use Rattle.std.specs.Prelude.{◌≡◌, ◌<◌, ◌↔◌, ◌⊎◌, length, true, slice_index};
ghost use Rattle.gain_graphs.specs.Arcs.{IsIn};
ghost use Rattle.np_frac.specs.Ratio.{zero_ratio};
ghost use Rattle.np_model.specs.declared.log.Mark.TheVariants.{Lower};
ghost use Rattle.np_model.specs.Basis.Pieces.{PieceLists, nodes_in, basics_in, marked_in, least_node, beside, marks_of, flows_of};

use crate::lists::Steps;
use crate::log::{Entry, Mark};
use crate::rows::Overflow;
use np_frac::Frac;

/// A piece of an augmented forest. Its meaning is three lists: its nodes in ascending order with their potentials, its basic arcs in
/// ascending order with their ends and flows, and the other arcs that touch it in ascending order with their marks. A link outside the basis
/// between two pieces stands in both, with one mark.
pub trait Piece: Sized + Send {
    ghost lists: { Self → PieceLists };

    /// The least node.
    fn least(&self) -> u32
        requires { 0 < length (lists self.now).nodes }
        ensures { result ≡ least_node (lists self.now) };

    /// The number of nodes.
    fn size(&self) -> u32
        ensures { result ≡ length (lists self.now).nodes };

    /// The node at a place of the list, from 0.
    fn node_at(&self, place: u32) -> u32
        requires { place < length (lists self.now).nodes }
        ensures { result ≡ slice_index (nodes_in (lists self.now)) place };

    /// Whether the node is one of the piece.
    fn contains(&self, node: u32) -> bool
        ensures { result ≡ true ↔ IsIn node (nodes_in (lists self.now)) };

    /// The potential of a node of the piece.
    fn potential_of(&self, node: u32) -> Frac
        requires { IsIn node (nodes_in (lists self.now)) }
        ensures { result ≡ beside zero_ratio (lists self.now).nodes node };

    /// The mark of a basic arc, or of another one that touches the piece.
    fn mark_of(&self, arc: u32) -> Mark
        requires { IsIn arc (basics_in (lists self.now)) ⊎ IsIn arc (marked_in (lists self.now)) }
        ensures { result ≡ beside Lower (marks_of (lists self.now)) arc };

    /// The flow of a basic arc.
    fn flow_of(&self, arc: u32) -> Frac
        requires { IsIn arc (basics_in (lists self.now)) }
        ensures { result ≡ beside zero_ratio (flows_of (lists self.now)) arc };
}

/// One piece, or two.
#[derive(Debug, Drop)]
pub enum Hands<T> {
    One(T),
    Two(T, T),
}

/// The direction of an arc that enters: whether its own flow grows, and the arcs whose flows change, in ascending order, each with its
/// amount for one unit of the entering arc.
#[derive(Debug, Drop)]
pub struct Direction {
    pub enter: u32,
    pub up: bool,
    pub steps: Steps,
}

/// What an attempt to let an arc enter finds.
#[derive(Debug, Drop)]
pub enum Prepared<C> {
    /// The pivot can be made.
    Ready { entry: Entry, change: C },
    /// The arc may not enter.
    NotEligible,
    /// Nothing stops the flows along this direction.
    Ray(Direction),
    /// An operation does not fit.
    Past(Overflow),
    /// There is not enough memory.
    Memory,
}
