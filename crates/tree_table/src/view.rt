//! What a pass shows, for the proofs alone: no value of these types is made.

use np_frac::Frac;
use np_model::{Ends, EndsList, Entry, Fracs, Mark, NetArcs, Phase};
use std::collections::LinkedList;
use std::marker::Model;

/// The lists of a piece.
pub struct ListsShown {
    nodes: LinkedList<(u32, Frac)>,
    basics: LinkedList<(u32, Ends, Frac)>,
    marks: LinkedList<(u32, Mark)>,
}

impl Model for ListsShown {
    ghost use Rattle.np_model.specs.Basis.Pieces.{PieceLists};

    ghost Value = { PieceLists };

    ghost view = { λ p. record { nodes = p.nodes; basics = p.basics; marks = p.marks } };
}

/// A pivot that was made.
pub struct PivotShown {
    entry: Entry,
    before: LinkedList<ListsShown>,
    after: LinkedList<ListsShown>,
}

impl Model for PivotShown {
    ghost use Rattle.tree_table.specs.Passes.{Pivoted};

    ghost Value = { Pivoted };

    ghost view = { λ p. record { entry = p.entry; before = p.before; after = p.after } };
}

/// What a table was set up with.
pub struct OpeningShown {
    supply: Fracs,
    arcs: NetArcs,
    artificial: EndsList,
    phase: Phase,
    pieces: LinkedList<ListsShown>,
}

impl Model for OpeningShown {
    ghost use Rattle.tree_table.specs.Passes.{Opening};

    ghost Value = { Opening };

    ghost view = { λ o. record {
      net = record { supply = o.supply; arcs = o.arcs };
      artificial = o.artificial;
      phase = o.phase;
      pieces = o.pieces;
    } };
}

/// What a pass shows.
pub struct Shown {
    opening: OpeningShown,
    shares: u64,
    hands: LinkedList<ListsShown>,
    slots: LinkedList<u64>,
    entries: LinkedList<(u64, PivotShown)>,
    got: LinkedList<ListsShown>,
    looks: LinkedList<(u64, u64)>,
}

impl Model for Shown {
    ghost use Rattle.tree_table.specs.Passes.{View};

    ghost Value = { View };

    ghost view = { λ s. record {
      opening = s.opening;
      shares = s.shares;
      hands = s.hands;
      slots = s.slots;
      entries = s.entries;
      got = s.got;
      looks = s.looks;
    } };
}
