//! A piece in its store.

use crate::lists::{Lists, MarkList};
use std::marker::Model;

/// A piece of an augmented forest, or an empty store for one. It keeps the shape of its lists and no more: that they ascend, that nodes and
/// basic arcs are a quasi-tree by the ends that stand there, that no mark is basic, and that no arc is in both lists.
#[derive(Debug, Drop)]
pub struct Quasi {
    lists: Lists,
}

impl Model for Quasi {
    ghost use Rattle.quasi_tree.specs.Store.{Store, IsHeld};

    ghost Value = { Store };

    ghost view = { λ quasi. quasi.lists };

    ghost invariant = { λ quasi. IsHeld quasi.lists.lists };
}

ghost use Rattle.std.specs.Prelude.{◌≡◌, ◌≢◌, ℕ, ◌<◌, ◌≤◌, ◌↔◌, ◌⊎◌, true, [], length, map, slice_index, slice_index_or, IfOk, OnOk, OnErr};
ghost use Rattle.gain_graphs.specs.Arcs.{IsIn};
ghost use Rattle.np_frac.specs.Ratio.{zero_ratio};
ghost use Rattle.np_model.specs.declared.log.Mark.TheVariants as marked;
ghost use Rattle.np_model.specs.Basis.Pieces.{nodes_in, basics_in, marked_in, least_node, beside, marks_of, flows_of, IsVacant};
ghost use Rattle.quasi_tree.specs.Start.{flows_at_start, piece_at_start};
ghost use Rattle.quasi_tree.specs.Store.{IsHeld, with_potential, with_potentials, with_flow, with_mark};

use crate::place::{basic_place, mark_place, node_place, put_values};
use crate::start::{basic_alone, marks_at, node_alone, start_potential};
use np_frac::{Frac, Memory};
use np_model::{Mark, Piece, StartBasis};
use std::alloc::Global;

impl Quasi {
    /// The piece with these lists, which are all empty, or of fewer than 2^32 entries each and of the shape that the type keeps.
    pub fn of_lists(lists: Lists) -> Quasi
        requires { IsHeld lists.lists }
        ensures { result ≡ lists }
    {
        Quasi { lists }
    }

    /// The lists of the piece.
    pub fn take_apart(self) -> Lists
        ensures { result ≡ self }
    {
        self.lists
    }

    /// The lists of the piece, to be read.
    pub fn lists(&self) -> &Lists
        ensures lists { result.now ≡ self.now }
        ensures held { IsHeld self.now.lists }
    {
        &self.lists
    }

    /// The basic arc at a place of their list, from 0 up to the number of nodes.
    pub fn basic_at(&self, place: u32) -> u32
        requires { place < length self.now.lists.nodes }
        ensures { result ≡ slice_index (basics_in self.now.lists) place }
    {
        self.lists.basics.items[place as usize].0
    }

    /// The number of marks.
    pub fn marks(&self) -> u32
        ensures { result ≡ length self.now.lists.marks }
    {
        self.lists.marks.items.len() as u32
    }

    /// The arc at a place of the list of marks, from 0, and its mark.
    pub fn marked_at(&self, place: u32) -> (u32, Mark)
        requires { place < length self.now.lists.marks }
        ensures { result ≡ slice_index_or self.now.lists.marks place (0, marked.Lower) }
    {
        self.lists.marks.items[place as usize]
    }

    /// Gives a node of the piece another potential.
    pub fn set_potential(&mut self, node: u32, value: Frac)
        requires { IsIn node (nodes_in self.old.lists) }
        ensures lists { self.new.lists ≡ with_potential self.old.lists node value }
        ensures nodes_fit { self.new.node_spare ≡ self.old.node_spare }
        ensures marks_fit { self.new.mark_spare ≡ self.old.mark_spare }
    {
        if let Some(place) = node_place(self.lists.nodes.items.as_slice(), node) {
            self.lists.nodes.items[place] = (node, value);
        }
    }

    /// Gives a basic arc of the piece another flow.
    pub fn set_flow(&mut self, arc: u32, value: Frac)
        requires { IsIn arc (basics_in self.old.lists) }
        ensures lists { self.new.lists ≡ with_flow self.old.lists arc value }
        ensures nodes_fit { self.new.node_spare ≡ self.old.node_spare }
        ensures marks_fit { self.new.mark_spare ≡ self.old.mark_spare }
    {
        if let Some(place) = basic_place(self.lists.basics.items.as_slice(), arc) {
            self.lists.basics.items[place].2 = value;
        }
    }

    /// Gives an arc of the list of marks another mark, which is not that of a basic arc.
    pub fn set_mark(&mut self, arc: u32, mark: Mark)
        requires stands { IsIn arc (marked_in self.old.lists) }
        requires at_bound { mark ≢ marked.Basic }
        ensures lists { self.new.lists ≡ with_mark self.old.lists arc mark }
        ensures nodes_fit { self.new.node_spare ≡ self.old.node_spare }
        ensures marks_fit { self.new.mark_spare ≡ self.old.mark_spare }
    {
        if let Some(place) = mark_place(self.lists.marks.items.as_slice(), arc) {
            self.lists.marks.items[place] = (arc, mark);
        }
    }

    /// Gives each node of the piece another potential: the values are those of the nodes in their order.
    pub fn set_potentials(&mut self, values: &[Frac])
        requires { length values.now ≡ length self.old.lists.nodes }
        ensures lists { self.new.lists ≡ with_potentials self.old.lists values.now }
        ensures nodes_fit { self.new.node_spare ≡ self.old.node_spare }
        ensures marks_fit { self.new.mark_spare ≡ self.old.mark_spare }
    {
        put_values(&mut self.lists.nodes.items, values);
    }

    /// The piece of a node at the start: it stands alone with its artificial arc, and each arc that touches it is at its lower bound. The
    /// potential is 1 where that arc is a drain, and -1 where it is a feed. It asks that real arcs have the flows of their lower bounds, and each
    /// artificial arc the one that balances its node. Takes time in proportion to the arcs.
    pub fn single(alloc: Global, start: &StartBasis, node: u32) -> Result<Quasi, Memory>
        requires is_node { node < length start.now.full.net.supply }
        requires flows { start.now.flows ≡ flows_at_start start.now.full }
        ensures { IfOk result (λ piece. piece.lists ≡ piece_at_start start.now.full node) }
    {
        let marks = marks_at(alloc, start.full.net.arcs.as_slice(), node)?;
        Quasi::single_with_marks(alloc, start, node, MarkList { items: marks })
    }

    /// The piece of a node at the start, as [`Quasi::single`] makes it, from its marks, which are taken as they are. Takes time that does not
    /// grow with the network.
    pub fn single_with_marks(
        alloc: Global,
        start: &StartBasis,
        node: u32,
        marks: MarkList,
    ) -> Result<Quasi, Memory>
        requires is_node { node < length start.now.full.net.supply }
        requires flows { start.now.flows ≡ flows_at_start start.now.full }
        requires marks { marks.items.items ≡ (piece_at_start start.now.full node).marks }
        ensures { IfOk result (λ piece. piece.lists ≡ piece_at_start start.now.full node) }
    {
        let real = start.full.net.arcs.items.len();
        let ends = start.full.artificial.items[node as usize];
        let flow = start.flows.items[real + node as usize];
        let nodes = node_alone(alloc, node, start_potential(&ends))?;
        let basics = basic_alone(alloc, real as u32 + node, ends, flow)?;
        Ok(Quasi {
            lists: Lists {
                nodes,
                basics,
                marks,
            },
        })
    }

    /// An empty store with room for so many nodes, each with a basic arc, and so many marks.
    pub fn vacant(alloc: Global, nodes: u32, marks: u32) -> Result<Quasi, Memory>
        ensures vacant { IfOk result (λ store. IsVacant store.lists) }
        ensures nodes_fit { IfOk result (λ store. nodes ≤ store.node_spare) }
        ensures marks_fit { IfOk result (λ store. marks ≤ store.mark_spare) }
    {
        Ok(Quasi {
            lists: Lists::with_room(alloc, nodes as usize, marks as usize)?,
        })
    }

    /// Makes room for so many more nodes, each with a basic arc, and so many more marks. After [`Memory`] the piece is unchanged, its room
    /// too: the lists are made anew with that room, and only then take the place of the old ones.
    pub fn reserve(&mut self, nodes: u32, marks: u32) -> Result<(), Memory>
        ensures lists { self.new.lists ≡ self.old.lists }
        ensures nodes_fit { OnOk result (nodes ≤ self.new.node_spare) }
        ensures marks_fit { OnOk result (marks ≤ self.new.mark_spare) }
        ensures err { OnErr result (self.new ≡ self.old) }
    {
        let alloc = *self.lists.nodes.items.allocator();
        self.lists = self.lists.copy(alloc, nodes as usize, marks as usize)?;
        Ok(())
    }

    /// A piece with the same lists, and with room for so many more nodes and marks.
    pub fn copy(&self, alloc: Global, nodes: u32, marks: u32) -> Result<Quasi, Memory>
        ensures lists { IfOk result (λ piece. piece.lists ≡ self.now.lists) }
        ensures nodes_fit { IfOk result (λ piece. nodes ≤ piece.node_spare) }
        ensures marks_fit { IfOk result (λ piece. marks ≤ piece.mark_spare) }
    {
        let lists = self.lists.copy(alloc, nodes as usize, marks as usize)?;
        Ok(Quasi { lists })
    }
}

impl Piece for Quasi {
    ghost lists = { λ quasi. quasi.lists };

    fn least(&self) -> u32 {
        self.lists.nodes.items[0].0
    }

    fn size(&self) -> u32 {
        self.lists.nodes.items.len() as u32
    }

    fn node_at(&self, place: u32) -> u32 {
        self.lists.nodes.items[place as usize].0
    }

    fn contains(&self, node: u32) -> bool {
        node_place(self.lists.nodes.items.as_slice(), node).is_some()
    }

    fn potential_of(&self, node: u32) -> Frac {
        match node_place(self.lists.nodes.items.as_slice(), node) {
            Some(place) => self.lists.nodes.items[place].1,
            None => Frac::whole(0),
        }
    }

    fn mark_of(&self, arc: u32) -> Mark {
        if basic_place(self.lists.basics.items.as_slice(), arc).is_some() {
            return Mark::Basic;
        }
        match mark_place(self.lists.marks.items.as_slice(), arc) {
            Some(place) => self.lists.marks.items[place].1,
            None => Mark::Lower,
        }
    }

    fn flow_of(&self, arc: u32) -> Frac {
        match basic_place(self.lists.basics.items.as_slice(), arc) {
            Some(place) => self.lists.basics.items[place].2,
            None => Frac::whole(0),
        }
    }
}
