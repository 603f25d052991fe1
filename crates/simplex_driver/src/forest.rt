//! The pieces of a state, each in the slot of its least node, and the state itself as tables.

ghost use Rattle.std.specs.Prelude.{◌≡◌, ◌<◌, length, Some, None, slice_set};
ghost use Rattle.std.specs.List.{All, flat_map};
ghost use Rattle.np_model.specs.declared.log.Mark.TheVariants.{Basic};
ghost use Rattle.np_model.specs.Basis.Needed.{lists_held};
ghost use Rattle.np_model.specs.Basis.Pieces.{least_node};
ghost use Rattle.simplex_driver.specs.Homes.{home_at, homes_needed, HasHome, HaveHomes};
ghost use Rattle.simplex_driver.specs.Store.{slot_at, written, potentials_of, flows_written, emptied, filled, stores_in, LiesWithin};

use np_frac::Frac;
use np_model::{Ends, Entry, Hands, Mark, Piece};
use quasi_tree::Quasi;

/// The pieces of a state, each in the slot of its least node, and the state as tables: potentials by node, flows and marks by arc, the
/// artificial ones behind the real ones.
#[derive(Drop)]
pub(crate) struct Forest {
    pub slots: Vec<Option<Quasi>>,
    pub potentials: Vec<Frac>,
    pub flows: Vec<Frac>,
    pub marks: Vec<Mark>,
}

// Writes the potentials of the nodes of the piece.
pub(crate) fn write_potentials(potentials: &mut [Frac], piece: &Quasi)
    requires { All (λ n. n.0 < length potentials.old) piece.now.lists.nodes }
    ensures { potentials.new ≡ written (potentials_of piece.now.lists) potentials.old }
{
    for (node, potential) in &piece.lists().nodes.items {
        potentials[*node as usize] = *potential;
    }
}

// Writes the flows of the basic arcs of the piece.
fn write_flows(flows: &mut [Frac], piece: &Quasi)
    requires { All (λ b. b.0 < length flows.old) piece.now.lists.basics }
    ensures { flows.new ≡ written (flows_written piece.now.lists) flows.old }
{
    for (arc, _, flow) in &piece.lists().basics.items {
        flows[*arc as usize] = *flow;
    }
}

impl Forest {
    /// The piece of a node, by the homes of all nodes.
    pub(crate) fn piece_of(&self, homes: &[u32], node: u32) -> &Quasi
        requires { HasHome self.now.slots.items homes.now node }
        ensures { Some result.now ≡ slot_at self.now.slots.items (home_at homes.now node) }
    {
        let home = homes[node as usize] as usize;
        match &self.slots[home] {
            Some(piece) => piece,
            None => unreachable!(),
        }
    }

    // Empties the slot of the piece of a node.
    fn empty(&mut self, homes: &[u32], node: u32)
        requires node { node < length homes.now }
        requires slot { home_at homes.now node < length self.old.slots.items }
        ensures slots { self.new.slots.items ≡ slice_set self.old.slots.items (home_at homes.now node) None }
        ensures potentials { self.new.potentials.items ≡ self.old.potentials.items }
        ensures flows { self.new.flows.items ≡ self.old.flows.items }
        ensures marks { self.new.marks.items ≡ self.old.marks.items }
    {
        let home = homes[node as usize] as usize;
        self.slots[home] = None;
    }

    /// Empties the slots of the pieces that an arc needs, by the homes of all nodes.
    pub(crate) fn vacate(&mut self, homes: &[u32], ends: Ends)
        requires { HaveHomes self.old.slots.items homes.now ends }
        ensures slots { self.new.slots.items ≡ written (emptied (homes_needed homes.now ends)) self.old.slots.items }
        ensures potentials { self.new.potentials.items ≡ self.old.potentials.items }
        ensures flows { self.new.flows.items ≡ self.old.flows.items }
        ensures marks { self.new.marks.items ≡ self.old.marks.items }
    {
        match ends {
            Ends::Drain(node) | Ends::Feed(node) => self.empty(homes, node),
            Ends::Link { from, to, .. } => {
                self.empty(homes, from);
                self.empty(homes, to);
            }
        }
    }

    // Writes a piece into the tables, and puts it into its slot.
    pub(crate) fn house(&mut self, piece: Quasi)
        requires { LiesWithin self.old piece.lists }
        ensures slots { self.new.slots.items ≡ slice_set self.old.slots.items (least_node piece.lists) (Some piece) }
        ensures potentials { self.new.potentials.items ≡ written (potentials_of piece.lists) self.old.potentials.items }
        ensures flows { self.new.flows.items ≡ written (flows_written piece.lists) self.old.flows.items }
        ensures marks { self.new.marks.items ≡ self.old.marks.items }
    {
        write_potentials(&mut self.potentials, &piece);
        write_flows(&mut self.flows, &piece);
        let home = piece.least() as usize;
        self.slots[home] = Some(piece);
    }

    /// Writes pieces into the tables, and puts them into their slots.
    pub(crate) fn house_all(&mut self, pieces: Hands<Quasi>)
        requires { All (LiesWithin self.old) (lists_held (λ s. s.lists) pieces) }
        ensures slots { self.new.slots.items ≡ written (filled (stores_in pieces)) self.old.slots.items }
        ensures potentials { self.new.potentials.items ≡ written (flat_map potentials_of (lists_held (λ s. s.lists) pieces)) self.old.potentials.items }
        ensures flows { self.new.flows.items ≡ written (flat_map flows_written (lists_held (λ s. s.lists) pieces)) self.old.flows.items }
        ensures marks { self.new.marks.items ≡ self.old.marks.items }
    {
        match pieces {
            Hands::One(piece) => self.house(piece),
            Hands::Two(piece, other) => {
                self.house(piece);
                self.house(other);
            }
        }
    }

    /// Marks the arcs of a pivot, and sets the flow of the leaving one to that of its bound.
    pub(crate) fn mark(&mut self, entry: Entry, bound: Frac)
        requires flow { entry.leave < length self.old.flows.items }
        requires enter { entry.enter < length self.old.marks.items }
        requires leave { entry.leave < length self.old.marks.items }
        ensures slots { self.new.slots.items ≡ self.old.slots.items }
        ensures potentials { self.new.potentials.items ≡ self.old.potentials.items }
        ensures flows { self.new.flows.items ≡ slice_set self.old.flows.items entry.leave bound }
        ensures marks { self.new.marks.items ≡ slice_set (slice_set self.old.marks.items entry.enter Basic) entry.leave entry.leave_at }
    {
        self.flows[entry.leave as usize] = bound;
        self.marks[entry.enter as usize] = Mark::Basic;
        self.marks[entry.leave as usize] = entry.leave_at;
    }
}
