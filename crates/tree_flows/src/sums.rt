//! The sum of the terms at a node.

ghost use Rattle.std.specs.Prelude.{◌≡◌, ◌<◌, ◌^◌, ℕ, length, slice_index};
ghost use Rattle.np_frac.specs.Ratio.{zero_ratio};
ghost use Rattle.tree_search.specs.Places.{numbers_of_nodes};

use crate::terms::{touches, with_term};
use np_frac::{Frac, Past};
use np_model::Ends;
use tree_search::{Incidence, Joint, node_of};

/// The arc that enters, with its ends and the amount on it, 1 or -1.
#[derive(Clone, Copy)]
pub(crate) struct Entering {
    pub arc: u32,
    pub ends: Ends,
    pub amount: Frac,
}

// The lists of a piece that its rows read: its nodes and its basic arcs, where these end, and the arcs at each node; the arc that enters,
// and how many of the basic arcs come before it.
#[derive(Clone, Copy)]
pub(crate) struct Rows<'a> {
    pub nodes: &'a [(u32, Frac)],
    pub basics: &'a [(u32, Ends, Frac)],
    pub joints: &'a [Joint],
    pub incidence: &'a Incidence,
    pub entering: &'a Entering,
    pub before: u32,
}

impl<'a> Rows<'a> {
    ghost use Rattle.np_frac.specs.Ratio.{zero_ratio};
    ghost use Rattle.tree_search.specs.Search.{IsIncidence};
    ghost use Rattle.tree_flows.specs.Along.{may_come, in_part, add_place, add_entering, arcs_from, sum_part, sum_of};

    // Whether a basic arc is one of those before the entering arc, or one of those after it.
    fn is_in_part(&self, early: bool, arc: u32) -> bool
        ensures { result ≡ in_part self.now.before early arc }
    {
        if early {
            arc < self.before
        } else {
            self.before <= arc
        }
    }

    // The sum with the term of the basic arc at this place, where it is in this part.
    fn with_place(
        &self,
        amounts: &[Frac],
        node: u32,
        early: bool,
        arc: u32,
        sum: Frac,
    ) -> Result<Frac, Past>
        requires inside { arc < length self.now.basics.now }
        requires one_each { length amounts.now ≡ length self.now.basics.now }
        ensures { result ≡ add_place self.now.basics.now amounts.now self.now.before early node arc sum }
    {
        if self.is_in_part(early, arc) {
            with_term(
                sum,
                self.basics[arc as usize].1,
                node,
                amounts[arc as usize],
            )
        } else {
            Ok(sum)
        }
    }

    // The sum with the term of the entering arc, where it ends at the node.
    fn with_entering(&self, node: u32, sum: Frac) -> Result<Frac, Past>
        ensures { result ≡ add_entering self.now.entering.now.ends self.now.entering.now.amount node sum }
    {
        if touches(self.entering.ends, node) {
            with_term(sum, self.entering.ends, node, self.entering.amount)
        } else {
            Ok(sum)
        }
    }

    // The sum with the terms of the basic arcs at a node that are in this part.
    fn with_part(
        &self,
        amounts: &[Frac],
        place: u32,
        early: bool,
        start: Frac,
    ) -> Result<Frac, Past>
        requires lists { IsIncidence self.now.joints.now (length self.now.nodes.now) self.now.incidence.now }
        requires long { length self.now.joints.now ≡ length self.now.basics.now }
        requires one_each { length amounts.now ≡ length self.now.basics.now }
        requires few { length self.now.basics.now < 2 ^ 32 }
        requires inside { place < length self.now.nodes.now }
        ensures { result ≡ sum_part self.now.basics.now amounts.now self.now.before early (slice_index (numbers_of_nodes self.now.nodes.now) place) (arcs_from self.now.joints.now place 0) start }
    {
        let node = node_of(self.nodes, place);
        let mut sum = start;
        let mut arc = self.incidence.first[place as usize];
        while (arc as usize) < self.joints.len() {
            sum = self.with_place(amounts, node, early, arc, sum)?;
            arc = self.incidence.next(self.joints, arc, place);
        }
        Ok(sum)
    }

    // Whether something may come to the node: over the entering arc, or over a basic arc whose amount is not 0.
    pub(crate) fn is_reached(&self, reached: &[bool], place: u32) -> bool
        requires inside { place < length self.now.nodes.now }
        requires one_each { length reached.now ≡ length self.now.nodes.now }
        ensures { result ≡ may_come self.now.nodes.now self.now.entering.now.ends reached.now place }
    {
        reached[place as usize] || touches(self.entering.ends, node_of(self.nodes, place))
    }

    // The sum of the terms at a node, in ascending number of arc.
    pub(crate) fn sum_at(&self, amounts: &[Frac], place: u32) -> Result<Frac, Past>
        requires lists { IsIncidence self.now.joints.now (length self.now.nodes.now) self.now.incidence.now }
        requires long { length self.now.joints.now ≡ length self.now.basics.now }
        requires one_each { length amounts.now ≡ length self.now.basics.now }
        requires few { length self.now.basics.now < 2 ^ 32 }
        requires inside { place < length self.now.nodes.now }
        ensures { result ≡ sum_of self.now.nodes.now self.now.basics.now self.now.joints.now self.now.before self.now.entering.now.ends self.now.entering.now.amount amounts.now place }
    {
        let first = self.with_part(amounts, place, true, Frac::whole(0))?;
        let second = self.with_entering(node_of(self.nodes, place), first)?;
        self.with_part(amounts, place, false, second)
    }
}
