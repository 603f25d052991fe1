//! A piece as its rows go over it, before any arithmetic.

ghost use Rattle.std.specs.Prelude.{◌≡◌, ◌<◌, ◌≤◌, ◌^◌, length, slice_index_or, IfOk};
ghost use Rattle.std.specs.List.{All};
ghost use Rattle.std.specs.List.Sorted.{IsStrictlyIncreasing};
ghost use Rattle.np_model.specs.Network.Flows.{at};
ghost use Rattle.tree_search.specs.Places.{numbers_of_nodes, number_by_place, EndsHavePlaces, IsTree};
ghost use Rattle.tree_flows.specs.Walks.{IsLaidOut, ComesAt};

use np_frac::{Frac, Memory};
use np_model::Ends;
use std::alloc::Global;
use tree_search::{
    ExtraArc, Incidence, Joint, Search, arcs_at_nodes, find_extra, joints_of, search_off,
};

// The places of the ends of the basic arcs and the arcs at each node, the extra arc, the search off it, and how many basic arcs come
// before the one that enters.
#[derive(Drop)]
pub(crate) struct Layout {
    pub joints: Vec<Joint>,
    pub incidence: Incidence,
    pub extra: ExtraArc,
    pub search: Search,
    pub before: u32,
}

// How many of these arcs come before the one with this number.
fn place_before(basics: &[(u32, Ends, Frac)], enter: u32) -> u32
    requires few { length basics.now < 2 ^ 32 }
    ensures { ComesAt basics.now enter result }
{
    let mut place = 0;
    while place < basics.len() && basics[place].0 < enter {
        place += 1;
    }
    place as u32
}

// The layout of the piece with these nodes and basic arcs, for the arc with this number.
pub(crate) fn layout_of(
    alloc: Global,
    nodes: &[(u32, Frac)],
    basics: &[(u32, Ends, Frac)],
    enter: u32,
) -> Result<Layout, Memory>
    requires few { length nodes.now < 2 ^ 32 }
    requires tree { IsTree (numbers_of_nodes nodes.now) basics.now }
    ensures { IfOk result (λ layout. IsLaidOut nodes.now basics.now enter layout) }
{
    let joints = joints_of(alloc, nodes, basics)?;
    let incidence = arcs_at_nodes(alloc, joints.as_slice(), nodes.len())?;
    let extra = find_extra(alloc, nodes, basics, joints.as_slice(), &incidence)?;
    let search = search_off(alloc, joints.as_slice(), &incidence, &extra, nodes.len())?;
    Ok(Layout {
        joints,
        incidence,
        extra,
        search,
        before: place_before(basics, enter),
    })
}
