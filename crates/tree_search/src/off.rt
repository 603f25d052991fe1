//! The search off the extra arc of a piece.

ghost use Rattle.std.specs.Prelude.{◌≡◌, ◌<◌, ◌^◌, length, IfOk};
ghost use Rattle.tree_search.specs.Search.{AreBelow, IsIncidence, IsSearch, IsClosed, AreStepsBelow, fars};
ghost use Rattle.tree_search.specs.Finding.{starts_of, CanBeginAt};

use crate::piece::{ExtraArc, Joint, Step};
use crate::search::{Incidence, Search, search_from};
use np_frac::Memory;
use std::alloc::Global;

// The nodes to which steps lead.
fn far_nodes(alloc: Global, steps: &[Step]) -> Result<Vec<u32>, Memory>
    ensures { IfOk result (λ list. list.items ≡ fars steps.now) }
{
    let mut list = Vec::with_capacity(alloc, steps.len())?;
    for step in steps {
        list.push(step.far)?;
    }
    Ok(list)
}

/// The search from the nodes of the extra arc of a piece with so many nodes: its steps are the links that hang off the extra arc
/// ([`outwards`](crate::laws::outwards)). In time proportional to the piece.
pub fn search_off(
    alloc: Global,
    joints: &[Joint],
    incidence: &Incidence,
    extra: &ExtraArc,
    nodes: usize,
) -> Result<Search, Memory>
    requires ends { AreBelow nodes joints.now }
    requires few { length joints.now < 2 ^ 32 }
    requires few_nodes { nodes < 2 ^ 32 }
    requires lists { IsIncidence joints.now nodes incidence.now }
    requires begins { CanBeginAt nodes joints.now extra.now }
    ensures found { IfOk result (λ search. IsSearch joints.now nodes (starts_of joints.now extra.now) search) }
    ensures closed { IfOk result (λ search. IsClosed joints.now search.queue.items) }
    ensures placed { IfOk result (λ search. AreStepsBelow (length joints.now) nodes search.steps.items) }
{
    match extra {
        ExtraArc::OneEnd { arc } => {
            let start = joints[*arc as usize].from;
            search_from(alloc, joints, incidence, &[start], nodes)
        }
        ExtraArc::Round { cycle } => {
            let starts = far_nodes(alloc, cycle.as_slice())?;
            search_from(alloc, joints, incidence, starts.as_slice(), nodes)
        }
    }
}
