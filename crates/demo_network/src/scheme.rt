//! The demo network.

ghost use Rattle.std.specs.Prelude.{◌≤◌, IfOk};
ghost use Rattle.demo_network.specs.Demo.{IsDemo};

use crate::parts::{flows, node_names, supplies};
use np_frac::Memory;
use np_model::Scheme;
use std::alloc::Global;

/// The demo network of 1 to 1,000 nodes over 8 periods. Node K has the supply `((7 K + 5 P) mod 11) - 5` in period P. From
/// it two links lead to the next node and to the one seven further, in a ring; a part of what it holds is there in the next
/// period; what is too much drains away at no cost; and what it lacks is bought. So each network of this form has a feasible plan,
/// and no cost is below 0 (`laws::demo_has_plans`).
///
/// Takes time and memory in proportion to the number. `Memory` comes where memory ran out.
pub fn demo_scheme(alloc: Global, number: u32) -> Result<Scheme, Memory>
    requires some { 1 ≤ number }
    requires few { number ≤ 1000 }
    ensures { IfOk result (λ scheme. IsDemo number scheme) }
{
    let nodes = node_names(alloc, number)?;
    let supply = supplies(alloc, number)?;
    let flows = flows(alloc, number)?;
    Ok(Scheme {
        periods: 8,
        nodes,
        supply,
        flows,
    })
}
