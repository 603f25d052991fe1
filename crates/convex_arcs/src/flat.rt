//! The segments of staged arcs.

ghost use Rattle.std.specs.Prelude.{◌≡◌, ◌++◌, IfOk, OnOk};
ghost use Rattle.convex_arcs.specs.Segments.{segment_arcs, flat_arcs};

use np_frac::{Frac, Memory};
use np_model::{Fracs, Net, NetArc, NetArcs};
use period_expand::{Expanded, Staged};
use std::alloc::Global;

// Appends the segments of a staged arc.
fn push_segments(staged: &Staged, arcs: &mut Vec<NetArc>) -> Result<(), Memory>
    ensures { OnOk result (arcs.new.items ≡ arcs.old.items ++ segment_arcs staged.now) }
{
    arcs.push(NetArc {
        ends: staged.ends,
        lower: staged.lower,
        upper: staged.upper,
        cost: staged.cost,
    })?;
    for band in staged.bands.as_slice() {
        arcs.push(NetArc {
            ends: staged.ends,
            lower: Frac::whole(0),
            upper: band.width,
            cost: band.slope,
        })?;
    }
    Ok(())
}

/// The plain network of an expansion: each staged arc gives its segments as parallel arcs, in order. The first has the
/// bounds and the cost of the staged arc, and that of each band goes from 0 to the width of the band at its slope.
/// Takes time in proportion to the arcs that come out.
pub fn flatten(alloc: Global, expanded: &Expanded) -> Result<Net, Memory>
    ensures supply { IfOk result (λ net. net.supply ≡ expanded.now.supply) }
    ensures arcs { IfOk result (λ net. net.arcs ≡ flat_arcs expanded.now.staged) }
{
    let mut arcs = Vec::new(alloc);
    for staged in expanded.staged.as_slice() {
        push_segments(staged, &mut arcs)?;
    }
    let supply = Vec::from_slice(alloc, expanded.supply.as_slice())?;
    Ok(Net {
        supply: Fracs { items: supply },
        arcs: NetArcs { items: arcs },
    })
}
