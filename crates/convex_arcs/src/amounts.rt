//! The amounts of staged arcs, from the flows of their segments.

ghost use Rattle.std.specs.Prelude.{◌≡◌, ◌∷◌, ◌++◌, [], length, OnOk};
ghost use Rattle.np_frac.specs.Ratio.{zero_ratio};
ghost use Rattle.convex_arcs.specs.Segments.{flat_arcs};
ghost use Rattle.convex_arcs.specs.Gathered.{sum_from, gathered, Gathers};

use np_frac::{Frac, Memory, Past};
use np_model::Fracs;
use period_expand::Expanded;
use std::alloc::Global;

/// Why amounts were not gathered.
#[derive(Clone, Copy, Debug, PartialEq, Eq)]
pub enum GatherRefusal {
    /// The first addition whose exact sum does not fit a fraction.
    Past(Past),
    /// Want of memory.
    Memory,
}

// The sum of the flows, from 0 on.
fn sum(flows: &[Frac]) -> Result<Frac, Past>
    ensures { result ≡ sum_from zero_ratio flows.now }
{
    let mut running = Frac::whole(0);
    for flow in flows {
        running = running.plus(*flow)?;
    }
    Ok(running)
}

// Appends an amount.
fn push(amount: Frac, amounts: &mut Vec<Frac>) -> Result<(), Memory>
    ensures { OnOk result (amounts.new.items ≡ amounts.old.items ++ amount ∷ []) }
{
    amounts.push(amount)?;
    Ok(())
}

/// The amount of each staged arc: the sum of the flows of its segments, from the first on. The flows are those of the
/// arcs that [`flatten`](crate::flatten) gives, and bounds play no part. [`GatherRefusal::Past`] exactly where one of
/// these sums overflows, with the first addition that does.
pub fn gather(alloc: Global, expanded: &Expanded, flows: &[Frac]) -> Result<Fracs, GatherRefusal>
    requires { length flows.now ≡ length (flat_arcs expanded.now.staged) }
    ensures { Gathers result (gathered expanded.now.staged flows.now) }
{
    let mut amounts = Vec::new(alloc);
    let mut rest = flows;
    for staged in expanded.staged.as_slice() {
        let (own, later) = rest.split_at(1 + staged.bands.as_slice().len());
        match sum(own) {
            Ok(amount) => {
                if push(amount, &mut amounts).is_err() {
                    return Err(GatherRefusal::Memory);
                }
            }
            Err(past) => return Err(GatherRefusal::Past(past)),
        }
        rest = later;
    }
    Ok(Fracs { items: amounts })
}
