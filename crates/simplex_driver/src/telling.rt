//! What a run has ended in, told of a step without a pivot.

ghost use Rattle.std.specs.Prelude.{◌≡◌, ◌≤◌, length, IfOk, take};
ghost use Rattle.np_model.specs.Basis.Phases.{network_of, phase_net, real_arcs};
ghost use Rattle.np_model.specs.Basis.States.{values_of};
ghost use Rattle.np_runs.specs.Ended.{IsEnded};
ghost use Rattle.np_runs.specs.Runs.{stage_of, IsLiveIn};
ghost use Rattle.simplex_driver.specs.Store.{state_of};
ghost use Rattle.simplex_driver.specs.Found.{IsFound, IsStop};
ghost use Rattle.simplex_driver.specs.Runs.{IsGood, Goes, IsSpent, settled_outcome};

use crate::forest::Forest;
use crate::ray::ray_of;
use crate::stepping::Found;
use np_frac::{Frac, Memory};
use np_model::{Entries, Entry, Fracs, FullNet, Log, Outcome};
use np_runs::laws::attempts;
use std::alloc::Global;

/// The log of a run.
pub(crate) fn log_of(turned: Option<u32>, entries: Vec<Entry>) -> Log
    ensures turned { result.turned ≡ turned }
    ensures entries { result.entries ≡ entries.items }
{
    Log {
        turned,
        entries: Entries { items: entries },
    }
}

// The first flows, so many.
fn first_flows(flows: Vec<Frac>, count: usize) -> Fracs
    ensures { result ≡ take count flows.items }
{
    let mut items = flows;
    items.truncate(count);
    Fracs { items }
}

// The outcome where no arc may enter.
fn settled(forest: Forest, real: usize, turned: Option<u32>, entries: Vec<Entry>) -> Outcome
    ensures { result ≡ settled_outcome turned (take real forest.flows.items) forest.potentials.items entries.items }
{
    let potentials = Fracs {
        items: forest.potentials,
    };
    match turned {
        None => Outcome::Infeasible {
            potentials,
            log: log_of(None, entries),
        },
        Some(number) => Outcome::Optimal {
            flows: first_flows(forest.flows, real),
            potentials,
            log: log_of(Some(number), entries),
        },
    }
}

/// The outcome of a run whose next step is no pivot.
pub(crate) fn tell(
    alloc: Global,
    full: &FullNet,
    forest: Forest,
    turned: Option<u32>,
    entries: Vec<Entry>,
    budget: u32,
    spent: bool,
    found: Found,
) -> Result<Outcome, Memory>
    requires good { IsGood full.now }
    requires goes { Goes full.now turned entries.items forest }
    requires few { length entries.items ≤ budget }
    requires live { IsLiveIn (network_of full.now.net) turned (state_of forest) }
    requires counted { IsSpent spent (length entries.items) budget }
    requires stops { IsStop found }
    requires found { IsFound (phase_net (stage_of turned) full.now) (real_arcs full.now) (values_of (state_of forest)) spent found }
    ensures { IfOk result (IsEnded (network_of full.now.net) budget) }
{
    attempts();
    let real = full.net.arcs.items.len();
    match found {
        Found::Pivot { .. } => unreachable!(),
        Found::NoneEnters => Ok(settled(forest, real, turned, entries)),
        Found::Spent(arc) => Ok(Outcome::Budget {
            arc,
            log: log_of(turned, entries),
        }),
        Found::Ray(direction) => match turned {
            None => unreachable!(),
            Some(number) => {
                let ray = ray_of(alloc, direction.steps.items.as_slice(), real)?;
                Ok(Outcome::Unbounded {
                    flows: first_flows(forest.flows, real),
                    ray,
                    log: log_of(Some(number), entries),
                })
            }
        },
        Found::Price(overflow) => Ok(Outcome::Overflow {
            overflow,
            log: log_of(turned, entries),
        }),
        Found::Attempts(overflow) => Ok(Outcome::Overflow {
            overflow,
            log: log_of(turned, entries),
        }),
        Found::Memory => Err(Memory),
    }
}
