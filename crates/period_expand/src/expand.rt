//! The staged arcs of a scheme.

ghost use Rattle.std.specs.Prelude.{◌≡◌, ◌+◌, ◌*◌, ◌<◌, ◌≤◌, ◌++◌, IfOk, OnOk, length};
ghost use Rattle.std.specs.List.{filter_map, enumerate_from};
ghost use Rattle.np_model.specs.Scheme.Kinds.{JoinsNodes};
ghost use Rattle.period_expand.specs.Expansion.{IsExpansion, IsExpansion-prop};
ghost use Rattle.np_model.specs.Scheme.Plans.{stage_of, staged};

use crate::staged::{Staged, Stageds};
use np_frac::Memory;
use np_model::{Bands, Flow, Fracs, Scheme};
use std::alloc::Global;

/// A scheme over its periods: the supply of each node in each period, and the staged arcs by period and then in the
/// order of the flows. Whichever scheme it is of, there are at most 20,000 nodes and 100,000 segments, and each arc
/// joins nodes, two of them where it is a link, with a gain above 0, bounds in order, and slopes that do not fall.
#[derive(Debug, Drop)]
pub struct Expanded {
    pub supply: Fracs,
    pub staged: Stageds,
    pub ghost valid: { IsExpansion supply staged } by { IsExpansion-prop supply staged },
}

// The staged arc of a flow in a period, and `None` for a hold in the last one.
fn stage_of(
    alloc: Global,
    scheme: &Scheme,
    period: u32,
    number: u32,
    flow: &Flow,
) -> Result<Option<Staged>, Memory>
    requires period { 1 ≤ period }
    requires joins { JoinsNodes (length scheme.now.nodes) flow.now.kind }
    requires few { length scheme.now.nodes * (period + 1) ≤ 40000 }
    ensures { IfOk result (λ stage. stage ≡ stage_of scheme.now.periods (length scheme.now.nodes) period (number, flow.now)) }
{
    if flow.kind.is_hold() && period == scheme.periods {
        return Ok(None);
    }
    let nodes = scheme.nodes.as_slice().len() as u32;
    let bands = Vec::from_slice(alloc, flow.bands.as_slice())?;
    Ok(Some(Staged {
        flow: number,
        period,
        ends: flow.kind.ends_in(nodes, period),
        lower: flow.lower,
        upper: flow.upper,
        cost: flow.cost,
        bands: Bands { items: bands },
    }))
}

// Appends the staged arcs of a period.
fn push_period(
    alloc: Global,
    scheme: &Scheme,
    period: u32,
    staged: &mut Vec<Staged>,
) -> Result<(), Memory>
    requires first { 1 ≤ period }
    requires last { period ≤ scheme.now.periods }
    ensures { OnOk result (staged.new.items ≡ staged.old.items ++ filter_map (stage_of scheme.now.periods (length scheme.now.nodes) period) (enumerate_from 0 scheme.now.flows)) }
{
    for (number, flow) in scheme.flows.as_slice().iter().enumerate() {
        match stage_of(alloc, scheme, period, number as u32, flow)? {
            Some(stage) => staged.push(stage)?,
            None => {}
        }
    }
    Ok(())
}

/// The staged arcs of a scheme: for each period from 1 on, and in it for each flow in order, its arc between the nodes
/// of that period. A hold leads into the next period, and has no arc in the last one. With k nodes, node i (from 0) in
/// period P is node `(P - 1) * k + i` here, as in the supply. Takes time in proportion to the arcs and bands that come out.
pub fn expand_periods(alloc: Global, scheme: &Scheme) -> Result<Expanded, Memory>
    ensures supply { IfOk result (λ expanded. expanded.supply ≡ scheme.now.supply) }
    ensures staged { IfOk result (λ expanded. expanded.staged ≡ staged scheme.now) }
{
    let mut items = Vec::new(alloc);
    for before in 0..scheme.periods {
        push_period(alloc, scheme, before + 1, &mut items)?;
    }
    let supply = Vec::from_slice(alloc, scheme.supply.as_slice())?;
    Ok(Expanded {
        supply: Fracs { items: supply },
        staged: Stageds { items },
    })
}
