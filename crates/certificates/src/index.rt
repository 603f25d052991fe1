//! What a plan of a scheme may speak of.

ghost use Rattle.std.specs.Prelude.{◌≡◌, ◌<◌, ◌^◌, IfOk, map, length};
ghost use Rattle.std.specs.List.{IsDistinct};
ghost use Rattle.std.specs.Str.{bytes_eq};
ghost use Rattle.np_model.specs.Scheme.Kinds.{periods_of};
ghost use Rattle.np_model.specs.Scheme.Names.{flow_names};
ghost use Rattle.certificates.specs.Claims.{outline_of};

use np_frac::Memory;
use np_model::{Flow, Name, Scheme};
use np_records::NameTable;
use std::alloc::Global;
use std::marker::Model;

/// The periods, the names of the nodes and of the flows, and the last period in which each flow has an amount.
#[derive(Drop)]
pub(crate) struct Index {
    pub periods: u32,
    pub nodes: NameTable,
    pub flows: NameTable,
    pub last: Vec<u32>,
}

impl Model for Index {
    ghost use Rattle.certificates.specs.Claims.{Outline};

    ghost Value = { Outline };

    ghost view = { λ s. record {
      periods = s.periods;
      nodes = s.nodes;
      flows = s.flows;
      last = s.last.items;
    } };
}

// The table of names of which no two are the same.
fn table_of_names(alloc: Global, names: &[Name]) -> Result<NameTable, Memory>
    requires { IsDistinct bytes_eq names.now }
    ensures { IfOk result (λ table. table ≡ names.now) }
{
    let mut table = NameTable::new(alloc);
    for name in names {
        table.push(alloc, name.as_slice())?;
    }
    Ok(table)
}

// The table of the names of flows of which no two are the same.
fn table_of_flows(alloc: Global, flows: &[Flow]) -> Result<NameTable, Memory>
    requires { IsDistinct bytes_eq (flow_names flows.now) }
    ensures { IfOk result (λ table. table ≡ flow_names flows.now) }
{
    let mut table = NameTable::new(alloc);
    for flow in flows {
        table.push(alloc, flow.name.as_slice())?;
    }
    Ok(table)
}

// The last period of each flow.
fn last_periods(alloc: Global, periods: u32, flows: &[Flow]) -> Result<Vec<u32>, Memory>
    ensures { IfOk result (λ last. last.items ≡ map (λ flow. periods_of periods flow.kind) flows.now) }
{
    let mut last = Vec::new(alloc);
    for flow in flows {
        last.push(flow.kind.periods(periods))?;
    }
    Ok(last)
}

impl Index {
    /// That of a scheme.
    pub(crate) fn new(alloc: Global, scheme: &Scheme) -> Result<Index, Memory>
        ensures { IfOk result (λ index. index ≡ outline_of scheme.now) }
    {
        let nodes = table_of_names(alloc, scheme.nodes.as_slice())?;
        let flows = table_of_flows(alloc, scheme.flows.as_slice())?;
        let last = last_periods(alloc, scheme.periods, scheme.flows.as_slice())?;
        Ok(Index {
            periods: scheme.periods,
            nodes,
            flows,
            last,
        })
    }
}
