//! A network that is being read.

ghost use Rattle.std.specs.Prelude.{◌≡◌, ◌+◌, ◌++◌, ◌∷◌, ◌<◌, ◌≤◌, [], Some, None, IfOk, OnOk, slice_get, length};
ghost use Rattle.std.specs.Option.{option_and_then, option_map_or};
ghost use Rattle.csv.specs.Records.{fields_of};
ghost use Rattle.np_records.specs.Names.{place_of};
ghost use Rattle.np_model.specs.Scheme.Kinds.{periods_of};
ghost use Rattle.net_csv.specs.declared.refused.Stop.{Stop};
ghost use Rattle.np_records.specs.Faults.{Reads};
ghost use Rattle.net_csv.specs.Faults.{node_fault, supply_fault, head_fault, flow_fault, piece_fault, band_fault, record_fault, has_finite_end, present_slope};
ghost use Rattle.net_csv.specs.Steps.Tables.{HasRoom, IsMadeOf, IsReady, TakesRecord, head_of, no_tables, plain_flow, band_added, banded, with_node, with_supply, with_flow, with_piece, with_record};

use crate::fields::{amount, fields, new_name, period, upper, used_name};
use crate::given::Given;
use crate::kinds::{bounds_place, ends, flow_kind, is_flow};
use crate::numbers::{Numbers, arcs_of, bounds, read_numbers, room_of_arcs, room_of_nodes};
use crate::refused::{Code, Stop};
use crate::supply::supply_of;
use np_frac::{Frac, Memory};
use np_model::{Band, Bands, Flow, FlowKind, Flows, Name, Names, Scheme, Upper};
use np_records::{ByteRecord, NameTable, field, is_kind};
use std::alloc::Global;
use std::marker::Model;

/// The number of periods, the names, the supplies and the flows of the records so far, and how many
/// arcs the flows have over all periods.
#[derive(Drop)]
pub(crate) struct Draft {
    pub periods: u32,
    pub nodes: NameTable,
    pub names: NameTable,
    pub supplies: Vec<Given>,
    pub flows: Vec<Flow>,
    pub arcs: usize,
}

impl Model for Draft {
    ghost use Rattle.net_csv.specs.Steps.Tables.{Tables};

    ghost Value = { Tables };

    ghost view = { λ s. record {
      periods = s.periods;
      nodes = s.nodes;
      names = s.names;
      supplies = s.supplies.items;
      flows = s.flows.items;
      arcs = s.arcs;
    } };
}

// What a flow joins, and its numbers.
#[derive(Clone, Copy)]
struct Head {
    kind: FlowKind,
    numbers: Numbers,
}

// A flow without bands.
fn plain_flow(alloc: Global, name: &[u8], head: Head) -> Result<Flow, Memory>
    ensures { IfOk result (λ flow. flow ≡ plain_flow name.now head.kind head.numbers) }
{
    let name = Vec::from_slice(alloc, name)?;
    let Head { kind, numbers } = head;
    let Numbers { lower, upper, cost } = numbers;
    Ok(Flow {
        name: Name { items: name },
        kind,
        lower,
        upper,
        cost,
        bands: Bands {
            items: Vec::new(alloc),
        },
    })
}

// Whether a band may stand behind the present end of a flow.
fn has_finite_end(flow: &Flow) -> bool
    ensures { result ≡ has_finite_end flow.now }
{
    match flow.bands.items.last() {
        Some(band) => band.width.is_finite(),
        None => flow.upper.is_finite(),
    }
}

// What a unit of flow costs just below the present end.
fn present_slope(flow: &Flow) -> Frac
    ensures { result ≡ present_slope flow.now }
{
    match flow.bands.items.last() {
        Some(band) => band.slope,
        None => flow.cost,
    }
}

// Looks whether the band may be added to a flow, and how many arcs there are then.
fn test_band(periods: u32, arcs: usize, band: &Band, flow: &Flow) -> Result<usize, Code>
    requires { arcs ≤ 100000 }
    ensures { Reads result (band_fault periods arcs band.now flow.now) (arcs + periods_of periods flow.now.kind) }
{
    if !has_finite_end(flow) {
        return Err(Code::PieceAfterInfinite);
    }
    if !band.width.is_above(Frac::whole(0)) {
        return Err(Code::BadBounds);
    }
    if band.slope.is_below(present_slope(flow)) {
        return Err(Code::NotConvex);
    }
    let arcs = arcs + arcs_of(periods, &flow.kind);
    room_of_arcs(arcs)?;
    Ok(arcs)
}

// Adds a band to a flow.
fn push_band(flow: &mut Flow, band: Band) -> Result<(), Memory>
    ensures { OnOk result (flow.new ≡ banded flow.old band) }
{
    flow.bands.items.push(band)?;
    Ok(())
}

impl Draft {
    /// No records, over so many periods.
    pub(crate) fn new(alloc: Global, periods: u32) -> Draft
        ensures { result ≡ no_tables periods }
    {
        Draft {
            periods,
            nodes: NameTable::new(alloc),
            names: NameTable::new(alloc),
            supplies: Vec::new(alloc),
            flows: Vec::new(alloc),
            arcs: 0,
        }
    }

    // Takes a node record.
    fn node(&mut self, alloc: Global, row: &ByteRecord) -> Result<(), Stop>
        requires { HasRoom self.old }
        ensures { TakesRecord result (node_fault self.old.periods self.old.nodes (fields_of row.now)) self.new
            (with_node self.old (fields_of row.now)) }
    {
        fields(row, 2)?;
        let name = field(row, 1);
        new_name(&self.nodes, name)?;
        room_of_nodes(self.periods, self.nodes.len() + 1)?;
        self.nodes.push(alloc, name)?;
        Ok(())
    }

    // Adds a supply.
    fn push_supply(&mut self, given: Given) -> Result<(), Memory>
        ensures { OnOk result (self.new ≡ record self.old { supplies = self.old.supplies ++ given ∷ [] }) }
    {
        self.supplies.push(given)?;
        Ok(())
    }

    // Takes a supply record.
    fn supply(&mut self, row: &ByteRecord) -> Result<(), Stop>
        requires { HasRoom self.old }
        ensures { TakesRecord result (supply_fault self.old.periods self.old.nodes (fields_of row.now)) self.new
            (with_supply self.old (fields_of row.now)) }
    {
        fields(row, 4)?;
        let node = used_name(&self.nodes, field(row, 1))? as u32;
        let period = period(self.periods, field(row, 2))?;
        let amount = amount(field(row, 3))?;
        let given = Given {
            node,
            period,
            amount,
        };
        self.push_supply(given)?;
        Ok(())
    }

    // Adds a flow, with so many arcs.
    fn push_flow(
        &mut self,
        alloc: Global,
        name: &[u8],
        flow: Flow,
        arcs: usize,
    ) -> Result<(), Memory>
        requires { place_of self.old.names name.now ≡ None }
        ensures { OnOk result (self.new ≡ record self.old {
          names = self.old.names ++ name.now ∷ [];
          flows = self.old.flows ++ flow ∷ [];
          arcs = arcs;
        }) }
    {
        self.names.push(alloc, name)?;
        self.flows.push(flow)?;
        self.arcs = arcs;
        Ok(())
    }

    // Reads what a flow joins and its numbers.
    fn read_head(&self, row: &ByteRecord) -> Result<Head, Code>
        requires { HasRoom self.now }
        ensures value { Reads result (head_fault self.now.nodes self.now.names (fields_of row.now))
            (head_of self.now.nodes (fields_of row.now)) }
    {
        let place = bounds_place(row);
        fields(row, place + 3)?;
        new_name(&self.names, field(row, 1))?;
        let kind = flow_kind(&self.nodes, row)?;
        let numbers = read_numbers(row, place)?;
        ends(row)?;
        bounds(&numbers)?;
        Ok(Head { kind, numbers })
    }

    // Takes the record of a flow.
    fn flow(&mut self, alloc: Global, row: &ByteRecord) -> Result<(), Stop>
        requires { HasRoom self.old }
        ensures { TakesRecord result (flow_fault self.old.periods self.old.nodes self.old.names self.old.arcs (fields_of row.now)) self.new
            (with_flow self.old (fields_of row.now)) }
    {
        let name = field(row, 1);
        let head = self.read_head(row)?;
        let arcs = self.arcs + arcs_of(self.periods, &head.kind);
        room_of_arcs(arcs)?;
        let flow = plain_flow(alloc, name, head)?;
        self.push_flow(alloc, name, flow, arcs)?;
        Ok(())
    }

    // Adds a band to the flow at this place.
    fn band(&mut self, place: usize, band: Band) -> Result<(), Stop>
        requires room { HasRoom self.old }
        requires within { place < length self.old.flows }
        ensures { TakesRecord result (option_and_then (band_fault self.old.periods self.old.arcs band) (slice_get self.old.flows place)) self.new
            (option_map_or (band_added self.old place band) (slice_get self.old.flows place) self.old) }
    {
        let arcs = test_band(self.periods, self.arcs, &band, &self.flows[place])?;
        push_band(&mut self.flows[place], band)?;
        self.arcs = arcs;
        Ok(())
    }

    // Takes a piece record.
    fn piece(&mut self, row: &ByteRecord) -> Result<(), Stop>
        requires { HasRoom self.old }
        ensures { TakesRecord result (piece_fault self.old.periods self.old.names self.old.arcs self.old.flows (fields_of row.now)) self.new
            (with_piece self.old (fields_of row.now)) }
    {
        fields(row, 4)?;
        let place = used_name(&self.names, field(row, 1))?;
        let width = upper(field(row, 2))?;
        let slope = amount(field(row, 3))?;
        self.band(place, Band { width, slope })
    }

    /// Takes a record of the body, other than `end`.
    pub(crate) fn take(&mut self, alloc: Global, row: &ByteRecord) -> Result<(), Stop>
        requires { HasRoom self.old }
        ensures { TakesRecord result (record_fault self.old.periods self.old.nodes self.old.names self.old.arcs self.old.flows (fields_of row.now)) self.new
            (with_record self.old (fields_of row.now)) }
    {
        if is_kind(row, b"node") {
            return self.node(alloc, row);
        }
        if is_kind(row, b"supply") {
            return self.supply(row);
        }
        if is_flow(row) {
            return self.flow(alloc, row);
        }
        if is_kind(row, b"piece") {
            return self.piece(row);
        }
        Err(Stop::Fault(Code::Unknown))
    }

    /// The scheme of what was taken.
    pub(crate) fn into_scheme(self, alloc: Global) -> Result<Scheme, Memory>
        requires { IsReady self }
        ensures { IfOk result (λ scheme. IsMadeOf self scheme) }
    {
        let Draft {
            periods,
            nodes,
            supplies,
            flows,
            ..
        } = self;
        let supply = supply_of(alloc, periods, nodes.len(), &supplies)?;
        let nodes = names_of(alloc, &nodes)?;
        Ok(Scheme {
            periods,
            nodes,
            supply,
            flows: Flows { items: flows },
        })
    }
}

// The names of a table, in order.
fn names_of(alloc: Global, table: &NameTable) -> Result<Names, Memory>
    ensures { IfOk result (λ names. names ≡ table.now) }
{
    let mut items = Vec::new(alloc);
    for place in 0..table.len() {
        let name = Vec::from_slice(alloc, table.name_at(place))?;
        items.push(Name { items: name })?;
    }
    Ok(Names { items })
}
