//! What is asked of a scheme, tested.

ghost use Rattle.std.specs.Prelude.{[], ◌∷◌, ◌≡◌, ◌↔◌, ◌<◌, ◌≤◌, ◌+◌, ◌*◌, ◌^◌, ◌&&◌, nat_le, true, length, map, IsTrue, IfOk, MatchOption};
ghost use Rattle.std.specs.List.{IsDistinct, list_all};
ghost use Rattle.std.specs.Str.{bytes_eq};
ghost use Rattle.std.specs.Char.{is_ascii_graphic};
ghost use Rattle.np_frac.specs.Amount.{is_amount};
ghost use Rattle.np_model.specs.Scheme.Names.{is_name, flow_names};
ghost use Rattle.np_model.specs.Scheme.Valid.{is_amount_or_infinite, has_amount_gain, has_amounts, expanded_arcs, IsScheme};
ghost use Rattle.np_model.specs.Scheme.Parts.{IsOfParts};
ghost use Rattle.np_model.specs.Steps.Tests.{joins_nodes, has_gain, go_on, is_sound, HasSize, AreTested, Sees};

use crate::arc::Upper;
use crate::lists::{Flows, Fracs, Name, Names};
use crate::scheme::{Band, Flow, FlowKind, Scheme};
use np_frac::{Frac, Memory};
use std::alloc::Global;
use std::collections::HashSet;

fn are_graphic(bytes: &[u8]) -> bool
    ensures { result ≡ list_all is_ascii_graphic bytes.now }
{
    bytes.iter().all(|byte| byte.is_ascii_graphic())
}

/// Whether these bytes are a name: 1 to 64 bytes that print and are no space.
pub fn is_name(bytes: &[u8]) -> bool
    ensures { result ≡ is_name bytes.now }
{
    let size = bytes.len();
    0 < size && size <= 64 && are_graphic(bytes)
}

fn are_names(names: &[Name]) -> bool
    ensures { result ≡ list_all is_name names.now }
{
    names.iter().all(|name| is_name(name.as_slice()))
}

fn have_names(flows: &[Flow]) -> bool
    ensures { result ≡ list_all (λ flow. is_name flow.name) flows.now }
{
    flows.iter().all(|flow| is_name(flow.name.as_slice()))
}

// Adds a name to those that were seen, and tells whether it is new.
fn see<'a>(seen: &mut HashSet<&'a [u8]>, name: &'a [u8]) -> Result<bool, Memory>
    ensures { IfOk result (λ is_new. Sees seen.old seen.new name.entry is_new) }
{
    match seen.insert(name) {
        Ok(is_new) => Ok(is_new),
        Err(_) => Err(Memory),
    }
}

fn are_distinct(alloc: Global, names: &[Name]) -> Result<bool, Memory>
    ensures { IfOk result (λ distinct. IsTrue distinct ↔ IsDistinct bytes_eq names.now) }
{
    let mut seen: HashSet<&[u8]> = HashSet::new(alloc);
    for i in 0..names.len() {
        if !see(&mut seen, names[i].as_slice())? {
            return Ok(false);
        }
    }
    Ok(true)
}

fn have_distinct_names(alloc: Global, flows: &[Flow]) -> Result<bool, Memory>
    ensures { IfOk result (λ distinct. IsTrue distinct ↔ IsDistinct bytes_eq (flow_names flows.now)) }
{
    let mut seen: HashSet<&[u8]> = HashSet::new(alloc);
    for i in 0..flows.len() {
        if !see(&mut seen, flows[i].name.as_slice())? {
            return Ok(false);
        }
    }
    Ok(true)
}

fn are_amounts(values: &[Frac]) -> bool
    ensures { result ≡ list_all is_amount values.now }
{
    values.iter().all(|value| value.is_amount())
}

fn joins_nodes(nodes: u32, kind: FlowKind) -> bool
    ensures { result ≡ joins_nodes nodes kind }
{
    match kind {
        FlowKind::Link { from, to, .. } => from < nodes && to < nodes && from != to,
        FlowKind::Hold { node, .. } => node < nodes,
        FlowKind::Drain { node } => node < nodes,
        FlowKind::Feed { node } => node < nodes,
    }
}

fn has_gain(kind: FlowKind) -> bool
    ensures { result ≡ has_gain kind }
{
    let zero = Frac::whole(0);
    match kind {
        FlowKind::Link { gain, .. } => zero.is_below(gain),
        FlowKind::Hold { gain, .. } => zero.is_below(gain),
        FlowKind::Drain { .. } => true,
        FlowKind::Feed { .. } => true,
    }
}

fn has_amount_gain(kind: FlowKind) -> bool
    ensures { result ≡ has_amount_gain kind }
{
    match kind {
        FlowKind::Link { gain, .. } => gain.is_amount(),
        FlowKind::Hold { gain, .. } => gain.is_amount(),
        FlowKind::Drain { .. } => true,
        FlowKind::Feed { .. } => true,
    }
}

fn is_amount_or_infinite(bound: Upper) -> bool
    ensures { result ≡ is_amount_or_infinite bound }
{
    match bound {
        Upper::Finite(most) => most.is_amount(),
        Upper::Infinite => true,
    }
}

// Whether bands go on from an end, with slopes that do not fall from this one.
fn go_on(end: Upper, slope: Frac, bands: &[Band]) -> bool
    ensures { result ≡ go_on end slope bands.now }
{
    let zero = Frac::whole(0);
    let mut end = end;
    let mut slope = slope;
    for i in 0..bands.len() {
        let band = bands[i];
        if !end.is_finite() || band.slope.is_below(slope) || !band.width.is_above(zero) {
            return false;
        }
        end = band.width;
        slope = band.slope;
    }
    true
}

fn band_has_amounts(band: &Band) -> bool
    ensures { result ≡ (is_amount_or_infinite band.now.width && is_amount band.now.slope) }
{
    is_amount_or_infinite(band.width) && band.slope.is_amount()
}

fn bands_have_amounts(bands: &[Band]) -> bool
    ensures { result ≡ list_all (λ band. is_amount_or_infinite band.width && is_amount band.slope) bands.now }
{
    bands.iter().all(|band| band_has_amounts(band))
}

fn has_amounts(flow: &Flow) -> bool
    ensures { result ≡ has_amounts flow.now }
{
    has_amount_gain(flow.kind)
        && flow.lower.is_amount()
        && is_amount_or_infinite(flow.upper)
        && flow.cost.is_amount()
        && bands_have_amounts(flow.bands.as_slice())
}

fn is_sound(nodes: u32, flow: &Flow) -> bool
    ensures { result ≡ is_sound nodes flow.now }
{
    joins_nodes(nodes, flow.kind)
        && has_gain(flow.kind)
        && flow.upper.is_at_least(flow.lower)
        && go_on(flow.upper, flow.cost, flow.bands.as_slice())
        && has_amounts(flow)
}

fn are_sound(nodes: u32, flows: &[Flow]) -> bool
    ensures { result ≡ list_all (is_sound nodes) flows.now }
{
    flows.iter().all(|flow| is_sound(nodes, flow))
}

// Whether the flows have at most 100,000 arcs over all periods.
fn are_few(periods: u32, flows: &[Flow]) -> bool
    requires { periods ≤ 20000 }
    ensures { result ≡ nat_le (expanded_arcs periods flows.now) 100000 }
{
    let mut arcs = 0u128;
    for i in 0..flows.len() {
        let segments = 1 + flows[i].bands.as_slice().len() as u128;
        arcs += segments * u128::from(flows[i].kind.periods(periods));
        if 100_000 < arcs {
            return false;
        }
    }
    true
}

// Whether there are periods, not too many of them, of nodes and of flows, and a supply for each node in each period.
fn has_size(periods: u32, nodes: &[Name], supply: &[Frac], flows: &[Flow]) -> bool
    ensures { IsTrue result ↔ HasSize periods nodes.now supply.now flows.now }
{
    0 < periods
        && periods <= 20_000
        && nodes.len() <= 20_000
        && nodes.len() * periods as usize <= 20_000
        && supply.len() == periods as usize * nodes.len()
        && flows.len() <= u32::MAX as usize
}

// Whether all but the names' distinctness is as a scheme has it.
fn are_parts(periods: u32, nodes: &[Name], supply: &[Frac], flows: &[Flow]) -> bool
    ensures { IsTrue result ↔ AreTested periods nodes.now supply.now flows.now }
{
    has_size(periods, nodes, supply, flows)
        && are_few(periods, flows)
        && are_names(nodes)
        && have_names(flows)
        && are_amounts(supply)
        && are_sound(nodes.len() as u32, flows)
}

// Whether these are the parts of a scheme.
fn is_scheme(
    alloc: Global,
    periods: u32,
    nodes: &[Name],
    supply: &[Frac],
    flows: &[Flow],
) -> Result<bool, Memory>
    ensures { IfOk result (λ holds. IsTrue holds ↔ IsScheme periods nodes.now supply.now flows.now) }
{
    if !are_parts(periods, nodes, supply, flows) {
        return Ok(false);
    }
    if !are_distinct(alloc, nodes)? {
        return Ok(false);
    }
    if !have_distinct_names(alloc, flows)? {
        return Ok(false);
    }
    Ok(true)
}

impl Scheme {
    /// A scheme of these parts, where they make one, and `None` exactly where they do not: where there is no period, there
    /// are more than 20,000 periods or nodes over all periods, 100,000 arcs, or 2^32 flows, a name is not 1 to 64 bytes that
    /// print or stands twice, there is not one supply for each node in each period, a number is not that of an amount, or a
    /// flow joins no nodes or a node with itself, gains nothing, has its bounds out of order, or has bands beyond an
    /// infinite end, without width, or with falling slopes. Takes time in proportion to the parts.
    pub fn new(
        alloc: Global,
        periods: u32,
        nodes: Names,
        supply: Fracs,
        flows: Flows,
    ) -> Result<Option<Scheme>, Memory>
        ensures { IfOk result (λ made. MatchOption made (¬ (IsScheme periods nodes supply flows)) (λ scheme. IsOfParts scheme periods nodes supply flows)) }
    {
        let holds = is_scheme(
            alloc,
            periods,
            nodes.as_slice(),
            supply.as_slice(),
            flows.as_slice(),
        )?;
        if !holds {
            return Ok(None);
        }
        Ok(Some(Scheme {
            periods,
            nodes,
            supply,
            flows,
        }))
    }
}
