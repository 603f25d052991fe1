//! The staged arcs of a scheme.

ghost use Rattle.std.specs.Prelude.{◌≡◌, ◌+◌, ◌*◌, ◌<◌, ◌≤◌, ◌^◌, ◌==◌, ◌&&◌, ◌++◌, length, map, IfOk};
ghost use Rattle.std.specs.List.{filter_map, enumerate_from};
ghost use Rattle.np_model.specs.Scheme.Kinds.{is_hold, JoinsNodes};
ghost use Rattle.np_model.specs.Scheme.Plans.{stage_in, stage_of, staged};
ghost use Rattle.cert_checker.specs.Walk.{reject_stage};
ghost use Rattle.cert_checker.specs.Steps.Arcs.{as_stage};

use crate::answer::{CheckRefusal, Clause};
use np_frac::Memory;
use np_model::{Ends, Flow, FlowKind, Scheme};
use std::alloc::Global;

/// A flow in one period: the flow and its number, the period, and the expanded nodes where it begins and ends, the same one where it
/// has one end. Its gain stays with the flow.
#[derive(Clone, Copy)]
pub struct StagedArc<'a> {
    pub flow: &'a Flow,
    pub number: u32,
    pub period: u32,
    pub tail: u32,
    pub head: u32,
}

impl StagedArc<'_> {
    /// The ends among the expanded nodes.
    pub fn ends(&self) -> Ends
        ensures { result ≡ (as_stage self.now).ends }
    {
        match self.flow.kind {
            FlowKind::Link { gain, .. } | FlowKind::Hold { gain, .. } => Ends::Link {
                from: self.tail,
                to: self.head,
                gain,
            },
            FlowKind::Drain { .. } => Ends::Drain(self.tail),
            FlowKind::Feed { .. } => Ends::Feed(self.tail),
        }
    }

    /// The refusal of a clause at this staged arc.
    pub fn reject(&self, clause: Clause) -> CheckRefusal
        ensures { result ≡ reject_stage clause (as_stage self.now) }
    {
        CheckRefusal::Reject {
            clause,
            name: Some(self.number),
            period: self.period,
        }
    }
}

// Whether a flow has no staged arc in a period: a hold in the last.
fn is_left_out(kind: FlowKind, period: u32, periods: u32) -> bool
    ensures { result ≡ (is_hold kind && (period == periods)) }
{
    kind.is_hold() && period == periods
}

// The staged arc of a flow in a period.
fn stage_in<'a>(nodes: u32, period: u32, number: u32, flow: &'a Flow) -> StagedArc<'a>
    requires some { 0 < period }
    requires few { (period + 1) * nodes < 2 ^ 32 }
    requires short { period < 2 ^ 31 }
    requires joins { JoinsNodes nodes flow.now.kind }
    ensures { as_stage result ≡ stage_in nodes period (number, flow.now) }
{
    let ends = &flow.kind.ends_in(nodes, period);
    StagedArc {
        flow,
        number,
        period,
        tail: ends.tail(),
        head: ends.head(),
    }
}

// Adds the staged arcs of a period.
fn add_period<'a>(
    arcs: &mut Vec<StagedArc<'a>>,
    scheme: &'a Scheme,
    period: u32,
) -> Result<(), Memory>
    requires some { 0 < period }
    requires within { period ≤ scheme.now.periods }
    ensures { IfOk result (λ done. map as_stage arcs.new.items
        ≡ map as_stage arcs.old.items ++ filter_map (stage_of scheme.now.periods (length scheme.now.nodes) period) (enumerate_from 0 scheme.now.flows)) }
{
    let nodes = scheme.nodes.as_slice().len() as u32;
    let flows = scheme.flows.as_slice();
    for i in 0..flows.len() {
        let flow = &flows[i];
        if is_left_out(flow.kind, period, scheme.periods) {
            continue;
        }
        arcs.push(stage_in(nodes, period, i as u32, flow))?;
    }
    Ok(())
}

/// The staged arcs of a scheme, in order.
pub fn staged_arcs<'a>(alloc: Global, scheme: &'a Scheme) -> Result<Vec<StagedArc<'a>>, Memory>
    ensures { IfOk result (λ arcs. map as_stage arcs.items ≡ staged scheme.now) }
{
    let mut arcs = Vec::new(alloc);
    for before in 0..scheme.periods {
        add_period(&mut arcs, scheme, before + 1)?;
    }
    Ok(arcs)
}
