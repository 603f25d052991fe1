//! The cost of the flows.

ghost use Rattle.std.specs.Prelude.{◌≡◌, IsOk, length, map};
ghost use Rattle.std.specs.List.{All, zip};
ghost use Rattle.np_model.specs.Network.Arcs.{lesser};
ghost use Rattle.np_model.specs.Scheme.Segments.{segments_beyond};
ghost use Rattle.cert_checker.specs.Walk.{end_of, add_cost, add_segments, cost_of, cost_clause, goes_on_unless, Sums};
ghost use Rattle.cert_checker.specs.Steps.Parts.{EndsFit, as_segment, add_segment};
ghost use Rattle.cert_checker.specs.Steps.Arcs.{as_stage};

use crate::answer::{CheckRefusal, Clause};
use crate::segment::{Segment, segment_beyond};
use crate::staged::StagedArc;
use np_frac::{Frac, Past};
use np_model::{CheckRow, Flow, Upper};

// The running cost with what the amount costs in a segment beyond the first.
fn add_segment(running: Frac, segment: &Segment, amount: Frac) -> Result<Frac, Past>
    ensures { result ≡ add_segment amount (as_segment segment.now) running }
{
    if !segment.start.is_below(amount) {
        return Ok(running);
    }
    let part = segment.end.lesser(amount).minus(segment.start)?;
    let cost = segment.slope.times(part)?;
    running.plus(cost)
}

// The running cost with what the amount costs in all segments beyond the first.
fn add_segments(running: Frac, flow: &Flow, amount: Frac) -> Result<Frac, Past>
    requires { IsOk (end_of flow.now.upper flow.now.bands) }
    ensures { result ≡ add_segments amount (segments_beyond flow.now.upper flow.now.bands) running }
{
    let bands = flow.bands.as_slice();
    let mut end = flow.upper;
    let mut running = running;
    for i in 0..bands.len() {
        match segment_beyond(end, bands[i]) {
            Some(segment) => {
                running = add_segment(running, &segment, amount)?;
                end = segment.end;
            }
            None => return Ok(running),
        }
    }
    Ok(running)
}

// The running cost with that of a staged arc.
fn add_cost(running: Frac, arc: &StagedArc, amount: Frac) -> Result<Frac, Past>
    requires { EndsFit (as_stage arc.now) }
    ensures { result ≡ add_cost (as_stage arc.now, amount) running }
{
    let flow = arc.flow;
    let cost = flow.cost.times(flow.upper.lesser(amount))?;
    let sum = running.plus(cost)?;
    add_segments(sum, flow, amount)
}

// The cost of all flows.
fn cost_of(arcs: &[StagedArc], amounts: &[Frac]) -> Result<Frac, Past>
    requires long { length amounts.now ≡ length arcs.now }
    requires ends { All EndsFit (map as_stage arcs.now) }
    ensures { result ≡ cost_of (zip (map as_stage arcs.now) amounts.now) }
{
    let mut running = Frac::whole(0);
    for i in 0..arcs.len() {
        running = add_cost(running, &arcs[i], amounts[i])?;
    }
    Ok(running)
}

/// Whether the flows cost this much.
pub fn check_cost(arcs: &[StagedArc], amounts: &[Frac], cost: Frac) -> Result<(), CheckRefusal>
    requires long { length amounts.now ≡ length arcs.now }
    requires ends { All EndsFit (map as_stage arcs.now) }
    ensures { result ≡ goes_on_unless (cost_clause (zip (map as_stage arcs.now) amounts.now) cost) }
{
    match cost_of(arcs, amounts) {
        Ok(sum) => {
            if sum.is_same(cost) {
                return Ok(());
            }
            Err(CheckRefusal::Reject {
                clause: Clause::Cost,
                name: None,
                period: 0,
            })
        }
        Err(past) => Err(CheckRefusal::Past {
            row: CheckRow::C4,
            past,
        }),
    }
}

/// The cost of the flows, or the first operation of it that overflows.
pub fn sum_cost(arcs: &[StagedArc], amounts: &[Frac]) -> Result<Frac, CheckRefusal>
    requires long { length amounts.now ≡ length arcs.now }
    requires ends { All EndsFit (map as_stage arcs.now) }
    ensures { Sums result (cost_clause (zip (map as_stage arcs.now) amounts.now)) }
{
    match cost_of(arcs, amounts) {
        Ok(sum) => Ok(sum),
        Err(past) => Err(CheckRefusal::Past {
            row: CheckRow::C4,
            past,
        }),
    }
}
