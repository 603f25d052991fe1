//! `demo`: the least cost of the demo network of a number.

ghost use Rattle.std.specs.Prelude.{◌≡◌, ◌≤◌, IfOk, length};
ghost use Rattle.np_model.specs.Scheme.Fits.{PlanFits};
ghost use Rattle.np_model.specs.Scheme.Plans.{staged};
ghost use Rattle.convex_arcs.specs.Segments.{flat_arcs};
ghost use Rattle.demo_network.specs.Demo.{IsDemo};
ghost use Rattle.netplan_top.specs.Commands.Demo.{demo_job, IsDemoAnswer};
ghost use Rattle.netplan_top.specs.Steps.Solved.{IsFoundAs};

use crate::commands::Answer;
use crate::commands::solve::{found, told};
use crate::texts::summary_text;
use crate::words::Job;
use convex_arcs::flatten;
use demo_network::demo_scheme;
use demo_network::laws::demo_has_plans;
use np_frac::Memory;
use np_model::{Gate, Plan, Scheme};
use period_expand::expand_periods;
use std::alloc::Global;
use std::thread::Threads;

// How the demo is solved: a plan that shows nothing is printed with its log.
fn demo_job() -> Job
    ensures { result ≡ demo_job }
{
    Job {
        workers: 4,
        budget: 200_000,
        log: true,
    }
}

// How many arcs the expanded network of a scheme has.
fn arc_count(alloc: Global, scheme: &Scheme) -> Result<usize, Memory>
    ensures { IfOk result (λ count. count ≡ length (flat_arcs (staged scheme.now))) }
{
    let expanded = expand_periods(alloc, scheme)?;
    let net = flatten(alloc, &expanded)?;
    Ok(net.arcs.as_slice().len())
}

// What is said of a plan of the demo: the summary where it is optimal, and its text else.
fn summed_up(alloc: Global, number: u32, scheme: &Scheme, plan: &Plan) -> Result<Answer, Memory>
    requires demo { IsDemo number scheme.now }
    requires fits { PlanFits scheme.now plan.now }
    requires found { IsFoundAs plan.now.verdict demo_job scheme.now plan.now }
    ensures { IfOk result (λ answer. IsDemoAnswer number answer.status answer.text.items) }
{
    demo_has_plans();
    let told = told(alloc, scheme, demo_job(), plan)?;
    if told.status != 0 {
        return Ok(told);
    }
    let Some(cost) = plan.amount else {
        unreachable!()
    };
    let nodes = scheme.supply.as_slice().len();
    let arcs = arc_count(alloc, scheme)?;
    let text = summary_text(alloc, number, nodes, arcs, cost)?;
    Ok(Answer { status: 0, text })
}

/// What `demo` says of a number.
pub fn demo_answer<G: Gate>(
    rt: &(impl Threads + Sync),
    alloc: Global,
    number: u32,
    gate: &G,
) -> Result<Answer, Memory>
    requires some { 1 ≤ number }
    requires few { number ≤ 1000 }
    ensures { IfOk result (λ answer. IsDemoAnswer number answer.status answer.text.items) }
{
    let scheme = demo_scheme(alloc, number)?;
    let plan = found(rt, alloc, &scheme, demo_job(), gate)?;
    summed_up(alloc, number, &scheme, &plan)
}
