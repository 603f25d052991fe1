//! `solve`: a least-cost plan, or why there is none.

ghost use Rattle.std.specs.Prelude.{◌≡◌, ◌<◌, ◌^◌, [], IfOk, length};
ghost use Rattle.np_model.specs.Scheme.Fits.{PlanFits};
ghost use Rattle.np_runs.specs.Verdicts.{log_of};
ghost use Rattle.simplex_driver.specs.Budgets.{IsCrew, IsBudget};
ghost use Rattle.certificates.specs.Certificates.{overflow_plan};
ghost use Rattle.netplan_top.specs.Commands.Solve.{IsSolveAnswer, prints_log};
ghost use Rattle.netplan_top.specs.Steps.Solved.{IsFoundAs, IsSolved, IsTold, verdict_status};

use crate::commands::Answer;
use crate::commands::stop::{network_stop, stopped};
use crate::words::Job;
use cert_checker::laws::walk_proves;
use certificates::laws::ended_outcomes;
use certificates::{TextRefusal, certify, plan_text};
use convex_arcs::flatten;
use net_csv::{Tail, read_scheme};
use np_frac::Memory;
use np_model::{Fracs, Gate, Log, Outcome, Overflow, Plan, Scheme, Verdict};
use period_expand::expand_periods;
use std::alloc::Global;
use std::thread::Threads;

// The log of an outcome.
fn into_log(outcome: Outcome) -> Log
    ensures { result ≡ log_of outcome }
{
    match outcome {
        Outcome::Optimal { log, .. } => log,
        Outcome::Infeasible { log, .. } => log,
        Outcome::Unbounded { log, .. } => log,
        Outcome::Budget { log, .. } => log,
        Outcome::Overflow { log, .. } => log,
    }
}

// No amounts.
fn no_amounts(alloc: Global) -> Fracs
    ensures { result ≡ [] }
{
    Fracs {
        items: Vec::new(alloc),
    }
}

// The plan of an outcome in whose sums an operation overflows.
fn overflowed(alloc: Global, overflow: Overflow, log: Log) -> Plan
    ensures { result ≡ overflow_plan overflow log }
{
    Plan {
        verdict: Verdict::Overflow,
        amount: None,
        flows: no_amounts(alloc),
        prices: no_amounts(alloc),
        ray: no_amounts(alloc),
        arc: None,
        overflow: Some(overflow),
        log,
    }
}

/// The plan of what a run over the expanded network of a scheme ends in.
pub(crate) fn found<G: Gate>(
    rt: &(impl Threads + Sync),
    alloc: Global,
    scheme: &Scheme,
    job: Job,
    gate: &G,
) -> Result<Plan, Memory>
    requires workers { IsCrew job.workers }
    requires budget { IsBudget job.budget }
    ensures fits { IfOk result (PlanFits scheme.now) }
    ensures found { IfOk result (λ plan. IsFoundAs plan.verdict job scheme.now plan) }
{
    ended_outcomes();
    walk_proves();
    convex_arcs::laws::amounts();
    let expanded = expand_periods(alloc, scheme)?;
    let net = flatten(alloc, &expanded)?;
    let outcome = simplex_driver::solve(rt, alloc, &net, job.workers, job.budget, gate)?;
    match certify(alloc, scheme, &expanded, &outcome) {
        Ok(plan) => Ok(plan),
        Err(TextRefusal::Past(overflow)) => Ok(overflowed(alloc, overflow, into_log(outcome))),
        Err(TextRefusal::Memory) => Err(Memory),
    }
}

// The status that goes with a verdict.
fn status_of(verdict: Verdict) -> u8
    ensures { result ≡ verdict_status verdict }
{
    match verdict {
        Verdict::Optimal => 0,
        Verdict::Infeasible => 1,
        Verdict::Unbounded => 2,
        Verdict::Budget => 3,
        Verdict::Overflow => 4,
    }
}

// Whether the log of a plan is printed: where it is asked for, and always where the plan shows nothing.
fn prints_log(asked: bool, verdict: Verdict) -> bool
    ensures { result ≡ prints_log asked verdict }
{
    match verdict {
        Verdict::Optimal => asked,
        Verdict::Infeasible => asked,
        Verdict::Unbounded => asked,
        Verdict::Budget => true,
        Verdict::Overflow => true,
    }
}

/// The text of a plan, with its status.
pub(crate) fn told(alloc: Global, scheme: &Scheme, job: Job, plan: &Plan) -> Result<Answer, Memory>
    requires fits { PlanFits scheme.now plan.now }
    ensures { IfOk result (λ answer. IsTold job scheme.now plan.now answer.status answer.text.items) }
{
    let log = prints_log(job.log, plan.verdict);
    let text = plan_text(alloc, scheme, plan, log)?;
    let status = status_of(plan.verdict);
    Ok(Answer { status, text })
}

// What is said of a scheme that stands alone.
fn solved<G: Gate>(
    rt: &(impl Threads + Sync),
    alloc: Global,
    scheme: &Scheme,
    job: Job,
    gate: &G,
) -> Result<Answer, Memory>
    requires workers { IsCrew job.workers }
    requires budget { IsBudget job.budget }
    ensures { IfOk result (λ answer. IsSolved job scheme.now answer.status answer.text.items) }
{
    let plan = found(rt, alloc, scheme, job, gate)?;
    told(alloc, scheme, job, &plan)
}

/// What `solve` says of an input.
pub fn solve_answer<G: Gate>(
    rt: &(impl Threads + Sync),
    alloc: Global,
    job: Job,
    bytes: &[u8],
    gate: &G,
) -> Result<Answer, Memory>
    requires workers { IsCrew job.workers }
    requires budget { IsBudget job.budget }
    requires short { length bytes.now < 2 ^ 32 }
    ensures { IfOk result (λ answer. IsSolveAnswer job bytes.now answer.status answer.text.items) }
{
    match read_scheme(alloc, bytes, Tail::Nothing) {
        Ok(read) => solved(rt, alloc, &read.0, job, gate),
        Err(refused) => stopped(alloc, network_stop(refused)),
    }
}
