//! The plan of what a run has ended in.

ghost use Rattle.std.specs.Prelude.{◌≡◌, [], None, IfOk, length};
ghost use Rattle.np_model.specs.declared.plan.Verdict.TheVariants as verdict;
ghost use Rattle.np_model.specs.Scheme.Fits.{IsShortNumber, LogFits, PlaceFits, PlanFits};
ghost use Rattle.np_model.specs.Scheme.Plans.{staged, IsFeasiblePlan, PricesShow, PricesForbid, FallsAlong};
ghost use Rattle.convex_arcs.specs.Gathered.{gathered, amounts_of};
ghost use Rattle.convex_arcs.specs.Segments.{flat_arcs};
ghost use Rattle.certificates.specs.Certificates.{HasEnded, HasEndedWithin, optimal_plan, infeasible_plan, unbounded_plan, budget_plan, overflow_plan, total_overflow, unless_walk_overflows, certificate, Certifies, IsAccepted};
ghost use Rattle.certificates.specs.Steps.Certifying.{IsNoReject, told_of_walk, told_of_gathering, Gathered};

use crate::amounts::no_fracs;
use crate::laws::ended_outcomes;
use cert_checker::laws::{walk_accepts, walk_proves};
use cert_checker::{CheckRefusal, check, summed_cost, summed_gap};
use convex_arcs::{GatherRefusal, gather};
use np_frac::{Memory, Past};
use np_model::{
    CheckRow, Entries, Fracs, Log, Outcome, Overflow, Place, Plan, Row, Scheme, Verdict,
};
use period_expand::Expanded;
use std::alloc::Global;

/// Why an outcome has no plan.
#[derive(Clone, Copy, Debug, PartialEq, Eq)]
pub enum TextRefusal {
    /// The first operation of the plan's sums whose exact result does not fit a fraction: one of row A8, at the row of the checker.
    Past(Overflow),
    /// Want of memory.
    Memory,
}

impl From<Memory> for TextRefusal {
    ghost use Rattle.std.specs.Prelude.{◌≡◌};
    ghost use Rattle.certificates.specs.declared.certifying.TextRefusal.TheVariants as text;

    ghost from_gives = { λ _ e. e ≡ text.Memory };

    fn from(_memory: Memory) -> TextRefusal {
        TextRefusal::Memory
    }
}

// ---- refusals

// An operation of the plan's sums that overflows.
fn total_overflow(row: CheckRow, past: Past) -> Overflow
    ensures { result ≡ total_overflow row past }
{
    Overflow {
        row: Row::A8,
        place: Place::Check(row),
        past,
    }
}

// What a refusal of the walk is told as, where no clause fails.
fn told_of_walk(refusal: CheckRefusal) -> TextRefusal
    requires { IsNoReject refusal }
    ensures { result ≡ told_of_walk refusal }
{
    match refusal {
        CheckRefusal::Past { row, past } => TextRefusal::Past(total_overflow(row, past)),
        CheckRefusal::Memory => TextRefusal::Memory,
        CheckRefusal::Reject { .. } => unreachable!(),
    }
}

fn told_of_gathering(refusal: GatherRefusal) -> TextRefusal
    ensures { result ≡ told_of_gathering refusal }
{
    match refusal {
        GatherRefusal::Past(past) => TextRefusal::Past(total_overflow(CheckRow::C0, past)),
        GatherRefusal::Memory => TextRefusal::Memory,
    }
}

// ---- parts

// The same amounts.
fn copied(alloc: Global, fracs: &Fracs) -> Result<Fracs, Memory>
    ensures { IfOk result (λ copy. copy ≡ fracs.now) }
{
    let items = Vec::from_slice(alloc, fracs.as_slice())?;
    Ok(Fracs { items })
}

// The same log.
fn copied_log(alloc: Global, log: &Log) -> Result<Log, Memory>
    ensures { IfOk result (λ copy. copy ≡ log.now) }
{
    let items = Vec::from_slice(alloc, log.entries.as_slice())?;
    Ok(Log {
        turned: log.turned,
        entries: Entries { items },
    })
}

// The amounts of the staged arcs, from the flows of their segments.
fn gathered(alloc: Global, expanded: &Expanded, flows: &Fracs) -> Result<Fracs, TextRefusal>
    requires { length flows.now ≡ length (flat_arcs expanded.now.staged) }
    ensures told { Gathered result (gathered expanded.now.staged flows.now) }
    ensures exact { IfOk result (λ amounts. amounts ≡ amounts_of expanded.now.staged flows.now) }
{
    convex_arcs::laws::amounts();
    match gather(alloc, expanded, flows.as_slice()) {
        Ok(amounts) => Ok(amounts),
        Err(refusal) => Err(told_of_gathering(refusal)),
    }
}

// ---- the plan of each verdict

// The plan of flows that cost least, as prices show.
fn optimal(
    alloc: Global,
    scheme: &Scheme,
    flows: Fracs,
    prices: Fracs,
    log: Log,
) -> Result<Plan, TextRefusal>
    requires feasible { IsFeasiblePlan scheme.now flows }
    requires shown { PricesShow scheme.now prices flows }
    ensures plan { Certifies result (unless_walk_overflows scheme.now (optimal_plan scheme.now flows prices log)) }
    ensures accepted { IfOk result (IsAccepted scheme.now) }
    ensures fits { LogFits log → IfOk result (PlanFits scheme.now) }
{
    walk_accepts();
    walk_proves();
    match summed_cost(alloc, scheme, flows.as_slice(), prices.as_slice()) {
        Ok(cost) => Ok(Plan {
            verdict: Verdict::Optimal,
            amount: Some(cost),
            flows,
            prices,
            ray: no_fracs(alloc),
            arc: None,
            overflow: None,
            log,
        }),
        Err(refusal) => Err(told_of_walk(refusal)),
    }
}

// The plan of prices that certify that there is none.
fn infeasible(alloc: Global, scheme: &Scheme, prices: Fracs, log: Log) -> Result<Plan, TextRefusal>
    requires { PricesForbid scheme.now prices }
    ensures plan { Certifies result (unless_walk_overflows scheme.now (infeasible_plan scheme.now prices log)) }
    ensures accepted { IfOk result (IsAccepted scheme.now) }
    ensures fits { LogFits log → IfOk result (PlanFits scheme.now) }
{
    walk_accepts();
    walk_proves();
    match summed_gap(alloc, scheme, prices.as_slice()) {
        Ok(gap) => Ok(Plan {
            verdict: Verdict::Infeasible,
            amount: Some(gap),
            flows: no_fracs(alloc),
            prices,
            ray: no_fracs(alloc),
            arc: None,
            overflow: None,
            log,
        }),
        Err(refusal) => Err(told_of_walk(refusal)),
    }
}

// An empty log, since the walk reads none.
fn no_log(alloc: Global) -> Log
    ensures { result ≡ record { turned = None; entries = [] } }
{
    Log {
        turned: None,
        entries: Entries {
            items: Vec::new(alloc),
        },
    }
}

// The plan of flows along whose ray the cost falls without end.
fn unbounded(
    alloc: Global,
    scheme: &Scheme,
    flows: Fracs,
    ray: Fracs,
    log: Log,
) -> Result<Plan, TextRefusal>
    requires { FallsAlong scheme.now flows ray }
    ensures plan { Certifies result (unless_walk_overflows scheme.now (unbounded_plan flows ray log)) }
    ensures accepted { IfOk result (IsAccepted scheme.now) }
    ensures fits { LogFits log → IfOk result (PlanFits scheme.now) }
{
    walk_accepts();
    let mut plan = Plan {
        verdict: Verdict::Unbounded,
        amount: None,
        flows,
        prices: no_fracs(alloc),
        ray,
        arc: None,
        overflow: None,
        log: no_log(alloc),
    };
    match check(alloc, scheme, &plan) {
        Ok(_) => {
            plan.log = log;
            Ok(plan)
        }
        Err(refusal) => Err(told_of_walk(refusal)),
    }
}

// The plan of a run whose budget ended.
fn out_of_budget(alloc: Global, arc: u32, log: Log) -> Plan
    ensures { result ≡ budget_plan arc log }
{
    Plan {
        verdict: Verdict::Budget,
        amount: None,
        flows: no_fracs(alloc),
        prices: no_fracs(alloc),
        ray: no_fracs(alloc),
        arc: Some(arc),
        overflow: None,
        log,
    }
}

// The plan of a run in which an operation overflowed.
fn overflowed(alloc: Global, overflow: Overflow, log: Log) -> Plan
    ensures { result ≡ overflow_plan overflow log }
{
    Plan {
        verdict: Verdict::Overflow,
        amount: None,
        flows: no_fracs(alloc),
        prices: no_fracs(alloc),
        ray: no_fracs(alloc),
        arc: None,
        overflow: Some(overflow),
        log,
    }
}

/// The plan of an outcome that a run over the expanded network of a scheme has ended in.
///
/// It has the verdict and the log of the outcome, and of the other parts those that the outcome has: its potentials as prices; its flows and its
/// ray, gathered to amounts of the staged arcs; its arc, and the operation that overflowed. Of an optimal plan the amount is its cost, and of
/// an infeasible one the gap of its prices, as the checker sums them. `expanded` is what
/// [`expand_periods`](period_expand::expand_periods) answers for the scheme.
///
/// It makes every sum that the checker makes on that plan: the amounts of the staged arcs in order, those of the flows and then those of the
/// ray; and then the operations of the walk, in its order. [`TextRefusal::Past`] comes exactly where one of them overflows, and tells
/// the first. So [`check`] accepts each optimal, infeasible or unbounded plan that comes out, unless memory ran out. No
/// sum is made of a plan whose budget ended or in whose run an operation overflowed. Where the budget was at most a million pivots, the plan
/// fits the scheme, its log too. It takes time and memory in proportion to the nodes, the arcs of the expanded network and the log.
pub fn certify(
    alloc: Global,
    scheme: &Scheme,
    expanded: &Expanded,
    outcome: &Outcome,
) -> Result<Plan, TextRefusal>
    requires expanded { expanded.now.staged ≡ staged scheme.now }
    requires ended { HasEnded scheme.now outcome.now }
    ensures plan { Certifies result (certificate scheme.now outcome.now) }
    ensures accepted { IfOk result (IsAccepted scheme.now) }
    ensures fits { HasEndedWithin 1000000 scheme.now outcome.now → IfOk result (PlanFits scheme.now) }
{
    ended_outcomes();
    match outcome {
        Outcome::Optimal {
            flows,
            potentials,
            log,
        } => {
            let amounts = gathered(alloc, expanded, flows)?;
            let prices = copied(alloc, potentials)?;
            let log = copied_log(alloc, log)?;
            optimal(alloc, scheme, amounts, prices, log)
        }
        Outcome::Infeasible { potentials, log } => {
            let prices = copied(alloc, potentials)?;
            let log = copied_log(alloc, log)?;
            infeasible(alloc, scheme, prices, log)
        }
        Outcome::Unbounded { flows, ray, log } => {
            let amounts = gathered(alloc, expanded, flows)?;
            let ray = gathered(alloc, expanded, ray)?;
            let log = copied_log(alloc, log)?;
            unbounded(alloc, scheme, amounts, ray, log)
        }
        Outcome::Budget { arc, log } => {
            let log = copied_log(alloc, log)?;
            Ok(out_of_budget(alloc, *arc, log))
        }
        Outcome::Overflow { overflow, log } => {
            let log = copied_log(alloc, log)?;
            Ok(overflowed(alloc, *overflow, log))
        }
    }
}
