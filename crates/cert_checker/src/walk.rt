//! The whole walk.

ghost use Rattle.std.specs.Prelude.{◌≡◌, ◌<◌, ◌^◌, length, map, IfOk};
ghost use Rattle.std.specs.List.{All};
ghost use Rattle.np_frac.specs.Ratio.{zero_ratio};
ghost use Rattle.np_model.specs.declared.plan.Verdict.TheVariants as verdict;
ghost use Rattle.np_model.specs.Scheme.Fits.{PlanFits};
ghost use Rattle.cert_checker.specs.Walk.{walk, claimed_amount, feasible_refusal, shown_refusal, infeasible_refusal, falling_refusal, goes_on_unless, UnlessMemory};
ghost use Rattle.cert_checker.specs.declared.answer.Checked.TheVariants as checked;
ghost use Rattle.cert_checker.specs.Steps.Arcs.{as_stage};
ghost use Rattle.cert_checker.specs.Steps.Parts.{EndsFit};
ghost use Rattle.np_model.specs.Network.Arcs.{AreNodes};
ghost use Rattle.cert_checker.specs.Proves.{Proves};

use crate::answer::{CheckRefusal, Checked, Clause};
use crate::balance::{Balancing, check_balance};
use crate::bound::check_bounds;
use crate::cost::check_cost;
use crate::gap::{check_ends, check_gap, check_uppers};
use crate::laws::walk_proves;
use crate::ray::{check_ray_cost, check_rays};
use crate::reduced::check_reduced;
use crate::staged::{StagedArc, staged_arcs};
use np_frac::{Frac, Memory};
use np_model::{CheckRow, Plan, Scheme, Verdict};
use std::alloc::Global;

/// Checks a plan that fits the scheme.
///
/// It walks the clauses of the plan's verdict in order. Of an optimal plan these are `balance` at each node, `bound` and then
/// `reduced` at each staged arc, and `cost`; of an infeasible one `upper` at each staged arc, and `gap`; of an unbounded one
/// `balance` and `bound`, `ray-sign` and `ray-upper` at each staged arc, `ray-balance` at each node, and `ray-cost`. A plan
/// whose budget ended, or of which an operation overflowed, is `uncertified`. The answer is what the plan was shown to be, or the
/// first clause that fails, or the first operation that overflows, whose exact result does not fit a fraction, whichever stands
/// first in the walk. It takes time and memory in proportion to the nodes, the staged arcs and their bands.
///
/// What it accepts holds among all lists of ratios, within 128 bits or not: no feasible plan costs less than an optimal one,
/// there is no feasible plan, or every cost has a feasible plan that costs less.
pub fn check(alloc: Global, scheme: &Scheme, plan: &Plan) -> Result<Checked, CheckRefusal>
    requires fits { PlanFits scheme.now plan.now }
    ensures walk { UnlessMemory result (walk scheme.now plan.now) }
    ensures optimal { plan.now.verdict ≡ verdict.Optimal → IfOk result (λ answer. answer ≡ checked.Optimal (claimed_amount plan.now)) }
    ensures proves { IfOk result (Proves scheme.now plan.now) }
{
    walk_proves();
    match plan.verdict {
        Verdict::Optimal => check_optimal(alloc, scheme, plan),
        Verdict::Infeasible => check_infeasible(alloc, scheme, plan),
        Verdict::Unbounded => check_unbounded(alloc, scheme, plan),
        Verdict::Budget | Verdict::Overflow => uncertified(),
    }
}

// What is said of a plan that shows nothing.
fn uncertified() -> Result<Checked, CheckRefusal>
    ensures { result ≡ Err (CheckRefusal.Reject Clause.Uncertified None 0) }
{
    let refusal = CheckRefusal::Reject {
        clause: Clause::Uncertified,
        name: None,
        period: 0,
    };
    Err(refusal)
}

// The walk over an optimal plan.
fn check_optimal(alloc: Global, scheme: &Scheme, plan: &Plan) -> Result<Checked, CheckRefusal>
    requires is { plan.now.verdict ≡ verdict.Optimal }
    requires fits { PlanFits scheme.now plan.now }
    ensures walk { UnlessMemory result (walk scheme.now plan.now) }
    ensures optimal { IfOk result (λ answer. answer ≡ checked.Optimal (claimed_amount plan.now)) }
{
    let cost = plan.amount.unwrap_or(Frac::whole(0));
    let staged = staged_arcs(alloc, scheme)?;
    let arcs = staged.as_slice();
    let amounts = plan.flows.as_slice();
    let nodes = scheme.nodes.as_slice().len();
    check_feasible(alloc, nodes, scheme.supply.as_slice(), arcs, amounts)?;
    check_shown(plan.prices.as_slice(), arcs, amounts, cost)?;
    Ok(Checked::Optimal(cost))
}

// The walk over an infeasible plan.
fn check_infeasible(alloc: Global, scheme: &Scheme, plan: &Plan) -> Result<Checked, CheckRefusal>
    requires is { plan.now.verdict ≡ verdict.Infeasible }
    requires fits { PlanFits scheme.now plan.now }
    ensures { UnlessMemory result (walk scheme.now plan.now) }
{
    let gap = plan.amount.unwrap_or(Frac::whole(0));
    let staged = staged_arcs(alloc, scheme)?;
    let arcs = staged.as_slice();
    check_forbidden(plan.prices.as_slice(), scheme.supply.as_slice(), arcs, gap)?;
    Ok(Checked::Infeasible(gap))
}

// The walk over an unbounded plan.
fn check_unbounded(alloc: Global, scheme: &Scheme, plan: &Plan) -> Result<Checked, CheckRefusal>
    requires is { plan.now.verdict ≡ verdict.Unbounded }
    requires fits { PlanFits scheme.now plan.now }
    ensures { UnlessMemory result (walk scheme.now plan.now) }
{
    let staged = staged_arcs(alloc, scheme)?;
    let arcs = staged.as_slice();
    let supply = scheme.supply.as_slice();
    let nodes = scheme.nodes.as_slice().len();
    check_feasible(alloc, nodes, supply, arcs, plan.flows.as_slice())?;
    check_falling(alloc, nodes, supply, arcs, plan.ray.as_slice())?;
    Ok(Checked::Unbounded)
}

/// Whether the flows balance and keep their bounds.
pub fn check_feasible(
    alloc: Global,
    nodes: usize,
    supply: &[Frac],
    arcs: &[StagedArc],
    amounts: &[Frac],
) -> Result<(), CheckRefusal>
    requires long { length amounts.now ≡ length arcs.now }
    requires joined { All (λ arc. AreNodes (length supply.now) (as_stage arc).ends) arcs.now }
    requires some { 0 < length supply.now → 0 < nodes }
    requires few { length supply.now < 2 ^ 32 }
    ensures { UnlessMemory result (goes_on_unless (feasible_refusal nodes supply.now (map as_stage arcs.now) amounts.now)) }
{
    let by = Balancing {
        row: CheckRow::C1,
        clause: Clause::Balance,
        nodes,
    };
    check_balance(alloc, by, supply, arcs, amounts)?;
    check_bounds(arcs, amounts)
}

// Whether the prices show the flows optimal, and they cost this much.
fn check_shown(
    prices: &[Frac],
    arcs: &[StagedArc],
    amounts: &[Frac],
    cost: Frac,
) -> Result<(), CheckRefusal>
    requires long { length amounts.now ≡ length arcs.now }
    requires joined { All (λ arc. AreNodes (length prices.now) (as_stage arc).ends) arcs.now }
    requires ends { All EndsFit (map as_stage arcs.now) }
    ensures { result ≡ goes_on_unless (shown_refusal (map as_stage arcs.now) amounts.now prices.now cost) }
{
    check_reduced(prices, arcs, amounts)?;
    check_cost(arcs, amounts, cost)
}

// Whether the prices show that there is no plan, with this gap.
fn check_forbidden(
    prices: &[Frac],
    supply: &[Frac],
    arcs: &[StagedArc],
    gap: Frac,
) -> Result<(), CheckRefusal>
    requires each { length prices.now ≡ length supply.now }
    requires joined { All (λ arc. AreNodes (length prices.now) (as_stage arc).ends) arcs.now }
    ensures { result ≡ goes_on_unless (infeasible_refusal supply.now (map as_stage arcs.now) prices.now gap) }
{
    check_uppers(prices, arcs)?;
    check_ends(arcs)?;
    check_gap(prices, supply, arcs, gap)
}

// As many zeros as there are supplies.
fn zeros(alloc: Global, supply: &[Frac]) -> Result<Vec<Frac>, Memory>
    ensures { IfOk result (λ zeros. zeros.items ≡ map (λ amount. zero_ratio) supply.now) }
{
    let mut zeros = Vec::with_capacity(alloc, supply.len())?;
    for _ in 0..supply.len() {
        zeros.push(Frac::whole(0))?;
    }
    Ok(zeros)
}

// Whether the ray shows that the cost falls without end.
fn check_falling(
    alloc: Global,
    nodes: usize,
    supply: &[Frac],
    arcs: &[StagedArc],
    ray: &[Frac],
) -> Result<(), CheckRefusal>
    requires long { length ray.now ≡ length arcs.now }
    requires joined { All (λ arc. AreNodes (length supply.now) (as_stage arc).ends) arcs.now }
    requires some { 0 < length supply.now → 0 < nodes }
    requires few { length supply.now < 2 ^ 32 }
    ensures { UnlessMemory result (goes_on_unless (falling_refusal nodes supply.now (map as_stage arcs.now) ray.now)) }
{
    check_rays(arcs, ray)?;
    let by = Balancing {
        row: CheckRow::C6,
        clause: Clause::RayBalance,
        nodes,
    };
    let wanted = zeros(alloc, supply)?;
    check_balance(alloc, by, &wanted, arcs, ray)?;
    check_ray_cost(arcs, ray)
}
