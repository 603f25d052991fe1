//! The balance of flows at the nodes.

ghost use Rattle.std.specs.Prelude.{◌≡◌, ℕ, ◌+◌, ◌-◌, ◌*◌, ◌/◌, ◌%◌, ◌<◌, ◌≤◌, ◌^◌, Result, Ok, length, map, slice_index_or, IfOk};
ghost use Rattle.std.specs.List.{enumerate_from, zip, All};
ghost use Rattle.np_frac.specs.Exact.{plus_of, minus_of, times_of, ◌▷◌};
ghost use Rattle.np_model.specs.declared.arc.Ends.{Ends as TheEnds};
ghost use Rattle.np_frac.specs.declared.frac.Past.{Past as ThePast};
ghost use Rattle.np_frac.specs.Ratio.{Ratio, zero_ratio};
ghost use Rattle.cert_checker.specs.Walk.{add_flow, outflow_of, with_stage_ends, node_clause, first_refusal, goes_on_unless, UnlessMemory};
ghost use Rattle.cert_checker.specs.Steps.Parts.{sum_clause};
ghost use Rattle.np_model.specs.Network.Arcs.{AreNodes};
ghost use Rattle.cert_checker.specs.Steps.Arcs.{as_stage};

use crate::answer::{CheckRefusal, Clause};
use crate::staged::StagedArc;
use np_frac::{Frac, Memory, Past};
use np_model::{CheckRow, Ends};
use std::alloc::Global;

// The running balance after more flow out of the node.
fn add_outflow(running: Result<Frac, Past>, amount: Frac) -> Result<Frac, Past>
    ensures { result ≡ running ▷ (λ sum. plus_of sum amount) }
{
    let sum = running?;
    sum.plus(amount)
}

// The running balance after flow from outside.
fn subtract_inflow(running: Result<Frac, Past>, amount: Frac) -> Result<Frac, Past>
    ensures { result ≡ running ▷ (λ sum. minus_of sum amount) }
{
    let sum = running?;
    sum.minus(amount)
}

// The running balance after flow that arrives over an arc with a gain.
fn subtract_gained(running: Result<Frac, Past>, gain: Frac, amount: Frac) -> Result<Frac, Past>
    ensures { result ≡ running ▷ (λ sum. times_of gain amount ▷ λ gained. minus_of sum gained) }
{
    let sum = running?;
    let gained = gain.times(amount)?;
    sum.minus(gained)
}

// Adds an arc's flow to the running balances, of which it changes those at its ends alone.
fn add_flow(running: &mut [Result<Frac, Past>], ends: Ends, amount: Frac)
    requires { AreNodes (length running.old) ends }
    ensures { (v : ℕ) (d : Result Ratio ThePast) → v < length running.old
        → slice_index_or running.new v d ≡ slice_index_or running.old v d ▷ add_flow v ends amount }
{
    match ends {
        Ends::Link { from, to, gain } => {
            running[from as usize] = add_outflow(running[from as usize], amount);
            running[to as usize] = subtract_gained(running[to as usize], gain, amount);
        }
        Ends::Drain(node) => {
            running[node as usize] = add_outflow(running[node as usize], amount);
        }
        Ends::Feed(node) => {
            running[node as usize] = subtract_inflow(running[node as usize], amount);
        }
    }
}

// The outflow of each node over the staged arcs: the sum, or its first operation that overflows.
fn outflows(
    alloc: Global,
    nodes: usize,
    arcs: &[StagedArc],
    amounts: &[Frac],
) -> Result<Vec<Result<Frac, Past>>, Memory>
    requires long { length amounts.now ≡ length arcs.now }
    requires joined { All (λ arc. AreNodes nodes (as_stage arc).ends) arcs.now }
    ensures each { IfOk result (λ sums. length sums.items ≡ nodes) }
    ensures sums { IfOk result (λ sums. (v : ℕ) (d : Result Ratio ThePast) → v < nodes
        → slice_index_or sums.items v d ≡ outflow_of (with_stage_ends (map as_stage arcs.now) amounts.now) v) }
{
    let mut sums = Vec::with_capacity(alloc, nodes)?;
    for _ in 0..nodes {
        sums.push(Ok(Frac::whole(0)))?;
    }
    add_flows(&mut sums, arcs, amounts);
    Ok(sums)
}

// Adds all flows to balances that begin at 0.
fn add_flows(sums: &mut [Result<Frac, Past>], arcs: &[StagedArc], amounts: &[Frac])
    requires long { length amounts.now ≡ length arcs.now }
    requires joined { All (λ arc. AreNodes (length sums.old) (as_stage arc).ends) arcs.now }
    requires zero { (v : ℕ) (d : Result Ratio ThePast) → v < length sums.old → slice_index_or sums.old v d ≡ Ok zero_ratio }
    ensures { (v : ℕ) (d : Result Ratio ThePast) → v < length sums.old
        → slice_index_or sums.new v d ≡ outflow_of (with_stage_ends (map as_stage arcs.now) amounts.now) v }
{
    for i in 0..arcs.len() {
        let arc = &arcs[i];
        add_flow(sums, arc.ends(), amounts[i]);
    }
}

/// Which balance is walked: the row of its arithmetic, the clause that it is told as, and how many nodes a period has.
#[derive(Clone, Copy, Debug)]
pub struct Balancing {
    pub row: CheckRow,
    pub clause: Clause,
    pub nodes: usize,
}

// Whether the sum of a node is what is wanted there.
fn check_sum(
    by: Balancing,
    node: usize,
    wanted: Frac,
    sum: Result<Frac, Past>,
) -> Result<(), CheckRefusal>
    requires some { 0 < by.nodes }
    requires few { node < 2 ^ 32 - 1 }
    ensures { result ≡ goes_on_unless (sum_clause by.row by.clause by.nodes (node, (wanted, sum))) }
{
    match sum {
        Ok(sum) => {
            if sum.is_same(wanted) {
                return Ok(());
            }
            Err(CheckRefusal::Reject {
                clause: by.clause,
                name: Some((node % by.nodes) as u32),
                period: (node / by.nodes) as u32 + 1,
            })
        }
        Err(past) => Err(CheckRefusal::Past { row: by.row, past }),
    }
}

// Whether each sum is what is wanted at its node.
fn check_sums(
    by: Balancing,
    wanted: &[Frac],
    sums: &[Result<Frac, Past>],
) -> Result<(), CheckRefusal>
    requires each { length sums.now ≡ length wanted.now }
    requires some { 0 < length wanted.now → 0 < by.nodes }
    requires few { length wanted.now < 2 ^ 32 }
    ensures { result ≡ goes_on_unless (first_refusal (sum_clause by.row by.clause by.nodes) (enumerate_from 0 (zip wanted.now sums.now))) }
{
    for node in 0..wanted.len() {
        check_sum(by, node, wanted[node], sums[node])?;
    }
    Ok(())
}

/// Whether the amounts of the staged arcs balance what is wanted at each node: the first node at which they do not, or at
/// which an operation overflows.
pub fn check_balance(
    alloc: Global,
    by: Balancing,
    wanted: &[Frac],
    arcs: &[StagedArc],
    amounts: &[Frac],
) -> Result<(), CheckRefusal>
    requires long { length amounts.now ≡ length arcs.now }
    requires joined { All (λ arc. AreNodes (length wanted.now) (as_stage arc).ends) arcs.now }
    requires some { 0 < length wanted.now → 0 < by.nodes }
    requires few { length wanted.now < 2 ^ 32 }
    ensures { UnlessMemory result (goes_on_unless (first_refusal (node_clause by.row by.clause by.nodes (with_stage_ends (map as_stage arcs.now) amounts.now)) (enumerate_from 0 wanted.now))) }
{
    let sums = outflows(alloc, wanted.len(), arcs, amounts)?;
    check_sums(by, wanted, &sums)
}
