//! The residual of each node: what is left of its supply where each arc is at its lower bound.

ghost use Rattle.std.specs.Prelude.{◌≡◌, ℕ, ◌<◌, Result, Ok, length, slice_index_or, IfOk};
ghost use Rattle.std.specs.List.{All};
ghost use Rattle.np_frac.specs.Exact.{plus_of, minus_of, times_of, ◌▷◌};
ghost use Rattle.np_frac.specs.Ratio.{Ratio};
ghost use Rattle.np_frac.specs.declared.frac.Past.{Past as ThePast};
ghost use Rattle.np_model.specs.Network.Arcs.{AreNodes};
ghost use Rattle.np_model.specs.Network.Flows.{at};
ghost use Rattle.np_model.specs.Rows.Arcs.{less_amount, residual_of};

use np_frac::{Frac, Memory, Past};
use np_model::{Ends, NetArc};
use std::alloc::Global;

// The running residual less an amount that leaves the node.
fn take_out(running: Result<Frac, Past>, amount: Frac) -> Result<Frac, Past>
    ensures { result ≡ running ▷ (λ rest. minus_of rest amount) }
{
    let rest = running?;
    rest.minus(amount)
}

// The running residual and an amount that comes in from outside.
fn put_in(running: Result<Frac, Past>, amount: Frac) -> Result<Frac, Past>
    ensures { result ≡ running ▷ (λ rest. plus_of rest amount) }
{
    let rest = running?;
    rest.plus(amount)
}

// The running residual and what arrives of an amount over a link with a gain.
fn put_gained(running: Result<Frac, Past>, gain: Frac, amount: Frac) -> Result<Frac, Past>
    ensures { result ≡ running ▷ (λ rest. times_of gain amount ▷ plus_of rest) }
{
    let rest = running?;
    let gained = gain.times(amount)?;
    rest.plus(gained)
}

// Takes an arc's amount from the running residuals, of which it changes those at its ends alone.
fn take_amount(running: &mut [Result<Frac, Past>], ends: Ends, amount: Frac)
    requires { AreNodes (length running.old) ends }
    ensures { (v : ℕ) (d : Result Ratio ThePast) → v < length running.old
        → slice_index_or running.new v d ≡ slice_index_or running.old v d ▷ less_amount ends amount v }
{
    match ends {
        Ends::Link { from, to, gain } => {
            running[from as usize] = take_out(running[from as usize], amount);
            running[to as usize] = put_gained(running[to as usize], gain, amount);
        }
        Ends::Drain(node) => {
            running[node as usize] = take_out(running[node as usize], amount);
        }
        Ends::Feed(node) => {
            running[node as usize] = put_in(running[node as usize], amount);
        }
    }
}

// Takes the lower bounds of all arcs from residuals that begin at the supplies.
fn take_lowers(running: &mut [Result<Frac, Past>], supply: &[Frac], arcs: &[NetArc])
    requires joined { All (λ arc. AreNodes (length running.old) arc.ends) arcs.now }
    requires supplies { (v : ℕ) (d : Result Ratio ThePast) → v < length running.old → slice_index_or running.old v d ≡ Ok (at supply.now v) }
    ensures { (v : ℕ) (d : Result Ratio ThePast) → v < length running.old → slice_index_or running.new v d ≡ residual_of arcs.now v (at supply.now v) }
{
    for arc in arcs {
        take_amount(running, arc.ends, arc.lower);
    }
}

/// The residual of each node over arcs whose ends are nodes, or its first operation that overflows. In one pass over the arcs.
pub fn residuals(
    alloc: Global,
    supply: &[Frac],
    arcs: &[NetArc],
) -> Result<Vec<Result<Frac, Past>>, Memory>
    requires joined { All (λ arc. AreNodes (length supply.now) arc.ends) arcs.now }
    ensures each { IfOk result (λ found. length found.items ≡ length supply.now) }
    ensures residuals { IfOk result (λ found. (v : ℕ) (d : Result Ratio ThePast) → v < length supply.now
        → slice_index_or found.items v d ≡ residual_of arcs.now v (at supply.now v)) }
{
    let mut running = Vec::with_capacity(alloc, supply.len())?;
    for node in 0..supply.len() {
        running.push(Ok(supply[node]))?;
    }
    take_lowers(&mut running, supply, arcs);
    Ok(running)
}
