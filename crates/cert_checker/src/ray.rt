//! What shows that every cost is undercut: the ray along which the flows can be raised.

ghost use Rattle.std.specs.Prelude.{◌≡◌, length, map};
ghost use Rattle.std.specs.List.{zip};
ghost use Rattle.cert_checker.specs.Walk.{ray_clause, add_ray_cost, ray_cost_of, ray_cost_clause, first_refusal, goes_on_unless};
ghost use Rattle.cert_checker.specs.Steps.Arcs.{as_stage};

use crate::answer::{CheckRefusal, Clause};
use crate::segment::{is_bounded, last_slope};
use crate::staged::StagedArc;
use np_frac::{Frac, Past};
use np_model::CheckRow;

// Whether an amount of the ray is not below 0, and runs along a flow with a finite last end only if it is 0.
fn check_ray(arc: &StagedArc, amount: Frac) -> Result<(), CheckRefusal>
    ensures { result ≡ goes_on_unless (ray_clause (as_stage arc.now, amount)) }
{
    let zero = Frac::whole(0);
    if amount.is_below(zero) {
        return Err(arc.reject(Clause::RaySign));
    }
    if zero.is_below(amount) && is_bounded(arc.flow) {
        return Err(arc.reject(Clause::RayUpper));
    }
    Ok(())
}

/// Whether the amounts of the ray are not below 0, and above 0 only where the last end is infinite: the first that is not so.
pub fn check_rays(arcs: &[StagedArc], ray: &[Frac]) -> Result<(), CheckRefusal>
    requires { length ray.now ≡ length arcs.now }
    ensures { result ≡ goes_on_unless (first_refusal ray_clause (zip (map as_stage arcs.now) ray.now)) }
{
    for i in 0..arcs.len() {
        check_ray(&arcs[i], ray[i])?;
    }
    Ok(())
}

// The running cost of the ray with that of a staged arc, at the slope of its last segment.
fn add_ray_cost(running: Frac, arc: &StagedArc, amount: Frac) -> Result<Frac, Past>
    ensures { result ≡ add_ray_cost (as_stage arc.now, amount) running }
{
    let cost = last_slope(arc.flow).times(amount)?;
    running.plus(cost)
}

// The cost of the ray.
fn ray_cost_of(arcs: &[StagedArc], ray: &[Frac]) -> Result<Frac, Past>
    requires { length ray.now ≡ length arcs.now }
    ensures { result ≡ ray_cost_of (zip (map as_stage arcs.now) ray.now) }
{
    let mut running = Frac::whole(0);
    for i in 0..arcs.len() {
        running = add_ray_cost(running, &arcs[i], ray[i])?;
    }
    Ok(running)
}

/// Whether the cost of the ray is below 0.
pub fn check_ray_cost(arcs: &[StagedArc], ray: &[Frac]) -> Result<(), CheckRefusal>
    requires { length ray.now ≡ length arcs.now }
    ensures { result ≡ goes_on_unless (ray_cost_clause (zip (map as_stage arcs.now) ray.now)) }
{
    match ray_cost_of(arcs, ray) {
        Ok(sum) => {
            if sum.is_below(Frac::whole(0)) {
                return Ok(());
            }
            Err(CheckRefusal::Reject {
                clause: Clause::RayCost,
                name: None,
                period: 0,
            })
        }
        Err(past) => Err(CheckRefusal::Past {
            row: CheckRow::C6,
            past,
        }),
    }
}
