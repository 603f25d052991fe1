//! The sums of the walk that a plan claims: the cost of an optimal plan, and the gap of an infeasible one.

ghost use Rattle.std.specs.Prelude.{◌≡◌, length};
ghost use Rattle.np_model.specs.Scheme.Plans.{staged};
ghost use Rattle.cert_checker.specs.Walk.{optimal_refusal, infeasible_refusal, Sums};

use crate::answer::CheckRefusal;
use crate::cost::sum_cost;
use crate::gap::{check_ends, check_uppers, sum_gap};
use crate::reduced::check_reduced;
use crate::staged::staged_arcs;
use crate::walk::check_feasible;
use np_frac::Frac;
use np_model::Scheme;
use std::alloc::Global;

/// The cost of these flows with these prices, as the walk over an optimal plan sums it: the one claim that [`check`](crate::check) accepts of
/// them. Where it accepts none, what it refuses first: a clause that fails, or an operation that overflows. It takes time and memory in
/// proportion to the nodes, the staged arcs and their bands.
pub fn summed_cost(
    alloc: Global,
    scheme: &Scheme,
    flows: &[Frac],
    prices: &[Frac],
) -> Result<Frac, CheckRefusal>
    requires flows { length flows.now ≡ length (staged scheme.now) }
    requires prices { length prices.now ≡ length scheme.now.supply }
    ensures { Sums result (optimal_refusal (length scheme.now.nodes) scheme.now.supply (staged scheme.now) flows.now prices.now) }
{
    let staged = staged_arcs(alloc, scheme)?;
    let arcs = staged.as_slice();
    let nodes = scheme.nodes.as_slice().len();
    check_feasible(alloc, nodes, scheme.supply.as_slice(), arcs, flows)?;
    check_reduced(prices, arcs, flows)?;
    sum_cost(arcs, flows)
}

/// The gap of these prices, as the walk over an infeasible plan sums it: the one claim that [`check`](crate::check) accepts of them. Where it
/// accepts none, what it refuses first: a clause that fails, as a gap that is not above 0, or an operation that overflows. It takes time and
/// memory in proportion to the nodes, the staged arcs and their bands.
pub fn summed_gap(alloc: Global, scheme: &Scheme, prices: &[Frac]) -> Result<Frac, CheckRefusal>
    requires { length prices.now ≡ length scheme.now.supply }
    ensures { Sums result (infeasible_refusal scheme.now.supply (staged scheme.now) prices.now) }
{
    let staged = staged_arcs(alloc, scheme)?;
    let arcs = staged.as_slice();
    check_uppers(prices, arcs)?;
    check_ends(arcs)?;
    sum_gap(prices, scheme.supply.as_slice(), arcs)
}
