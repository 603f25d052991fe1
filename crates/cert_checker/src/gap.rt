//! What shows that there is no plan: bounds that are finite where they have to be, and the gap of the prices.

ghost use Rattle.std.specs.Prelude.{◌≡◌, ◌<◌, Ok, length, map};
ghost use Rattle.std.specs.List.{All, enumerate_from, fold};
ghost use Rattle.np_frac.specs.Ratio.{zero_ratio};
ghost use Rattle.np_frac.specs.Exact.{◌▷◌};
ghost use Rattle.np_model.specs.Network.Arcs.{bound_of, AreNodes};
ghost use Rattle.cert_checker.specs.Walk.{upper_clause, end_clause, add_supply, add_worth, add_least, gap_of, gap_clause, first_refusal, goes_on_unless, Sums};
ghost use Rattle.cert_checker.specs.Steps.Arcs.{as_stage};

use crate::answer::{CheckRefusal, Clause};
use crate::reduced::reduced_of;
use crate::segment::{end_of, is_bounded};
use crate::staged::StagedArc;
use np_frac::{Frac, Past};
use np_model::{CheckRow, Upper};

// Whether a flow has a finite last end, if at costs of 0 its reduced cost is below 0.
fn check_upper(prices: &[Frac], arc: &StagedArc) -> Result<(), CheckRefusal>
    requires { AreNodes (length prices.now) (as_stage arc.now).ends }
    ensures { result ≡ goes_on_unless (upper_clause prices.now (as_stage arc.now)) }
{
    let zero = Frac::whole(0);
    match reduced_of(prices, &arc.ends(), zero) {
        Ok(reduced) => {
            if reduced.is_below(zero) && !is_bounded(arc.flow) {
                return Err(arc.reject(Clause::Upper));
            }
            Ok(())
        }
        Err(past) => Err(CheckRefusal::Past {
            row: CheckRow::C3,
            past,
        }),
    }
}

/// Whether all flows have finite last ends where their reduced costs at costs of 0 are below 0: the first that has not, or
/// at which an operation overflows.
pub fn check_uppers(prices: &[Frac], arcs: &[StagedArc]) -> Result<(), CheckRefusal>
    requires { All (λ arc. AreNodes (length prices.now) (as_stage arc).ends) arcs.now }
    ensures { result ≡ goes_on_unless (first_refusal (upper_clause prices.now) (map as_stage arcs.now)) }
{
    for i in 0..arcs.len() {
        check_upper(prices, &arcs[i])?;
    }
    Ok(())
}

// Whether the ends of a flow are found.
fn check_end(arc: &StagedArc) -> Result<(), CheckRefusal>
    ensures { result ≡ goes_on_unless (end_clause (as_stage arc.now)) }
{
    match end_of(arc.flow) {
        Ok(_) => Ok(()),
        Err(past) => Err(CheckRefusal::Past {
            row: CheckRow::C2,
            past,
        }),
    }
}

/// Whether the ends of all flows are found: the first sum that overflows.
pub fn check_ends(arcs: &[StagedArc]) -> Result<(), CheckRefusal>
    ensures { result ≡ goes_on_unless (first_refusal end_clause (map as_stage arcs.now)) }
{
    for i in 0..arcs.len() {
        check_end(&arcs[i])?;
    }
    Ok(())
}

// The running gap with the supply of a node at its price.
fn add_supply(running: Frac, supply: &[Frac], node: usize, price: Frac) -> Result<Frac, Past>
    requires { node < length supply.now }
    ensures { result ≡ add_supply supply.now (node, price) running }
{
    let worth = price.times(supply[node])?;
    running.plus(worth)
}

// The supply at the prices.
fn supply_worth(prices: &[Frac], supply: &[Frac]) -> Result<Frac, Past>
    requires { length prices.now ≡ length supply.now }
    ensures { result ≡ fold (λ running node. running ▷ add_supply supply.now node) (Ok zero_ratio) (enumerate_from 0 prices.now) }
{
    let mut running = Frac::whole(0);
    for node in 0..prices.len() {
        running = add_supply(running, supply, node, prices[node])?;
    }
    Ok(running)
}

// The running gap with what an amount of a flow is worth at least, at this reduced cost: at the lower bound where it is above
// 0, at the last end where it is below 0.
fn add_worth(running: Frac, arc: &StagedArc, reduced: Frac) -> Result<Frac, Past>
    ensures { result ≡ add_worth (as_stage arc.now) reduced running }
{
    let zero = Frac::whole(0);
    if zero.is_below(reduced) {
        let worth = reduced.times(arc.flow.lower)?;
        return running.plus(worth);
    }
    if reduced.is_below(zero) {
        let end = end_of(arc.flow)?;
        let worth = reduced.times(end.bound())?;
        return running.plus(worth);
    }
    Ok(running)
}

// The running gap with that of a staged arc.
fn add_least(running: Frac, prices: &[Frac], arc: &StagedArc) -> Result<Frac, Past>
    requires { AreNodes (length prices.now) (as_stage arc.now).ends }
    ensures { result ≡ add_least prices.now (as_stage arc.now) running }
{
    let reduced = reduced_of(prices, &arc.ends(), Frac::whole(0))?;
    add_worth(running, arc, reduced)
}

// The gap of the prices.
fn gap_of(prices: &[Frac], supply: &[Frac], arcs: &[StagedArc]) -> Result<Frac, Past>
    requires each { length prices.now ≡ length supply.now }
    requires joined { All (λ arc. AreNodes (length prices.now) (as_stage arc).ends) arcs.now }
    ensures { result ≡ gap_of supply.now (map as_stage arcs.now) prices.now }
{
    let mut running = supply_worth(prices, supply)?;
    for i in 0..arcs.len() {
        running = add_least(running, prices, &arcs[i])?;
    }
    Ok(running)
}

/// Whether the gap of the prices is above 0, and this much.
pub fn check_gap(
    prices: &[Frac],
    supply: &[Frac],
    arcs: &[StagedArc],
    amount: Frac,
) -> Result<(), CheckRefusal>
    requires each { length prices.now ≡ length supply.now }
    requires joined { All (λ arc. AreNodes (length prices.now) (as_stage arc).ends) arcs.now }
    ensures { result ≡ goes_on_unless (gap_clause supply.now (map as_stage arcs.now) prices.now amount) }
{
    match gap_of(prices, supply, arcs) {
        Ok(sum) => {
            if Frac::whole(0).is_below(sum) && sum.is_same(amount) {
                return Ok(());
            }
            Err(CheckRefusal::Reject {
                clause: Clause::Gap,
                name: None,
                period: 0,
            })
        }
        Err(past) => Err(CheckRefusal::Past {
            row: CheckRow::C5,
            past,
        }),
    }
}

/// The gap of the prices, where it is above 0, or the first operation of it that overflows.
pub fn sum_gap(prices: &[Frac], supply: &[Frac], arcs: &[StagedArc]) -> Result<Frac, CheckRefusal>
    requires each { length prices.now ≡ length supply.now }
    requires joined { All (λ arc. AreNodes (length prices.now) (as_stage arc).ends) arcs.now }
    ensures { Sums result (gap_clause supply.now (map as_stage arcs.now) prices.now) }
{
    match gap_of(prices, supply, arcs) {
        Ok(sum) => {
            if Frac::whole(0).is_below(sum) {
                return Ok(sum);
            }
            Err(CheckRefusal::Reject {
                clause: Clause::Gap,
                name: None,
                period: 0,
            })
        }
        Err(past) => Err(CheckRefusal::Past {
            row: CheckRow::C5,
            past,
        }),
    }
}
