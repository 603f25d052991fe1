//! The potential at the least node of a cycle.

ghost use Rattle.std.specs.Prelude.{◌≡◌, ◌≢◌, Ok, Err, MatchResult, pos};
ghost use Rattle.std.specs.List.{All};
ghost use Rattle.np_frac.specs.Ratio.{Ratio, zero_ratio};
ghost use Rattle.np_frac.specs.Exact.{over_of, ◌▷◌};
ghost use Rattle.tree_potentials.specs.Along.{AreWalkable, IsWithin, product_of, potential_of, divisor_of, root_of};

use crate::refusal::at_turn;
use crate::rows::Rows;
use np_frac::{Frac, Past};
use np_model::{Overflow, Row};
use tree_search::Step;

// The product of the gains along these steps, times this one.
fn product_along(rows: &Rows<'_>, steps: &[Step], first: Frac) -> Result<Frac, Past>
    requires walkable { AreWalkable rows.now.basics.now rows.now.costs.now }
    requires within { All (λ step. IsWithin rows.now.nodes.now rows.now.basics.now step) steps.now }
    ensures { result ≡ product_of rows.now.nodes.now rows.now.basics.now steps.now first }
{
    let mut product = first;
    for step in steps {
        product = rows.product_over(*step, product)?;
    }
    Ok(product)
}

// The potential behind these steps, from the one before them.
fn potential_along(rows: &Rows<'_>, steps: &[Step], first: Frac) -> Result<Frac, Past>
    requires walkable { AreWalkable rows.now.basics.now rows.now.costs.now }
    requires within { All (λ step. IsWithin rows.now.nodes.now rows.now.basics.now step) steps.now }
    ensures { result ≡ potential_of rows.now.nodes.now rows.now.basics.now rows.now.costs.now steps.now first }
{
    let mut potential = first;
    for step in steps {
        potential = rows.potential_over(*step, potential)?;
    }
    Ok(potential)
}

// The divisor of the potential at the least node: 1 less the product of the gains.
fn divisor(rows: &Rows<'_>, cycle: &[Step]) -> Result<Frac, Past>
    requires walkable { AreWalkable rows.now.basics.now rows.now.costs.now }
    requires within { All (λ step. IsWithin rows.now.nodes.now rows.now.basics.now step) cycle.now }
    ensures { result ≡ divisor_of rows.now.nodes.now rows.now.basics.now cycle.now }
{
    let product = product_along(rows, cycle, Frac::whole(1))?;
    Frac::whole(1).minus(product)
}

// The quotient of the potential behind the cycle, from 0 at its least node, by the divisor.
fn quotient(rows: &Rows<'_>, cycle: &[Step], last: Frac) -> Result<Frac, Past>
    requires walkable { AreWalkable rows.now.basics.now rows.now.costs.now }
    requires within { All (λ step. IsWithin rows.now.nodes.now rows.now.basics.now step) cycle.now }
    requires apart { last.num ≢ pos 0 }
    ensures { result ≡ potential_of rows.now.nodes.now rows.now.basics.now rows.now.costs.now cycle.now zero_ratio ▷ λ sum. over_of sum last }
{
    let sum = potential_along(rows, cycle, Frac::whole(0))?;
    sum.over(last)
}

// The potential at the least node of a cycle that is not breakeven.
pub(crate) fn least_potential(rows: &Rows<'_>, cycle: &[Step]) -> Result<Frac, Overflow>
    requires walkable { AreWalkable rows.now.basics.now rows.now.costs.now }
    requires within { All (λ step. IsWithin rows.now.nodes.now rows.now.basics.now step) cycle.now }
    requires apart { (last : Ratio) → divisor_of rows.now.nodes.now rows.now.basics.now cycle.now ≡ Ok last → last.num ≢ pos 0 }
    ensures { result ≡ root_of rows.now.nodes.now rows.now.basics.now rows.now.costs.now cycle.now }
{
    let last = match divisor(rows, cycle) {
        Ok(last) => last,
        Err(past) => return Err(at_turn(Row::A3, past)),
    };
    match quotient(rows, cycle, last) {
        Ok(potential) => Ok(potential),
        Err(past) => Err(at_turn(Row::A7, past)),
    }
}
