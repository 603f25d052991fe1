//! What the rows of directions do at one end of an arc.

ghost use Rattle.std.specs.Prelude.{◌≡◌};
ghost use Rattle.np_frac.specs.Exact.{plus_of, ◌▷◌};
ghost use Rattle.np_model.specs.Rows.Directions.{term, turned, with_first};
ghost use Rattle.np_model.specs.Basis.Starts.{touches as has_end_at};
ghost use Rattle.tree_search.specs.Places.{HasGain};
ghost use Rattle.tree_flows.specs.Along.{is_zero};

use np_frac::{Frac, Past};
use np_model::Ends;

// Whether an amount is 0.
pub(crate) fn is_nothing(amount: Frac) -> bool
    ensures { result ≡ is_zero amount }
{
    amount.is_same(Frac::whole(0))
}

// Whether the node is an end of an arc.
pub(crate) fn touches(ends: Ends, node: u32) -> bool
    ensures { result ≡ has_end_at ends node }
{
    match ends {
        Ends::Link { from, to, .. } => node == from || node == to,
        Ends::Drain(at) | Ends::Feed(at) => node == at,
    }
}

// What an arc takes from its end with this amount.
pub(crate) fn term_of(ends: Ends, node: u32, amount: Frac) -> Result<Frac, Past>
    ensures { result ≡ term ends node amount }
{
    match ends {
        Ends::Link { from, gain, .. } => {
            if node == from {
                Ok(amount)
            } else {
                let product = gain.times(amount)?;
                Ok(product.negated())
            }
        }
        Ends::Drain(_) => Ok(amount),
        Ends::Feed(_) => Ok(amount.negated()),
    }
}

// The amount on an arc whose term at its end is this sum, negated. A sum of 0 needs no operation.
pub(crate) fn turn(ends: Ends, node: u32, sum: Frac) -> Result<Frac, Past>
    requires { HasGain ends }
    ensures { result ≡ turned ends node sum }
{
    if sum.is_same(Frac::whole(0)) {
        return Ok(sum);
    }
    match ends {
        Ends::Link { from, gain, .. } => {
            if node == from {
                Ok(sum.negated())
            } else {
                sum.over(gain)
            }
        }
        Ends::Drain(_) => Ok(sum.negated()),
        Ends::Feed(_) => Ok(sum),
    }
}

// The sum with the term of an arc more. An amount of 0 needs no operation.
pub(crate) fn with_term(sum: Frac, ends: Ends, node: u32, amount: Frac) -> Result<Frac, Past>
    ensures { result ≡ (term ends node amount ▷ plus_of sum) }
{
    // That it fits is told by its numerator.
    let _numerator = sum.num();
    if amount.is_same(Frac::whole(0)) {
        return Ok(sum);
    }
    let more = term_of(ends, node, amount)?;
    sum.plus(more)
}

// What is left at the least node of a cycle for each unit of its first arc, from the term of its last.
pub(crate) fn plus_first(ends: Ends, node: u32, total: Frac) -> Result<Frac, Past>
    ensures { result ≡ with_first ends node total }
{
    match ends {
        Ends::Link { from, gain, .. } => {
            if node == from {
                total.plus(Frac::whole(1))
            } else {
                total.minus(gain)
            }
        }
        Ends::Drain(_) | Ends::Feed(_) => Ok(total),
    }
}
