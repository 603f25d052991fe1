//! Arcs of a network with gains.

ghost use Rattle.std.specs.Prelude.{◌≡◌};

use np_frac::{Frac, Past};

/// Where an arc's flow comes from and where it goes, by node numbers.
#[derive(Clone, Copy, Debug, PartialEq, Eq)]
pub enum Ends {
    /// What enters at `from` leaves at `to`, times the gain.
    Link { from: u32, to: u32, gain: Frac },
    /// Flow out of a node and out of the network.
    Drain(u32),
    /// Flow into a node from outside.
    Feed(u32),
}

impl Ends {
    ghost use Rattle.np_model.specs.Network.Arcs.{tail_of, head_of, reduced_cost_of};

    /// The node where the arc begins, or the only one of an arc with one end.
    pub fn tail(self) -> u32
        ensures { result ≡ tail_of self }
    {
        match self {
            Ends::Link { from, .. } => from,
            Ends::Drain(node) | Ends::Feed(node) => node,
        }
    }

    /// The node where the arc ends, or the only one of an arc with one end.
    pub fn head(self) -> u32
        ensures { result ≡ head_of self }
    {
        match self {
            Ends::Link { to, .. } => to,
            Ends::Drain(node) | Ends::Feed(node) => node,
        }
    }

    /// The reduced cost of an arc with these ends and this cost, by the potentials at its tail and at its head; an arc with
    /// one end uses the first alone. [`Past`] exactly where an operation does not fit: of a link the product of gain and
    /// second potential, the cost less the first, and their sum, in this order.
    pub fn reduced_cost(self, cost: Frac, first: Frac, second: Frac) -> Result<Frac, Past>
        ensures { result ≡ reduced_cost_of self cost first second }
    {
        match self {
            Ends::Link { gain, .. } => {
                let product = gain.times(second)?;
                let difference = cost.minus(first)?;
                difference.plus(product)
            }
            Ends::Drain(_) => cost.minus(first),
            Ends::Feed(_) => cost.plus(first),
        }
    }
}

/// An upper bound, or that there is none.
#[derive(Clone, Copy, Debug, PartialEq, Eq)]
pub enum Upper {
    Finite(Frac),
    Infinite,
}

impl Upper {
    ghost use Rattle.np_model.specs.Network.Arcs.{is_finite, is_at_most, is_under, lesser, bound_of};

    /// Whether there is a bound.
    pub fn is_finite(self) -> bool
        ensures { result ≡ is_finite self }
    {
        matches!(self, Upper::Finite(_))
    }

    /// The bound, or 0 where there is none.
    pub fn bound(self) -> Frac
        ensures { result ≡ bound_of self }
    {
        match self {
            Upper::Finite(most) => most,
            Upper::Infinite => Frac::whole(0),
        }
    }

    /// Whether an amount is no more than the bound.
    pub fn is_at_least(self, amount: Frac) -> bool
        ensures { result ≡ is_at_most amount self }
    {
        match self {
            Upper::Finite(most) => !most.is_below(amount),
            Upper::Infinite => true,
        }
    }

    /// Whether an amount is less than the bound.
    pub fn is_above(self, amount: Frac) -> bool
        ensures { result ≡ is_under amount self }
    {
        match self {
            Upper::Finite(most) => amount.is_below(most),
            Upper::Infinite => true,
        }
    }

    /// The lesser of an amount and the bound.
    pub fn lesser(self, amount: Frac) -> Frac
        ensures { result ≡ lesser amount self }
    {
        match self {
            Upper::Finite(most) if most.is_below(amount) => most,
            _ => amount,
        }
    }
}

/// An arc: its ends, the bounds of its flow, and what a unit of flow costs. The flow is counted where it
/// enters the arc, and of a feed where it enters the node.
#[derive(Clone, Copy, Debug, PartialEq, Eq)]
pub struct NetArc {
    pub ends: Ends,
    pub lower: Frac,
    pub upper: Upper,
    pub cost: Frac,
}
