//! A planning problem as its text gives it: nodes and flows over periods, with convex costs.

ghost use Rattle.std.specs.Prelude.{◌≡◌};
ghost use Rattle.np_model.specs.Scheme.Valid.{IsScheme, IsScheme-prop};

use crate::arc::{Ends, Upper};
use crate::lists::{Bands, Flows, Fracs, Name, Names};
use np_frac::Frac;

/// What a flow joins, by the numbers of the nodes in their order.
#[derive(Clone, Copy, Debug, PartialEq, Eq)]
pub enum FlowKind {
    /// From one node to another within a period.
    Link { from: u32, to: u32, gain: Frac },
    /// From a node to the same node in the next period.
    Hold { node: u32, gain: Frac },
    /// Out of a node.
    Drain { node: u32 },
    /// Into a node.
    Feed { node: u32 },
}

impl FlowKind {
    ghost use Rattle.std.specs.Prelude.{◌+◌, ◌*◌, ◌<◌, ◌≤◌, ◌^◌};
    ghost use Rattle.np_model.specs.Scheme.Kinds.{ends_in, is_hold, periods_of, JoinsNodes};

    /// Whether it leads into the next period.
    pub fn is_hold(self) -> bool
        ensures { result ≡ is_hold self }
    {
        matches!(self, FlowKind::Hold { .. })
    }

    /// In how many of so many periods a flow of this kind has an arc: a hold has none in the last one.
    pub fn periods(self, periods: u32) -> u32
        ensures { result ≡ periods_of periods self }
    {
        if self.is_hold() {
            periods.saturating_sub(1)
        } else {
            periods
        }
    }

    /// The ends of its arc in a period, from 1, among the expanded nodes: with `nodes` nodes, node i in a period is the
    /// expanded node `(period - 1) * nodes + i`.
    pub fn ends_in(self, nodes: u32, period: u32) -> Ends
        requires some { 0 < period }
        requires few { (period + 1) * nodes < 2 ^ 32 }
        requires joins { JoinsNodes nodes self }
        ensures { result ≡ ends_in nodes period self }
    {
        let before = (period - 1) * nodes;
        match self {
            FlowKind::Link { from, to, gain } => Ends::Link {
                from: before + from,
                to: before + to,
                gain,
            },
            FlowKind::Hold { node, gain } => Ends::Link {
                from: before + node,
                to: period * nodes + node,
                gain,
            },
            FlowKind::Drain { node } => Ends::Drain(before + node),
            FlowKind::Feed { node } => Ends::Feed(before + node),
        }
    }
}

/// A band beyond the present end of a flow: how wide it is, and what a unit within it costs.
#[derive(Clone, Copy, Debug, PartialEq, Eq)]
pub struct Band {
    pub width: Upper,
    pub slope: Frac,
}

/// A flow, in every period alike. `lower`, `upper` and `cost` are those of its first segment; each band adds one.
#[derive(Debug, Drop)]
pub struct Flow {
    pub name: Name,
    pub kind: FlowKind,
    pub lower: Frac,
    pub upper: Upper,
    pub cost: Frac,
    pub bands: Bands,
}

/// A valid planning problem. `supply` has one amount for each node in each period: with k nodes, that of
/// node i (from 0) in period P (from 1) at place `(P - 1) * k + i`.
#[derive(Debug, Drop)]
pub struct Scheme {
    pub periods: u32,
    pub nodes: Names,
    pub supply: Fracs,
    pub flows: Flows,
    pub ghost valid: { IsScheme periods nodes supply flows } by { IsScheme-prop periods nodes supply flows },
}
