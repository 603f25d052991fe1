//! Staged arcs.

ghost use Rattle.std.specs.Prelude.{◌≡◌};

use np_frac::Frac;
use np_model::{Bands, Ends, Upper};
use std::marker::Model;

/// The arc of a flow in one period: the number of the flow from 0, the period from 1, and the ends by the numbers of
/// the nodes over all periods. `lower`, `upper` and `cost` are those of its first segment; each band adds one. In
/// clauses a `Staged` is its stage.
#[derive(Debug, Drop)]
pub struct Staged {
    pub flow: u32,
    pub period: u32,
    pub ends: Ends,
    pub lower: Frac,
    pub upper: Upper,
    pub cost: Frac,
    pub bands: Bands,
}

impl Model for Staged {
    ghost use Rattle.np_model.specs.Scheme.Segments.{Stage};

    ghost Value = { Stage };

    ghost view = { λ s. record { flow = s.flow; period = s.period; ends = s.ends; lower = s.lower; upper = s.upper; cost = s.cost; bands = s.bands } };
}

/// Staged arcs in order.
#[derive(Debug, Drop)]
pub struct Stageds {
    pub items: Vec<Staged>,
}

impl Model for Stageds {
    ghost use Rattle.std.specs.Prelude.{List};
    ghost use Rattle.np_model.specs.Scheme.Segments.{Stage};

    ghost Value = { List Stage };

    ghost view = { λ list. list.items.items };
}

impl Stageds {
    /// The staged arcs.
    pub fn as_slice(&self) -> &[Staged]
        ensures { result.now ≡ self.now }
    {
        self.items.as_slice()
    }
}
