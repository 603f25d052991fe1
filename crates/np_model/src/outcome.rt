//! What a run of pivots ends in.

use crate::lists::Fracs;
use crate::log::Log;
use crate::rows::Overflow;

/// What a run of pivots ends in, with the log of its pivots. Flows and rays have one entry for each arc of the plain network, in order, and
/// potentials one for each node.
#[derive(Debug, Drop)]
pub enum Outcome {
    /// These flows cost least, as these potentials show.
    Optimal {
        flows: Fracs,
        potentials: Fracs,
        log: Log,
    },
    /// These potentials certify that no flow is feasible.
    Infeasible {
        potentials: Fracs,
        log: Log,
    },
    /// The cost falls without end along this ray from these flows.
    Unbounded {
        flows: Fracs,
        ray: Fracs,
        log: Log,
    },
    /// The log has as many pivots as the budget allows, and this arc may still enter.
    Budget {
        arc: u32,
        log: Log,
    },
    /// This operation of the next step does not fit.
    Overflow {
        overflow: Overflow,
        log: Log,
    },
}
