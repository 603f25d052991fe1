//! Solving a network.

ghost use Rattle.std.specs.Prelude.{◌≡◌, ◌<◌, ◌≤◌, ℕ, IfOk, length};
ghost use Rattle.np_frac.specs.Fits.{Fits};
ghost use Rattle.np_model.specs.Network.Flows.{at};
ghost use Rattle.np_model.specs.Basis.Phases.{network_of};
ghost use Rattle.np_runs.specs.Ended.{IsEnded};
ghost use Rattle.simplex_driver.specs.Budgets.{IsCrew, IsBudget, IsCrew-prop, IsBudget-prop};

use crate::driver::run;
use crate::forest::Forest;
use crate::telling::log_of;
use basis_start::{StartRefusal, start};
use np_frac::{Frac, Memory};
use np_model::{Gate, Net, OpenGate, Outcome};
use np_runs::Solver;
use np_runs::laws::started;
use std::alloc::Global;
use std::thread::Threads;

/// Reads these values, each of which fits a fraction.
pub(crate) fn read_values(values: &[Frac])
    ensures { (i : ℕ) → i < length values.now → Fits (at values.now i) }
{
    for value in values {
        let _ = value.num();
    }
}

/// Solves a network by pivots, at most as many as the budget: from the artificial start in stage one, which seeks a feasible flow, and on in
/// stage two, which seeks one of least cost. At each step the arcs that may enter are listed by their prices, from a cursor on that goes
/// round, and the first one enters whose pivot can be made. Then comes a round: the workers, 1 to 16 of them, try the arcs of the same list
/// on all pieces, each in a thread of its own where one can be made. Each worker makes at most 64 pivots in a round, and at most an equal share
/// of what is left of the budget; where that share is 0, there is no round. The log has the pivot of the step and then those of its round, in
/// the order in which they were made. The outcome is what that run has ended in:
///
/// - [`Outcome::Optimal`] where no arc may enter in stage two, with flows of least cost and the potentials that show them.
/// - [`Outcome::Infeasible`] where none may in stage one while an artificial arc carries something, with potentials that certify that no flow
///   is feasible.
/// - [`Outcome::Unbounded`] where nothing stops the flows along the direction of an arc that may enter, with that ray.
/// - [`Outcome::Budget`] where the pivots are as many as the budget, and an arc may still enter.
/// - [`Outcome::Overflow`] where an operation does not fit: of the start, of the price of an open arc, of each attempt with an arc that may
///   enter, or of the potentials of stage two.
///
/// [`Memory`] where there is not enough of it, also for the work of some worker. The call returns whatever comes: each step that does not end
/// the run adds a pivot. Time for a step is in proportion to the arcs, which are priced, to the pieces of its pivots, and once to all pieces.
///
/// With one worker the run is the same each time. With several it depends on how their threads take turns, and so does which of several
/// optimal plans is found. Each worker stands at the gate before it takes pieces and while it holds them: a test may keep it there.
///
/// The method is the generalised network simplex method of Ahuja, Magnanti and Orlin, Network Flows, chapter 15; the order in which arcs are
/// tried and overflows are told, and the rounds, are this project's own.
pub fn solve<G: Gate>(
    rt: &(impl Threads + Sync),
    alloc: Global,
    net: &Net,
    workers: u32,
    budget: u32,
    gate: &G,
) -> Result<Outcome, Memory>
    requires crew { IsCrew workers }
    requires budget { IsBudget budget }
    ensures { IfOk result (IsEnded (network_of net.now) budget) }
{
    started();
    read_values(net.supply.items.as_slice());
    match start(alloc, net) {
        Ok(start) => {
            let forest = Forest::opening(alloc, &start)?;
            run(rt, alloc, &start.full, forest, workers, budget, gate)
        }
        Err(StartRefusal::Past(overflow)) => Ok(Outcome::Overflow {
            overflow,
            log: log_of(None, Vec::new(alloc)),
        }),
        Err(StartRefusal::Memory) => Err(Memory),
    }
}

/// The solver by pivots, with 1 to 16 workers and a budget of 1 to 1,000,000 pivots.
#[derive(Clone, Copy, Debug)]
pub struct NetSimplex {
    pub workers: u32,
    pub budget: u32,
    pub ghost crew: { IsCrew workers } by { IsCrew-prop workers },
    pub ghost within: { IsBudget budget } by { IsBudget-prop budget },
}

impl Solver for NetSimplex {
    ghost budget = { λ s. s.budget };

    fn solve_net<R: Threads + Sync>(
        &mut self,
        rt: &R,
        alloc: Global,
        net: &Net,
    ) -> Result<Outcome, Memory> {
        solve(rt, alloc, net, self.workers, self.budget, &OpenGate)
    }
}
