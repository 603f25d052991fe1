//! The turn from stage one to stage two: all potentials anew, for the costs of the network.

ghost use Rattle.std.specs.Prelude.{◌≡◌, MatchResult, IfOk, length};
ghost use Rattle.std.specs.Result.{IfErr};
ghost use Rattle.np_model.specs.Basis.Phases.{network_of, phase_net};
ghost use Rattle.np_model.specs.Basis.Starts.{artificial_ends};
ghost use Rattle.np_model.specs.Basis.States.{IsState};
ghost use Rattle.np_model.specs.declared.phase.Phase.TheVariants.{One, Two};
ghost use Rattle.np_runs.specs.Runs.{IsTurn, HasNoArtificialFlow};
ghost use Rattle.simplex_driver.specs.Store.{state_of, IsKept};
ghost use Rattle.simplex_driver.specs.Turns.{CarriesFrom, CanTurn, AreTurned, IsTurnCause};

use crate::forest::{Forest, write_potentials};
use np_frac::Frac;
use np_model::{FullNet, Phase};
use quasi_tree::Quasi;
use std::alloc::Global;
use tree_potentials::{PotentialRefusal, potentials};

/// Whether some flow from a place on is not 0.
pub(crate) fn carries(flows: &[Frac], from: usize) -> bool
    ensures { CarriesFrom flows.now from result }
{
    for arc in from..flows.len() {
        if !flows[arc].is_same(Frac::whole(0)) {
            return true;
        }
    }
    false
}

// Gives each piece its potentials of stage two, and writes them into the table.
fn turn_pieces(
    alloc: Global,
    full: &FullNet,
    slots: &mut [Option<Quasi>],
    table: &mut [Frac],
) -> Result<(), PotentialRefusal>
    requires nodes { length table.old ≡ length full.now.net.supply }
    requires can { CanTurn (phase_net Two full.now) slots.old }
    ensures table_long { length table.new ≡ length table.old }
    ensures slots_long { length slots.new ≡ length slots.old }
    ensures turned { MatchResult result (λ _. AreTurned (phase_net Two full.now) slots.old slots.new table.new) (IsTurnCause (phase_net Two full.now) slots.old) }
{
    for node in 0..slots.len() {
        let Some(piece) = slots[node].take() else {
            continue;
        };
        let mut piece = piece;
        potentials(alloc, full, Phase::Two, &mut piece)?;
        write_potentials(table, &piece);
        slots[node] = Some(piece);
    }
    Ok(())
}

impl Forest {
    /// Turns to stage two: each piece gets its potentials for the costs of the network. Flows, marks and pieces stay.
    pub(crate) fn turn(&mut self, alloc: Global, full: &FullNet) -> Result<(), PotentialRefusal>
        requires artificial { full.now.artificial ≡ artificial_ends (network_of full.now.net) }
        requires kept { IsKept (phase_net One full.now) self.old }
        requires state { IsState (phase_net One full.now) (state_of self.old) }
        requires none { HasNoArtificialFlow (network_of full.now.net) (state_of self.old) }
        ensures turn { IfOk result (λ _. IsTurn (network_of full.now.net) (state_of self.old) (state_of self.new)) }
        ensures kept { IfOk result (λ _. IsKept (phase_net Two full.now) self.new) }
        ensures cause { IfErr result (IsTurnCause (phase_net Two full.now) self.old.slots.items) }
    {
        turn_pieces(alloc, full, &mut self.slots, &mut self.potentials)
    }
}
