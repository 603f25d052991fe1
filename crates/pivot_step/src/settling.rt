//! The potentials of new pieces.

ghost use Rattle.std.specs.Prelude.{◌≡◌, MatchResult, IfOk};
ghost use Rattle.gain_graphs.specs.Arcs.{IsIn};
ghost use Rattle.np_model.specs.Basis.Phases.{phase_net};
ghost use Rattle.np_model.specs.Basis.Pieces.{PieceLists};
ghost use Rattle.np_model.specs.Basis.Sound.{IsInNet};
ghost use Rattle.quasi_tree.specs.Store.{IsHeld};
ghost use Rattle.piece_lists.specs.Parts.{lists_in};
ghost use Rattle.pivot_step.specs.Steps.{OnPast, IsSettled, AreSettled, GivesAt, OneGivesAt, of_potentials};

use np_model::{FullNet, Hands, Overflow, Phase, Place};
use piece_lists::MoveRefusal;
use quasi_tree::{Lists, Quasi};
use std::alloc::Global;
use tree_potentials::{PotentialRefusal, potentials};

// The pieces with these lists.
pub(crate) fn held(pieces: Hands<Lists>) -> Hands<Quasi>
    requires { (p : PieceLists) → IsIn p (lists_in pieces) → IsHeld p }
    ensures { result ≡ pieces }
{
    match pieces {
        Hands::One(piece) => Hands::One(Quasi::of_lists(piece)),
        Hands::Two(piece, other) => Hands::Two(Quasi::of_lists(piece), Quasi::of_lists(other)),
    }
}

// A refusal of new potentials, told at the arc that enters.
fn of_potentials(refusal: PotentialRefusal, arc: u32) -> MoveRefusal
    ensures { result ≡ of_potentials refusal arc }
{
    match refusal {
        PotentialRefusal::Past(overflow) => MoveRefusal::Past(Overflow {
            row: overflow.row,
            place: Place::Arc(arc),
            past: overflow.past,
        }),
        PotentialRefusal::Memory => MoveRefusal::Memory,
    }
}

// A piece with its potentials; an overflow is told at the arc that enters.
pub(crate) fn settled_piece(
    alloc: Global,
    full: &FullNet,
    phase: Phase,
    arc: u32,
    piece: Quasi,
) -> Result<Quasi, MoveRefusal>
    requires { IsInNet (phase_net phase full.now) piece.lists }
    ensures { MatchResult result (λ new. IsSettled (phase_net phase full.now) piece.lists new.lists) (OnPast (GivesAt (phase_net phase full.now) piece.lists arc)) }
{
    let mut piece = piece;
    match potentials(alloc, full, phase, &mut piece) {
        Ok(()) => Ok(piece),
        Err(refusal) => Err(of_potentials(refusal, arc)),
    }
}

// The pieces with their potentials.
pub(crate) fn settled(
    alloc: Global,
    full: &FullNet,
    phase: Phase,
    arc: u32,
    pieces: Hands<Quasi>,
) -> Result<Hands<Quasi>, MoveRefusal>
    requires { (p : PieceLists) → IsIn p (lists_in pieces) → IsInNet (phase_net phase full.now) p }
    ensures { MatchResult result (λ new. AreSettled (phase_net phase full.now) (lists_in pieces) (lists_in new)) (OnPast (OneGivesAt (phase_net phase full.now) (lists_in pieces) arc)) }
{
    match pieces {
        Hands::One(piece) => match settled_piece(alloc, full, phase, arc, piece) {
            Ok(piece) => Ok(Hands::One(piece)),
            Err(refusal) => Err(refusal),
        },
        Hands::Two(piece, other) => {
            let piece = match settled_piece(alloc, full, phase, arc, piece) {
                Ok(piece) => piece,
                Err(refusal) => return Err(refusal),
            };
            let other = match settled_piece(alloc, full, phase, arc, other) {
                Ok(other) => other,
                Err(refusal) => return Err(refusal),
            };
            Ok(Hands::Two(piece, other))
        }
    }
}
