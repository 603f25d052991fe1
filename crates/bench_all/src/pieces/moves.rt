//! The direction of an artificial arc on a piece, and the ratio test along it, so many times.

ghost use Rattle.std.specs.Prelude.{◌≡◌, ◌∷◌, [], true, IfOk};
ghost use Rattle.np_model.specs.declared.phase.Phase.TheVariants.{Two};
ghost use Rattle.np_model.specs.Basis.Phases.{phase_net};
ghost use Rattle.tree_flows.specs.Answers.{CanEnter, IsAnswer};
ghost use Rattle.ratio_test.specs.Asked.{AreWithin, IsOutside, IsAlong};

use np_model::{Direction, FullNet, Overflow, Phase};
use quasi_tree::Quasi;
use ratio_test::{RatioAnswer, ratio};
use std::alloc::Global;
use tree_flows::{DirRefusal, direction};

/// Finds the direction of the arc upwards so many times, and once more.
pub(crate) fn directed(
    alloc: Global,
    full: &FullNet,
    piece: &Quasi,
    enter: u32,
    rounds: u32,
) -> Result<Direction, DirRefusal>
    requires { CanEnter (phase_net Two full.now) (piece.now.lists ∷ []) enter }
    ensures { IfOk result (IsAnswer (phase_net Two full.now) (piece.now.lists ∷ []) enter true) }
{
    for _ in 0..rounds {
        direction(alloc, full, piece, None, enter, true)?;
    }
    let found = direction(alloc, full, piece, None, enter, true)?;
    Ok(found)
}

/// Tests how far the direction can be followed so many times, and once more.
pub(crate) fn tested(
    full: &FullNet,
    piece: &Quasi,
    found: &Direction,
    rounds: u32,
) -> Result<RatioAnswer, Overflow>
    requires within { AreWithin (phase_net Two full.now) (piece.now.lists ∷ []) }
    requires outside { IsOutside (phase_net Two full.now) (piece.now.lists ∷ []) found.now.enter }
    requires along { IsAlong (piece.now.lists ∷ []) found.now }
{
    for _ in 0..rounds {
        ratio(full, Phase::Two, piece, None, found)?;
    }
    ratio(full, Phase::Two, piece, None, found)
}
