//! The pivots of trees, as all who make pivots see them.

use crate::attempt;
use crate::change::{self, Change};
use np_model::{FullNet, Hands, Phase, Piece, Pivoter, Prepared};
use quasi_tree::Quasi;
use std::alloc::Global;

/// Makes pivots of pieces that are held as lists, by [`prepare`](crate::prepare) and [`apply`](crate::apply).
#[derive(Clone, Copy, Debug, PartialEq, Eq)]
pub struct TreePivoter;

impl Pivoter<Quasi> for TreePivoter {
    ghost use Rattle.std.specs.Prelude.{◌≡◌};
    ghost use Rattle.np_model.specs.Basis.Needed.{lists_held};
    ghost use Rattle.piece_lists.specs.Parts.{lists_in};
    ghost use Rattle.pivot_step.specs.Named.{IsPivotOf};

    type Change = Change;

    ghost gives = { lists_in };

    ghost names = { IsPivotOf };

    fn prepare(
        &self,
        alloc: Global,
        full: &FullNet,
        phase: Phase,
        first: &mut Quasi,
        second: Option<&mut Quasi>,
        arc: u32,
    ) -> Prepared<Change> {
        match second {
            None => attempt::prepare(alloc, full, phase, first, None, arc),
            Some(other) => attempt::prepare(alloc, full, phase, first, Some(other), arc),
        }
    }

    fn apply(
        &self,
        full: &FullNet,
        phase: Phase,
        change: Change,
        first: Quasi,
        second: Option<Quasi>,
    ) -> Hands<Quasi>
        requires named { IsPivotOf change full.now phase first second }
        ensures { lists_held ⟦<Quasi as Piece>⟧.lists result ≡ lists_in change }
    {
        let _ = full;
        let _ = phase;
        let _ = first;
        let _ = second;
        change::apply(change)
    }
}
