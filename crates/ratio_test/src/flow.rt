//! The flows of the arcs of a direction.

ghost use Rattle.std.specs.Prelude.{◌≡◌, ◌⊎◌, ◌<◌, ◌↔◌, ◌∷◌, [], IsTrue};
ghost use Rattle.std.specs.List.{flat_map};
ghost use Rattle.gain_graphs.specs.Arcs.{IsIn};
ghost use Rattle.np_frac.specs.Ratio.{zero_ratio};
ghost use Rattle.np_model.specs.declared.log.Mark.TheVariants as TheMark;
ghost use Rattle.np_model.specs.declared.phase.Phase.{Phase as ThePhase};
ghost use Rattle.np_model.specs.Basis.Graphs.{arc_at, ends_at};
ghost use Rattle.np_model.specs.Basis.Phases.{phase_net, all_arcs};
ghost use Rattle.np_model.specs.Basis.Pieces.{nodes_in, basics_of, beside, marks_of, flows_of};
ghost use Rattle.np_model.specs.Basis.Sound.{bound_at, values_in};
ghost use Rattle.ratio_test.specs.Asked.{AreWithin, IsOutside};
ghost use Rattle.np_model.specs.Basis.Needed.{lists_of};
ghost use Rattle.ratio_test.specs.Steps.Ends.{HasEnd};

use np_frac::Frac;
use np_model::{FullNet, Mark, Phase, Piece};

// The bound of an arc that a mark names.
fn bound_at(full: &FullNet, phase: Phase, arc: u32, mark: Mark) -> Frac
    requires { arc < all_arcs full.now }
    ensures { result ≡ bound_at (arc_at (phase_net phase full.now).arcs arc) mark }
{
    match mark {
        Mark::Lower => full.lower(arc),
        Mark::Upper => full.upper(phase, arc).bound(),
        Mark::Basic => Frac::whole(0),
    }
}

// Whether an end of the arc is a node of the piece.
fn touches<T: Piece>(full: &FullNet, piece: &T, arc: u32) -> bool
    requires { arc < all_arcs full.now }
    ensures { (phase : ThePhase) → IsTrue result ↔ HasEnd (nodes_in (T.lists piece.now)) (ends_at (phase_net phase full.now).arcs arc) }
{
    let ends = &full.ends(arc);
    piece.contains(ends.tail()) || piece.contains(ends.head())
}

// The mark of an arc outside the basis between nodes of two pieces.
fn mark_of_two<T: Piece>(full: &FullNet, first: &T, second: &T, arc: u32) -> Mark
    requires { (phase : ThePhase) × AreWithin (phase_net phase full.now) (T.lists first.now ∷ T.lists second.now ∷ [])
        × IsOutside (phase_net phase full.now) (T.lists first.now ∷ T.lists second.now ∷ []) arc }
    ensures { result ≡ beside TheMark.Lower (flat_map marks_of (T.lists first.now ∷ T.lists second.now ∷ [])) arc }
{
    if touches(full, first, arc) {
        first.mark_of(arc)
    } else {
        second.mark_of(arc)
    }
}

// The mark of an arc outside the basis between nodes of the pieces.
fn mark_of<T: Piece>(full: &FullNet, first: &T, second: Option<&T>, arc: u32) -> Mark
    requires { (phase : ThePhase) × AreWithin (phase_net phase full.now) (lists_of (λ p. T.lists p.now) (T.lists first.now) second)
        × IsOutside (phase_net phase full.now) (lists_of (λ p. T.lists p.now) (T.lists first.now) second) arc }
    ensures { result ≡ beside TheMark.Lower (flat_map marks_of (lists_of (λ p. T.lists p.now) (T.lists first.now) second.entry)) arc }
{
    match second {
        None => first.mark_of(arc),
        Some(second) => mark_of_two(full, first, second, arc),
    }
}

// The flow of a basic arc of two pieces.
fn basic_flow_of_two<T: Piece>(full: &FullNet, first: &T, second: &T, arc: u32) -> Frac
    requires within { (phase : ThePhase) × AreWithin (phase_net phase full.now) (T.lists first.now ∷ T.lists second.now ∷ []) }
    requires basic { IsIn arc (basics_of (T.lists first.now ∷ T.lists second.now ∷ [])) }
    ensures { result ≡ beside zero_ratio (flat_map flows_of (T.lists first.now ∷ T.lists second.now ∷ [])) arc }
{
    if touches(full, first, arc) {
        first.flow_of(arc)
    } else {
        second.flow_of(arc)
    }
}

// The flow of a basic arc of the pieces.
fn basic_flow<T: Piece>(full: &FullNet, first: &T, second: Option<&T>, arc: u32) -> Frac
    requires within { (phase : ThePhase) × AreWithin (phase_net phase full.now) (lists_of (λ p. T.lists p.now) (T.lists first.now) second) }
    requires basic { IsIn arc (basics_of (lists_of (λ p. T.lists p.now) (T.lists first.now) second)) }
    ensures { result ≡ beside zero_ratio (flat_map flows_of (lists_of (λ p. T.lists p.now) (T.lists first.now) second.entry)) arc }
{
    match second {
        None => first.flow_of(arc),
        Some(second) => basic_flow_of_two(full, first, second, arc),
    }
}

/// The flow of the entering arc, which is the bound at which it stands, or of a basic arc of the pieces.
pub(crate) fn flow_of<T: Piece>(
    full: &FullNet,
    phase: Phase,
    first: &T,
    second: Option<&T>,
    enter: u32,
    arc: u32,
) -> Frac
    requires within { AreWithin (phase_net phase full.now) (lists_of (λ p. T.lists p.now) (T.lists first.now) second) }
    requires outside { IsOutside (phase_net phase full.now) (lists_of (λ p. T.lists p.now) (T.lists first.now) second) enter }
    requires moves { (arc ≡ enter) ⊎ IsIn arc (basics_of (lists_of (λ p. T.lists p.now) (T.lists first.now) second)) }
    ensures { result ≡ (values_in (phase_net phase full.now) (lists_of (λ p. T.lists p.now) (T.lists first.now) second.entry)).flow arc }
{
    if arc == enter {
        let mark = mark_of(full, first, second, arc);
        return bound_at(full, phase, arc, mark);
    }
    basic_flow(full, first, second, arc)
}
