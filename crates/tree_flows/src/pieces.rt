//! The moving arcs of one piece, or of two.

ghost use Rattle.std.specs.Prelude.{◌≡◌, ◌≢◌, ◌<◌, ◌^◌, [], ◌∷◌, ℕ, List, length, Ok, Err, MatchResult, IfOk};
ghost use Rattle.std.specs.Option.{option_copied};
ghost use Rattle.gain_graphs.specs.Arcs.{IsIn};
ghost use Rattle.np_frac.specs.Fits.{Fits};
ghost use Rattle.np_frac.specs.Ratio.{Ratio, zero_ratio};
ghost use Rattle.np_model.specs.declared.log.Mark.{Mark as TheMark};
ghost use Rattle.np_model.specs.Basis.Pieces.{PieceLists as ThePiece};
ghost use Rattle.np_model.specs.Basis.Sound.{IsInNet};
ghost use Rattle.np_model.specs.Network.Flows.{Network, at};
ghost use Rattle.np_basis.specs.Laws.{HasSoundArcs};
ghost use Rattle.tree_flows.specs.Walks.{IsLaidOut};
ghost use Rattle.tree_flows.specs.Answers.{piece_of, IsPulled, ArePulled, AreAmounts, IsOverflow, AreStepsOn, IsRefusedOn};
ghost use Rattle.np_model.specs.Basis.Needed.{lists_of};

use crate::layout::{Layout, layout_of};
use crate::moves::with_moving;
use crate::refusal::DirRefusal;
use crate::sums::{Entering, Rows};
use crate::walk::amounts_on;
use np_frac::{Frac, Memory};
use np_model::{Ends, Overflow, Piece, zeros};
use quasi_tree::Quasi;
use std::alloc::Global;

// The amounts on the basic arcs of a piece, from amounts and sums of 0.
fn piece_amounts(
    nodes: &[(u32, Frac)],
    basics: &[(u32, Ends, Frac)],
    layout: &Layout,
    entering: &Entering,
    amounts: Vec<Frac>,
    sums: Vec<Frac>,
    reached: Vec<bool>,
) -> Result<Vec<Frac>, Overflow>
    requires few { length nodes.now < 2 ^ 32 }
    requires in_net { (net : Network) × (marks : List (ℕ × TheMark)) × HasSoundArcs net × IsInNet net (piece_of nodes.now basics.now marks) }
    requires laid_out { IsLaidOut nodes.now basics.now entering.now.arc layout.now }
    requires one_each { length amounts.items ≡ length basics.now }
    requires zeros { (a : ℕ) → a < length basics.now → at amounts.items a ≡ zero_ratio }
    requires each_node { length sums.items ≡ length nodes.now }
    requires one_mark { length reached.items ≡ length nodes.now }
    ensures kept { IfOk result (λ found. length found.items ≡ length basics.now) }
    ensures answer { (net : Network) (marks : List (ℕ × TheMark)) (d : ℕ → Ratio) → HasSoundArcs net → IsPulled net (piece_of nodes.now basics.now marks) entering.now d
        → MatchResult result (λ found. AreAmounts net (piece_of nodes.now basics.now marks) entering.now d found.items) (IsOverflow net (piece_of nodes.now basics.now marks) entering.now d) }
{
    let rows = Rows {
        nodes,
        basics,
        joints: layout.joints.as_slice(),
        incidence: &layout.incidence,
        entering,
        before: layout.before,
    };
    amounts_on(
        &rows,
        layout.search.steps.as_slice(),
        &layout.extra,
        amounts,
        sums,
        reached,
    )
}

// No marks on so many nodes.
fn no_marks(alloc: Global, count: usize) -> Result<Vec<bool>, Memory>
    ensures { IfOk result (λ list. length list.items ≡ count) }
{
    let mut list = Vec::with_capacity(alloc, count)?;
    for _ in 0..count {
        list.push(false)?;
    }
    Ok(list)
}

// The entering arc alone, with room for so many arcs more: nothing that is put behind it takes memory.
fn begun(alloc: Global, entering: &Entering, more: usize) -> Result<Vec<(u32, Frac)>, Memory>
    ensures list { IfOk result (λ list. list.items ≡ (entering.now.arc, entering.now.amount) ∷ []) }
    ensures fits { Fits entering.now.amount }
{
    // That it fits is told by its numerator.
    let _numerator = entering.amount.num();
    let mut list = Vec::with_capacity(alloc, more.saturating_add(1))?;
    list.push((entering.arc, entering.amount))?;
    Ok(list)
}

// The moving arcs of a piece, the entering one first.
fn steps_on_one(
    alloc: Global,
    piece: &Quasi,
    entering: &Entering,
) -> Result<Vec<(u32, Frac)>, DirRefusal>
    requires in_net { (net : Network) × HasSoundArcs net × IsInNet net piece.now.lists }
    ensures { (net : Network) (d : ℕ → Ratio) → HasSoundArcs net → ArePulled net (piece.now.lists ∷ []) entering.now d
        → MatchResult result (λ steps. AreStepsOn net (piece.now.lists ∷ []) entering.now.arc d steps.items) (IsRefusedOn net (piece.now.lists ∷ []) entering.now.arc d) }
{
    let lists = piece.lists();
    let nodes = lists.nodes.items.as_slice();
    let basics = lists.basics.items.as_slice();
    let layout = layout_of(alloc, nodes, basics, entering.arc)?;
    let zero_amounts = zeros(alloc, basics.len())?;
    let zero_sums = zeros(alloc, nodes.len())?;
    let marks = no_marks(alloc, nodes.len())?;
    let steps = begun(alloc, entering, basics.len())?;
    match piece_amounts(
        nodes,
        basics,
        &layout,
        entering,
        zero_amounts,
        zero_sums,
        marks,
    ) {
        Ok(amounts) => {
            let found = with_moving(basics, amounts.as_slice(), steps)?;
            Ok(found)
        }
        Err(overflow) => Err(DirRefusal::Past(overflow)),
    }
}

// The moving arcs of two pieces, the entering one first. All operations on the first piece come before those on the second.
fn steps_on_two(
    alloc: Global,
    first: &Quasi,
    second: &Quasi,
    entering: &Entering,
) -> Result<Vec<(u32, Frac)>, DirRefusal>
    requires in_net { (net : Network) × HasSoundArcs net × IsInNet net first.now.lists × IsInNet net second.now.lists }
    ensures { (net : Network) (d : ℕ → Ratio) → HasSoundArcs net → ArePulled net (first.now.lists ∷ second.now.lists ∷ []) entering.now d
        → MatchResult result (λ steps. AreStepsOn net (first.now.lists ∷ second.now.lists ∷ []) entering.now.arc d steps.items)
        (IsRefusedOn net (first.now.lists ∷ second.now.lists ∷ []) entering.now.arc d) }
{
    let lists = first.lists();
    let nodes = lists.nodes.items.as_slice();
    let basics = lists.basics.items.as_slice();
    let others = second.lists();
    let other_nodes = others.nodes.items.as_slice();
    let other_basics = others.basics.items.as_slice();
    let layout = layout_of(alloc, nodes, basics, entering.arc)?;
    let other_layout = layout_of(alloc, other_nodes, other_basics, entering.arc)?;
    let zero_amounts = zeros(alloc, basics.len())?;
    let zero_sums = zeros(alloc, nodes.len())?;
    let marks = no_marks(alloc, nodes.len())?;
    let other_zero_amounts = zeros(alloc, other_basics.len())?;
    let other_zero_sums = zeros(alloc, other_nodes.len())?;
    let other_marks = no_marks(alloc, other_nodes.len())?;
    let steps = begun(alloc, entering, basics.len() + other_basics.len())?;
    let amounts = match piece_amounts(
        nodes,
        basics,
        &layout,
        entering,
        zero_amounts,
        zero_sums,
        marks,
    ) {
        Ok(amounts) => amounts,
        Err(overflow) => return Err(DirRefusal::Past(overflow)),
    };
    let other_amounts = match piece_amounts(
        other_nodes,
        other_basics,
        &other_layout,
        entering,
        other_zero_amounts,
        other_zero_sums,
        other_marks,
    ) {
        Ok(amounts) => amounts,
        Err(overflow) => return Err(DirRefusal::Past(overflow)),
    };
    let found = with_moving(basics, amounts.as_slice(), steps)?;
    let all = with_moving(other_basics, other_amounts.as_slice(), found)?;
    Ok(all)
}

// The moving arcs of two pieces, the one with the lesser least node first.
fn steps_in_order(
    alloc: Global,
    first: &Quasi,
    second: &Quasi,
    entering: &Entering,
) -> Result<Vec<(u32, Frac)>, DirRefusal>
    requires in_net { (net : Network) × HasSoundArcs net × IsInNet net first.now.lists × IsInNet net second.now.lists }
    ensures { (net : Network) (d : ℕ → Ratio) → HasSoundArcs net → ArePulled net (first.now.lists ∷ second.now.lists ∷ []) entering.now d
        → MatchResult result (λ steps. AreStepsOn net (first.now.lists ∷ second.now.lists ∷ []) entering.now.arc d steps.items)
        (IsRefusedOn net (first.now.lists ∷ second.now.lists ∷ []) entering.now.arc d) }
{
    if first.least() < second.least() {
        steps_on_two(alloc, first, second, entering)
    } else {
        steps_on_two(alloc, second, first, entering)
    }
}

// The moving arcs of one piece, or of two.
pub(crate) fn steps_on(
    alloc: Global,
    first: &Quasi,
    second: Option<&Quasi>,
    entering: &Entering,
) -> Result<Vec<(u32, Frac)>, DirRefusal>
    requires in_net { (net : Network) × HasSoundArcs net × ((p : ThePiece) → IsIn p (lists_of (λ s. s.lists) first.now.lists (option_copied second)) → IsInNet net p) }
    ensures { (net : Network) (d : ℕ → Ratio) → HasSoundArcs net → ArePulled net (lists_of (λ s. s.lists) first.now.lists (option_copied second.entry)) entering.now d
        → MatchResult result (λ steps. AreStepsOn net (lists_of (λ s. s.lists) first.now.lists (option_copied second.entry)) entering.now.arc d steps.items)
        (IsRefusedOn net (lists_of (λ s. s.lists) first.now.lists (option_copied second.entry)) entering.now.arc d) }
{
    match second {
        None => steps_on_one(alloc, first, entering),
        Some(other) => steps_in_order(alloc, first, other, entering),
    }
}
