//! The lists of two pieces in one, and the marks after a pivot.

ghost use Rattle.std.specs.Prelude.{◌≡◌, ◌≢◌, ◌∷◌, [], ℕ, map, IfOk};
ghost use Rattle.std.specs.List.Sorted.{IsStrictlyIncreasing};
ghost use Rattle.gain_graphs.specs.Arcs.{IsIn};
ghost use Rattle.np_model.specs.declared.log.Mark.{Mark as TheMark};
ghost use Rattle.piece_lists.specs.Joining.{CanBeOne, AreInOne, AreMarksAfter};

use crate::numbered::{merged, without};
use np_frac::Memory;
use np_model::Mark;
use quasi_tree::{FlowList, Lists, MarkList, NodeList};
use std::alloc::Global;

/// The lists of two pieces in one: each ascends, and has the entries of both. A link between the pieces is marked in both, and stands in it
/// once. Takes time in proportion to the lists.
pub fn both(alloc: Global, first: &Lists, second: &Lists) -> Result<Lists, Memory>
    requires { CanBeOne (first.now.lists ∷ second.now.lists ∷ []) }
    ensures { IfOk result (λ one. AreInOne (first.now.lists ∷ second.now.lists ∷ []) one.lists) }
{
    let nodes = merged(
        alloc,
        first.nodes.items.as_slice(),
        second.nodes.items.as_slice(),
    )?;
    let basics = merged(
        alloc,
        first.basics.items.as_slice(),
        second.basics.items.as_slice(),
    )?;
    let marks = merged(
        alloc,
        first.marks.items.as_slice(),
        second.marks.items.as_slice(),
    )?;
    Ok(Lists {
        nodes: NodeList { items: nodes },
        basics: FlowList { items: basics },
        marks: MarkList { items: marks },
    })
}

/// The marks after a pivot: without the arc that enters, and with the one that leaves at its bound. On a flip both are the same arc, whose
/// mark changes.
pub fn marks_after(
    alloc: Global,
    marks: &[(u32, Mark)],
    enter: u32,
    leave: u32,
    leave_at: Mark,
) -> Result<Vec<(u32, Mark)>, Memory>
    requires ascending { IsStrictlyIncreasing (map (λ m. m.0) marks.now) }
    requires leaves { (m : ℕ × TheMark) → IsIn m marks.now → m.0 ≢ enter → m.0 ≢ leave }
    ensures { IfOk result (λ after. AreMarksAfter marks.now enter leave leave_at after.items) }
{
    let rest = without(alloc, marks, enter)?;
    let after = merged(alloc, rest.as_slice(), &[(leave, leave_at)])?;
    Ok(after)
}
