//! Marks at arcs.

ghost use Rattle.std.specs.Prelude.{◌≡◌, ◌<◌, ◌≤◌, ◌↔◌, ℕ, length, true, false, IfOk, slice_index_or};
ghost use Rattle.std.specs.List.{All};
ghost use Rattle.gain_graphs.specs.Arcs.{IsIn};
ghost use Rattle.tree_search.specs.Search.{step_arcs};

use crate::piece::Step;
use np_frac::Memory;
use std::alloc::Global;

/// For each of so many arcs whether one of the steps goes over it.
pub fn marks_of(alloc: Global, steps: &[Step], arcs: usize) -> Result<Vec<bool>, Memory>
    requires placed { All (λ step. step.arc < arcs) steps.now }
    ensures long { IfOk result (λ marks. length marks.items ≡ arcs) }
    ensures marked { IfOk result (λ marks. (a : ℕ) → a < arcs → (slice_index_or marks.items a false ≡ true) ↔ IsIn a (step_arcs steps.now)) }
{
    let mut marks = Vec::with_capacity(alloc, arcs)?;
    for _ in 0..arcs {
        marks.push(false)?;
    }
    for step in steps {
        marks[step.arc as usize] = true;
    }
    Ok(marks)
}

// The place of the first mark that is not set, or their number.
pub(crate) fn unmarked(marks: &[bool]) -> usize
    ensures within { result ≤ length marks.now }
    ensures free { result < length marks.now → slice_index_or marks.now result false ≡ false }
    ensures marked { (i : ℕ) → i < result → slice_index_or marks.now i false ≡ true }
{
    let mut i = 0;
    while i < marks.len() {
        if !marks[i] {
            return i;
        }
        i += 1;
    }
    i
}
