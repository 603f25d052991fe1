//! The ray of an unbounded network, as a list by arc.

ghost use Rattle.std.specs.Prelude.{◌≡◌, IfOk, map};
ghost use Rattle.std.specs.List.{range_with_len};
ghost use Rattle.std.specs.List.Sorted.{IsStrictlyIncreasing};
ghost use Rattle.np_frac.specs.Ratio.{zero_ratio};
ghost use Rattle.np_model.specs.Basis.Pieces.{beside};
ghost use Rattle.np_model.specs.Rows.Moving.{numbers_of_steps};
ghost use Rattle.simplex_driver.specs.Store.{written};

use np_frac::{Frac, Memory};
use np_model::{Fracs, zeros};
use std::alloc::Global;

// Writes the amounts of the arcs that the list has.
fn write_steps(amounts: &mut [Frac], steps: &[(u32, Frac)])
    ensures { amounts.new ≡ written (map (λ s. (s.0, s.1)) steps.now) amounts.old }
{
    for (arc, amount) in steps {
        let place = *arc as usize;
        if place >= amounts.len() {
            continue;
        }
        amounts[place] = *amount;
    }
}

/// The amounts of a direction on the first arcs, so many: each arc has that of its step, or 0.
pub(crate) fn ray_of(alloc: Global, steps: &[(u32, Frac)], count: usize) -> Result<Fracs, Memory>
    requires { IsStrictlyIncreasing (numbers_of_steps steps.now) }
    ensures { IfOk result (λ ray. ray ≡ map (beside zero_ratio steps.now) (range_with_len 0 count)) }
{
    let mut items = zeros(alloc, count)?;
    write_steps(&mut items, steps);
    Ok(Fracs { items })
}
