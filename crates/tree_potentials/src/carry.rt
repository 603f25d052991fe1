//! Potentials along steps.

ghost use Rattle.std.specs.Prelude.{◌≡◌, ℕ, length, Ok, Err, MatchResult, IfOk};
ghost use Rattle.std.specs.List.{All};
ghost use Rattle.tree_potentials.specs.Along.{AreWalkable, IsWithin, spread};

use crate::rows::Rows;
use np_frac::{Frac, Past};
use tree_search::Step;

// Carries the potentials along the steps: each gives its far node one.
pub(crate) fn carry(
    rows: &Rows<'_>,
    steps: &[Step],
    potentials: Vec<Frac>,
) -> Result<Vec<Frac>, Past>
    requires walkable { AreWalkable rows.now.basics.now rows.now.costs.now }
    requires within { All (λ step. IsWithin rows.now.nodes.now rows.now.basics.now step) steps.now }
    requires long { length potentials.items ≡ length rows.now.nodes.now }
    ensures kept { IfOk result (λ found. length found.items ≡ length rows.now.nodes.now) }
    ensures carried { let answer = spread rows.now.nodes.now rows.now.basics.now rows.now.costs.now steps.now potentials.items in
        MatchResult result (λ found. answer ≡ Ok found.items) (λ past. answer ≡ Err past) }
{
    let mut potentials = potentials;
    for step in steps {
        let potential = rows.potential_over(*step, potentials[step.near as usize])?;
        potentials[step.far as usize] = potential;
    }
    Ok(potentials)
}
