//! The law of sweeps, as the clause of a function that does nothing.

ghost use Rattle.pivot_workers.specs.SweepLaws.{SweepIsUnique};

use pivot_step::laws::answers;

/// On all pieces of a state a list of arcs and a quota have at most one sweep: so 'those of the sweep' names one log, where there is one.
pub fn sweeps()
    ensures unique { SweepIsUnique }
{
    answers();
}
