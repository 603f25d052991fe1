//! What the ratio test answers.

use np_frac::Frac;
use np_model::Mark;

/// How far the flows can go along a direction.
#[derive(Clone, Copy, Debug, PartialEq, Eq)]
pub enum RatioAnswer {
    /// As far as this step: there the entering arc comes to rest at its other bound.
    Flip(Frac),
    /// As far as this step: there this arc comes to rest at this bound, and leaves the basis.
    Leave {
        arc: u32,
        leave_at: Mark,
        step: Frac,
    },
    /// As far as one likes.
    Ray,
}
