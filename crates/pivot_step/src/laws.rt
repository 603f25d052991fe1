//! The laws of an attempt, as the clauses of functions that do nothing.

ghost use Rattle.pivot_step.specs.Laws.{AnswersExclude, NoRayInStageOne};

/// On the sound pieces that an arc needs an attempt has at most one answer, but for want of memory: an overflow, a refusal, a ray and a pivot
/// exclude each other, the ray is one direction, and the pivot has one entry and one list of pieces after it. An overflow is of one step of the
/// attempt, and of rows A2, A5 and A6 it is one operation, the first; which of several is told of A3, A4 and A7 is open. In stage one there is
/// no ray.
pub fn answers()
    ensures exclude { AnswersExclude }
    ensures no_ray { NoRayInStageOne }
{}
