//! The laws of runs, of what a last state certifies, and of the verdicts, as the clauses of functions that do nothing.

ghost use Rattle.np_runs.specs.Runs.{RunGoesOn, RunTurns, RunGivesState, RunIsUnique, PiecesStay, TurnIs};
ghost use Rattle.np_runs.specs.Certified.{OptimalIsShown, InfeasibleIsShown, UnboundedIsShown, NoneIsEndlessInStageOne};
ghost use Rattle.np_runs.specs.Verdicts.{StartGivesResiduals, RayIsEndless, NoneFindsRayInStageOne, RaysExcludeOverflows, OptimalCertifies, InfeasibleCertifies, UnboundedCertifies, VerdictsExclude, EndedFits, NodeAloneEnds};

use basis_start::laws::residuals;
use np_basis::laws::{directions, full_networks, pieces, pivots, potentials, prices, rays, start};

/// In both stages a basis has the same pieces. A state of stage one in which no artificial arc carries anything becomes one of stage two by the
/// potentials of its basis at the costs of stage two, where no operation of their rows overflows.
pub fn stages()
    ensures pieces { PiecesStay }
    ensures turn { TurnIs }
{}

/// A run goes on by pivots of its stage, and turns behind all its entries. From a start whose residuals fit it leads to a state of its stage,
/// and its log determines which.
pub fn runs()
    ensures goes_on { RunGoesOn }
    ensures turns { RunTurns }
    ensures state { RunGivesState }
    ensures unique { RunIsUnique }
{
    full_networks();
    start();
    pieces();
    potentials();
    pivots();
}

/// The real flows of a state of stage two without an eligible arc are feasible, and its potentials show them least; a state of stage one
/// in which an artificial arc carries something, without an eligible arc, has potentials that certify that there is no plan, with
/// what the artificial arcs carry as their gap; and the direction of an eligible arc of stage two that nothing stops is a
/// ray. In stage one something stops each.
pub fn certified()
    ensures optimal { OptimalIsShown }
    ensures infeasible { InfeasibleIsShown }
    ensures unbounded { UnboundedIsShown }
    ensures no_ray { NoneIsEndlessInStageOne }
{
    full_networks();
    start();
    prices();
    rays();
}

/// Where no residual overflows, the residuals fit: the start is a state.
pub fn started()
    ensures { StartGivesResiduals }
{
    residuals();
}

/// The ray that an attempt with an arc finds is the direction of the arc over the whole network, and nothing stops it; in stage one no attempt
/// finds one. Where an attempt finds a ray, none with the same arc overflows.
pub fn attempts()
    ensures endless { RayIsEndless }
    ensures none_in_stage_one { NoneFindsRayInStageOne }
    ensures apart { RaysExcludeOverflows }
{
    certified();
    full_networks();
    start();
    pieces();
    directions();
}

/// An outcome that a run has ended in certifies its network: optimal flows are least, as their potentials show, potentials of an infeasible
/// network certify that it has no plan, and the ray of an unbounded one is a ray from its flows.
pub fn outcomes()
    ensures optimal { OptimalCertifies }
    ensures infeasible { InfeasibleCertifies }
    ensures unbounded { UnboundedCertifies }
{
    started();
    runs();
    certified();
    attempts();
    full_networks();
    start();
}

/// Two outcomes of one network and budget with the same log have the same verdict.
pub fn verdicts()
    ensures { VerdictsExclude }
{
    started();
    runs();
    attempts();
    full_networks();
    start();
    pieces();
    potentials();
    pivots();
}

/// The lists of an outcome have one entry for each arc or node; its numbers have at most nine digits, and where the budget is at most a million
/// pivots those of its log too; and an overflow is told at a place that its row can have.
pub fn parts()
    ensures { EndedFits }
{
    outcomes();
}

/// There are outcomes: a node alone with a supply that is not 0 ends infeasible with no pivot at all.
pub fn examples()
    ensures { NodeAloneEnds }
{}
