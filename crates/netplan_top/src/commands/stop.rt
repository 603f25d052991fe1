//! Why reading stopped.

ghost use Rattle.std.specs.Prelude.{◌≡◌, IfOk};
ghost use Rattle.netplan_top.specs.Steps.Stops.{network_stop, plan_stop};
ghost use Rattle.netplan_top.specs.Steps.Judged.{IsStopped};

use crate::commands::Answer;
use crate::texts::refused;
use np_frac::Memory;
use std::alloc::Global;

/// Why an input was not read to its end. Records are numbered from 1 over the whole input.
#[derive(Clone, Copy, Debug, PartialEq, Eq)]
pub enum Stop {
    /// The network text has this fault at the record with this number.
    Network {
        place: u32,
        code: net_csv::Code,
    },
    /// The plan text behind it has this fault there.
    Plan {
        place: u32,
        code: certificates::PlanCode,
    },
    /// Memory ran out.
    Memory,
}

/// Why a network text was not read.
pub fn network_stop(refused: net_csv::Refused) -> Stop
    ensures { result ≡ network_stop refused }
{
    match refused {
        net_csv::Refused::Fault { place, code } => Stop::Network { place, code },
        net_csv::Refused::Memory => Stop::Memory,
    }
}

/// Why a plan text was not read.
pub fn plan_stop(refused: certificates::PlanRefused) -> Stop
    ensures { result ≡ plan_stop refused }
{
    match refused {
        certificates::PlanRefused::Fault { place, code } => Stop::Plan { place, code },
        certificates::PlanRefused::Memory => Stop::Memory,
    }
}

/// What is said where the input was not read.
pub fn stopped(alloc: Global, stop: Stop) -> Result<Answer, Memory>
    ensures { IfOk result (λ answer. IsStopped stop answer.status answer.text.items) }
{
    let text = match stop {
        Stop::Network { place, code } => refused(alloc, place, code.word())?,
        Stop::Plan { place, code } => refused(alloc, place, code.word())?,
        Stop::Memory => return Err(Memory),
    };
    Ok(Answer { status: 5, text })
}
