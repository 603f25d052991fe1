//! `check`: whether a plan shows what it claims.

ghost use Rattle.std.specs.Prelude.{◌<◌, ◌^◌, IfOk, MatchResult, length};
ghost use Rattle.np_model.specs.Scheme.Fits.{PlanFits};
ghost use Rattle.netplan_top.specs.Commands.Check.{IsCheckAnswer};
ghost use Rattle.netplan_top.specs.Steps.Judged.{IsInputRead, IsStopOf, IsJudged, IsNotAccepted};

use crate::commands::Answer;
use crate::commands::stop::{Stop, network_stop, plan_stop, stopped};
use crate::texts::{accepted, overflowed, rejected};
use cert_checker::{CheckRefusal, check};
use certificates::read_plan;
use net_csv::laws::records_are_there;
use net_csv::{Tail, read_scheme};
use np_frac::Memory;
use np_model::{Plan, Scheme};
use std::alloc::Global;

/// A scheme and a plan of it.
#[derive(Drop)]
struct Input {
    scheme: Scheme,
    plan: Plan,
}

// The scheme and the plan that the bytes stand for. `Network` comes exactly where the bytes do not begin with a network text,
// and `Plan` exactly where they do and what stands behind it is no plan text; each tells the first fault.
fn read_input(alloc: Global, bytes: &[u8]) -> Result<Input, Stop>
    requires { length bytes.now < 2 ^ 32 }
    ensures { MatchResult result
        (λ input. IsInputRead bytes.now input.scheme input.plan)
        (λ stop. IsStopOf stop bytes.now) }
{
    records_are_there();
    let (scheme, count) = match read_scheme(alloc, bytes, Tail::Plan) {
        Ok(read) => read,
        Err(refused) => return Err(network_stop(refused)),
    };
    match read_plan(alloc, bytes, count, &scheme) {
        Ok(plan) => Ok(Input { scheme, plan }),
        Err(refused) => Err(plan_stop(refused)),
    }
}

// What is said where the checker did not accept.
fn not_accepted(alloc: Global, scheme: &Scheme, why: CheckRefusal) -> Result<Answer, Memory>
    ensures { IfOk result (λ answer. IsNotAccepted scheme.now why answer.status answer.text.items) }
{
    match why {
        CheckRefusal::Reject {
            clause,
            name,
            period,
        } => {
            let text = rejected(alloc, scheme, clause, name, period)?;
            Ok(Answer { status: 10, text })
        }
        CheckRefusal::Past { row, past } => {
            let text = overflowed(alloc, row, past)?;
            Ok(Answer { status: 4, text })
        }
        CheckRefusal::Memory => Err(Memory),
    }
}

// What the checker says of a plan.
fn judged(alloc: Global, scheme: &Scheme, plan: &Plan) -> Result<Answer, Memory>
    requires { PlanFits scheme.now plan.now }
    ensures { IfOk result (λ answer. IsJudged scheme.now plan.now answer.status answer.text.items) }
{
    match check(alloc, scheme, plan) {
        Ok(checked) => {
            let text = accepted(alloc, checked)?;
            Ok(Answer { status: 0, text })
        }
        Err(why) => not_accepted(alloc, scheme, why),
    }
}

/// What `check` says of an input.
pub fn check_answer(alloc: Global, bytes: &[u8]) -> Result<Answer, Memory>
    requires { length bytes.now < 2 ^ 32 }
    ensures { IfOk result (λ answer. IsCheckAnswer bytes.now answer.status answer.text.items) }
{
    match read_input(alloc, bytes) {
        Ok(input) => judged(alloc, &input.scheme, &input.plan),
        Err(stop) => stopped(alloc, stop),
    }
}
