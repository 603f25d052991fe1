//! What each command says of an input.

ghost use Rattle.std.specs.Prelude.{◌<◌, ◌^◌, IfOk, length};
ghost use Rattle.netplan_top.specs.Commands.Answers.{AnswerOf};
ghost use Rattle.netplan_top.specs.Steps.Solved.{IsWithinLimits};

mod check;
mod demo;
mod expand;
mod solve;
mod stop;

use crate::words::Command;
use check::check_answer;
pub(crate) use demo::demo_answer;
use expand::expand_answer;
use np_frac::Memory;
use np_model::Gate;
use solve::solve_answer;
use std::alloc::Global;
use std::thread::Threads;

/// A status, and the text that goes with it.
#[derive(Drop)]
pub(crate) struct Answer {
    pub status: u8,
    pub text: Vec<u8>,
}

/// What a command says of an input.
pub(crate) fn answer_of<G: Gate>(
    rt: &(impl Threads + Sync),
    alloc: Global,
    command: Command,
    bytes: &[u8],
    gate: &G,
) -> Result<Answer, Memory>
    requires limits { IsWithinLimits command }
    requires short { length bytes.now < 2 ^ 32 }
    ensures { IfOk result (λ answer. AnswerOf command bytes.now answer.status answer.text.items) }
{
    match command {
        Command::Solve(job) => solve_answer(rt, alloc, job, bytes, gate),
        Command::Check => check_answer(alloc, bytes),
        Command::Expand => expand_answer(alloc, bytes),
    }
}
