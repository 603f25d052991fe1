//! The program, over any source and sink.

ghost use Rattle.std.specs.Prelude.{◌≡◌, ◌≤◌};
ghost use Rattle.netplan_top.specs.Words.{ReadsInput};
ghost use Rattle.netplan_top.specs.Run.{IsRun};
ghost use Rattle.netplan_top.specs.Steps.Endings.{IsPrinted, IsDemoEnd, Ending};
ghost use Rattle.netplan_top.specs.Steps.Solved.{IsWithinLimits};

use crate::commands::{answer_of, demo_answer};
use crate::texts::{USAGE, refused};
use crate::words::{Command, command_of, demo_of};
use np_io::{ReadRefusal, Sink, Source, read_all, write_all};
use np_model::Gate;
use std::alloc::Global;
use std::thread::Threads;

// Writes a text, and answers its status, or 8 where the sink failed.
fn print<K: Sink>(sink: &mut K, text: &[u8], status: u8) -> u8
    ensures { IsPrinted text.now status result (K.faults sink.old) (K.faults sink.new) (K.sure sink.old) (K.written sink.old) (K.written sink.new) }
{
    match write_all(sink, text) {
        Ok(()) => status,
        Err(_) => 8,
    }
}

// Reads the input, and writes what the command says of it.
fn answer_input<S: Source, K: Sink, G: Gate>(
    rt: &(impl Threads + Sync),
    alloc: Global,
    command: Command,
    source: &mut S,
    sink: &mut K,
    gate: &G,
) -> u8
    requires limits { IsWithinLimits command }
    ensures { Ending command (record {
      left = S.left source.old;
      left' = S.left source.new;
      source_faults = S.faults source.old;
      source_faults' = S.faults source.new;
      written = K.written sink.old;
      written' = K.written sink.new;
      sink_faults = K.faults sink.old;
      sink_faults' = K.faults sink.new;
      sure = K.sure sink.old;
    }) result }
{
    match read_all(alloc, source) {
        Ok(input) => match answer_of(rt, alloc, command, &input, gate) {
            Ok(answer) => print(sink, &answer.text, answer.status),
            Err(_) => 9,
        },
        Err(ReadRefusal::TooLong) => match refused(alloc, 0, b"TooLong") {
            Ok(text) => print(sink, &text, 5),
            Err(_) => 9,
        },
        Err(ReadRefusal::ReadFault) => 7,
        Err(ReadRefusal::Memory) => 9,
    }
}

// Writes what the demo of a number says.
fn answer_demo<K: Sink, G: Gate>(
    rt: &(impl Threads + Sync),
    alloc: Global,
    number: u32,
    sink: &mut K,
    gate: &G,
) -> u8
    requires some { 1 ≤ number }
    requires few { number ≤ 1000 }
    ensures { IsDemoEnd number result (K.faults sink.old) (K.faults sink.new) (K.sure sink.old) (K.written sink.old) (K.written sink.new) }
{
    match demo_answer(rt, alloc, number, gate) {
        Ok(answer) => print(sink, &answer.text, answer.status),
        Err(_) => 9,
    }
}

/// Runs the command that the words name over the source and the sink, and answers the exit status.
///
/// `solve` reads a network text, makes pivots on its expanded network, and writes the plan of what that run ended in: with
/// `--workers N` by 1 to 16 workers (4 where nothing is said), with `--budget N` by at most 1 to 1,000,000 pivots (200,000),
/// and with `--log` the text has the pivots too, as it always has where the plan shows nothing. `check` reads a network text
/// with a plan text behind it, and writes whether the plan shows what it claims. `expand` reads a network text, and writes its
/// expanded network: a plain network with a node for each node in each period and an arc for each segment of each flow in each
/// period. `demo N` reads nothing: it makes the demo network of N, from 1 to 1,000, as [`demo_scheme`](crate::demo_scheme) does, solves it by 4 workers with at most
/// 200,000 pivots, and writes its size and its least cost. The whole text is made before its first byte is written. The words are
/// looked at first: where they are no command, nothing is read and no memory is taken.
///
/// | status | text | when |
/// |---|---|---|
/// | 0 | of `solve`: an optimal plan with its cost | no feasible plan costs less, as its prices show |
/// | 0 | of `check`: accepted as optimal, with the cost | no feasible plan costs less |
/// | 0 | of `check`: accepted as infeasible, with the gap | there is no feasible plan |
/// | 0 | of `check`: accepted as unbounded | every cost is undercut by some feasible plan |
/// | 0 | of `expand`: the expanded network | the input is a network text, and nothing stands behind it |
/// | 0 | of `demo`: the number, the size and the cost | no feasible plan of the demo network costs less |
/// | 1 | of `solve`: prices and their gap | there is no feasible plan, as they certify |
/// | 2 | of `solve`: flows and a ray | every cost is undercut by some feasible plan along it |
/// | 3 | of `solve` and `demo`: an arc and the log | the run made as many pivots as the budget, and this arc may still enter |
/// | 4 | of `solve` and `demo`: the operation and the log | its exact result does not fit a fraction, in the run or in the sums of its plan |
/// | 4 | of `check`: the operation | its exact result does not fit a fraction, and all before it in the walk holds |
/// | 5 | the fault | the network text has this first fault; or, of `check`, it has none, and the plan text behind it has this one; or the input has more than 16,777,216 bytes (`TooLong`) |
/// | 6 | usage | the words are no command |
/// | 7 | nothing | the source failed; never of `demo` |
/// | 8 | a part of a text | the sink failed |
/// | 9 | nothing | memory ran out |
/// | 10 | rejected, with the clause | of `check`: this clause does not hold, and all before it in the walk does |
///
/// The handle is for the workers of `solve` and `demo`, each of which runs in a thread of its own where one can be made. They pass the gate before they
/// take pieces, and with their pieces in hand. What is said here holds for every number of workers and every order in which they come.
pub fn run<S: Source, K: Sink, G: Gate>(
    rt: &(impl Threads + Sync),
    alloc: Global,
    words: &[String],
    source: &mut S,
    sink: &mut K,
    gate: &G,
) -> u8
    // The words are no command, or ask for the demo: nothing is read.
    ensures unread { ¬ (ReadsInput words.now) → source.new ≡ source.old }

    // Each status has its cause, in what was read and written.
    ensures run { IsRun words.now (record {
      left = S.left source.old;
      left' = S.left source.new;
      source_faults = S.faults source.old;
      source_faults' = S.faults source.new;
      written = K.written sink.old;
      written' = K.written sink.new;
      sink_faults = K.faults sink.old;
      sink_faults' = K.faults sink.new;
      sure = K.sure sink.old;
    }) result }
{
    if let Some(number) = demo_of(words) {
        return answer_demo(rt, alloc, number, sink, gate);
    }
    let Some(command) = command_of(words) else {
        return print(sink, USAGE, 6);
    };
    answer_input(rt, alloc, command, source, sink, gate)
}
