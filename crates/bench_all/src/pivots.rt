//! Times pivots of `simplex_driver` on pieces of 10 to 10,000 nodes: in a tree, on a cycle, and where two pieces are joined.
//!
//! Links join the nodes to one piece, and the arc of the first turn makes the flows feasible: that is as many pivots as nodes. From then on each
//! pivot is a turn: the arc of the next turn stands at the cursor, or comes next in the list of the round, and its price is below 0. It takes the
//! place of the arc of the turn before, whose price is above 0 from then on. So 21 turns on 10 nodes are 30 pivots: 9 by links and 21 by turns. Where
//! turns join the two ends of the chain they are 29, by its 8 other links, by the drain of its first node, and by 20 turns: the arc of the second
//! turn comes in the first round, before that of the first turn can, which then never enters. `run_alone` of tests/pivots.py counts the same.

ghost use Rattle.std.specs.Prelude.{◌≡◌, ◌<◌, ◌≤◌};
ghost use Rattle.simplex_driver.specs.Budgets.{IsBudget};

mod network;
mod shape;

use crate::pivots::network::network_of;
use crate::pivots::shape::{Case, Shape, Size, case_of};
use np_model::{Net, OpenGate, Outcome};
use simplex_driver::solve;
use std::alloc::Global;
use std::io;
use std::rt::Clock;
use std::thread::Threads;
use std::time::Instant;

// Solves a network by at most so many pivots.
fn solved(rt: &(impl Threads + Sync), alloc: Global, net: &Net, budget: u32) -> io::Result<Outcome>
    requires { IsBudget budget }
{
    match solve(rt, alloc, net, 1, budget, &OpenGate) {
        Ok(outcome) => Ok(outcome),
        Err(_) => Err(io::Error::from(io::ErrorKind::OutOfMemory)),
    }
}

// How many pivots there were.
fn pivots_of(outcome: &Outcome) -> usize {
    let log = match outcome {
        Outcome::Optimal { log, .. } => log,
        Outcome::Infeasible { log, .. } => log,
        Outcome::Unbounded { log, .. } => log,
        Outcome::Budget { log, .. } => log,
        Outcome::Overflow { log, .. } => log,
    };
    log.entries.items.len()
}

// How many nanoseconds so many pivots of a network take, and how many were made.
fn clocked<R: Threads + Clock + Sync>(
    rt: &R,
    alloc: Global,
    net: &Net,
    budget: u32,
) -> io::Result<(u128, usize)>
    requires { IsBudget budget }
{
    let start = Instant::now(rt)?;
    let outcome = solved(rt, alloc, net, budget)?;
    let nanos = start.elapsed(rt)?.as_nanos();
    Ok((nanos, pivots_of(&outcome)))
}

// The times of so many rounds in all.
#[derive(Clone, Copy)]
struct Times {
    // Of the pivots up to the first one that counts.
    before: u128,
    // Of these and of those that count.
    all: u128,
    // How many count.
    pivots: usize,
}

// What is printed of a case.
#[derive(Clone, Copy)]
struct Line {
    // How many pivots count.
    pivots: usize,
    // The nanoseconds of one of them.
    each: u128,
    // The nanoseconds of one of those before.
    before: u128,
}

// Solves a network so many times up to the first pivot that counts, and as many times up to the last one.
fn repeated<R: Threads + Clock + Sync>(
    rt: &R,
    alloc: Global,
    net: &Net,
    first: u32,
    last: u32,
    rounds: u32,
) -> io::Result<Times>
    requires first { IsBudget first }
    requires last { IsBudget last }
{
    let mut times = Times {
        before: 0,
        all: 0,
        pivots: 0,
    };
    for _ in 0..rounds {
        let (nanos, before) = clocked(rt, alloc, net, first)?;
        times.before = times.before.wrapping_add(nanos);
        let (nanos, all) = clocked(rt, alloc, net, last)?;
        times.all = times.all.wrapping_add(nanos);
        times.pivots = times.pivots.wrapping_add(all.wrapping_sub(before));
    }
    Ok(times)
}

// Times the pivots of the turns of a case.
fn timed<R: Threads + Clock + Sync>(
    rt: &R,
    alloc: Global,
    case: &Case,
    count: u32,
) -> io::Result<Line>
    requires some { 0 < case.now.top }
    requires inside { case.now.top < case.now.nodes }
    requires few { case.now.nodes ≤ 10000 }
{
    let nodes = case.nodes;
    let turns = (nodes / 10).max(6);
    let net = network_of(alloc, case, turns + 2)?;
    let rounds = (count / (nodes * turns)).max(1);
    let times = repeated(rt, alloc, &net, nodes, nodes + turns, rounds)?;
    let pivots = times.pivots;
    Ok(Line {
        pivots,
        each: times.all.saturating_sub(times.before) / (pivots as u128).max(1),
        before: times.before / (u128::from(rounds) * u128::from(nodes)),
    })
}

// How many pivots it takes to solve a case with 21 turns: none where it has no plan of least cost.
fn counted(rt: &(impl Threads + Sync), alloc: Global, case: &Case) -> io::Result<usize>
    requires some { 0 < case.now.top }
    requires inside { case.now.top < case.now.nodes }
{
    let net = network_of(alloc, case, 21)?;
    let outcome = solved(rt, alloc, &net, 1_000_000)?;
    match outcome {
        Outcome::Optimal { .. } => Ok(pivots_of(&outcome)),
        _ => Ok(0),
    }
}

// Prints the line of a case.
fn print(rt: HostRuntime, name: &str, nodes: u32, line: Line) -> io::Result<()> {
    let Line {
        pivots,
        each,
        before,
    } = line;
    println!(rt; "{name} {nodes} {pivots} {each} {before}")
}

/// Makes pivots on about so many nodes, for each shape and size, and prints the nanoseconds of a pivot; where that is none, it solves each network
/// of 10 nodes once, and prints how many pivots that takes.
pub(crate) fn run<R: Threads + Clock + Sync>(
    host: HostRuntime,
    rt: &R,
    count: u32,
) -> io::Result<()> {
    for size in [Size::Ten, Size::Hundred, Size::Thousand, Size::TenThousand] {
        for (shape, wide, name) in [
            (Shape::Tree, false, "tree small"),
            (Shape::Tree, true, "tree wide"),
            (Shape::Cycle, false, "cycle small"),
            (Shape::Cycle, true, "cycle wide"),
            (Shape::Joined, false, "joined small"),
            (Shape::Joined, true, "joined wide"),
        ] {
            let case = case_of(shape, size, wide);
            if count > 0 {
                let line = timed(rt, host.alloc(), &case, count)?;
                print(host, name, case.nodes, line)?;
            } else if case.nodes == 10 {
                let pivots = counted(rt, host.alloc(), &case)?;
                println!(host; "{name} {pivots}")?;
            }
        }
    }
    Ok(())
}
