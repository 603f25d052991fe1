//! Times takes and puts of the shared table by one, two and four threads, on four slots a thread and on one slot that is common to all, beside
//! the same over a lock a slot.

mod alone;
mod forest;
mod locked;
mod round;
mod shared;

use crate::table::round::{Crew, Shape, Tally};
use std::alloc::Global;
use std::io;
use std::rt::Clock;
use std::sync::Wait;
use std::thread::Threads;
use std::time::Instant;

// What was found: the time, the takes, and the pieces that are home at the end.
struct Found {
    nanos: u128,
    tally: Tally,
    home: u32,
}

// Over the table.
fn over_table<R: Threads + Clock + Sync>(
    rt: &R,
    alloc: Global,
    shape: Shape,
    crew: Crew,
    turns: u32,
) -> io::Result<Found> {
    let Ok((table, pass)) = forest::table_of(alloc) else {
        return Err(io::Error::from(io::ErrorKind::OutOfMemory));
    };
    let start = Instant::now(rt);
    let (pass, tally) = shared::visited(rt, alloc, &table, pass, shape, crew, turns);
    let elapsed = match start {
        Ok(start) => start.elapsed(rt),
        Err(error) => Err(error),
    };
    // a table ends only by being closed, so no error is answered before
    let closed = table.close(pass);
    let nanos = elapsed?.as_nanos();
    let Some(tally) = tally else {
        return Err(io::Error::from(io::ErrorKind::OutOfMemory));
    };
    let home = forest::home(closed.pieces.as_slice());
    Ok(Found { nanos, tally, home })
}

// Over a lock a slot.
fn over_locks<R: Threads + Wait + Clock + Sync>(
    rt: &R,
    alloc: Global,
    shape: Shape,
    crew: Crew,
    turns: u32,
) -> io::Result<Found> {
    let slots = locked::slots_of(alloc)?;
    let start = Instant::now(rt)?;
    let tally = locked::visited(rt, slots.as_slice(), shape, crew, turns);
    let nanos = start.elapsed(rt)?.as_nanos();
    let home = locked::home(rt, slots.as_slice());
    Ok(Found { nanos, tally, home })
}

// The line of what was found, with the time or without.
fn line(
    rt: HostRuntime,
    name: &str,
    threads: u32,
    shape: Shape,
    found: Found,
    timed: bool,
) -> io::Result<()> {
    let slots = match shape {
        Shape::Own => "own",
        Shape::Common => "common",
    };
    let Found { nanos, tally, home } = found;
    if timed {
        let rate = u128::from(tally.takes) * 1_000_000_000 / nanos.max(1);
        let busy = tally.busy;
        return println!(rt; "{name} {slots} {threads} {rate} {busy} {home}");
    }
    let count = match shape {
        Shape::Own => tally.takes,
        Shape::Common => tally.takes.wrapping_add(tally.busy),
    };
    println!(rt; "{name} {slots} {threads} {count} {home}")
}

/// Each thread makes so many turns, each a take and, where a piece was at home, a put; of each case is printed how many pieces were taken a
/// second, how many takes found none at home, and how many of the 16 pieces are home at the end. Where no number is given a thread makes 1,000
/// turns, and no time is printed: where a thread has slots of its own it is how many pieces were taken, and where the slot is common how many
/// turns there were.
pub(crate) fn run<R: Threads + Wait + Clock + Sync>(
    host: HostRuntime,
    rt: &R,
    count: u32,
) -> io::Result<()> {
    let timed = count > 0;
    let turns = if timed { count } else { 1_000 };
    for shape in [Shape::Own, Shape::Common] {
        for (crew, threads) in [(Crew::One, 1), (Crew::Two, 2), (Crew::Four, 4)] {
            let found = over_table(rt, host.alloc(), shape, crew, turns)?;
            line(host, "table", threads, shape, found, timed)?;
            let found = over_locks(rt, host.alloc(), shape, crew, turns)?;
            line(host, "mutex", threads, shape, found, timed)?;
        }
    }
    Ok(())
}
