//! Counts what the workers of `solve` do.

use netplan_top::run as answer;
use np_io::{StdinSource, SureSink, SureSource, read_all};
use np_model::{Gate, Spot};
use std::alloc::Global;
use std::io;
use std::sync::atomic::{AtomicU64, Ordering};
use std::thread::Threads;

// Two nodes with a supply and a drain each.
const SMALL: &str =
    "netplan,1\nperiods,1\nnode,A\nnode,B\nsupply,A,1,1\nsupply,B,1,1\ndrain,a,A,0,inf,0\ndrain,b,B,0,inf,0\nend\n";

// How often workers stood at each spot.
#[derive(Drop)]
struct Counts {
    seen: AtomicU64,
    held: AtomicU64,
}

impl Gate for Counts {
    fn pass(&self, _worker: u32, _turn: u64, spot: Spot) {
        let count = match spot {
            Spot::Seen => &self.seen,
            Spot::Held => &self.held,
        };
        count.fetch_add(1, Ordering::SeqCst);
    }
}

fn no_memory() -> io::Error {
    io::Error::from(io::ErrorKind::OutOfMemory)
}

// Solves a network text by so many workers: the status, how many attempts there were, and how many of them had their pieces in hand.
fn counted(
    rt: &(impl Threads + Sync),
    alloc: Global,
    workers: &str,
    input: Vec<u8>,
) -> io::Result<(u8, u64, u64)> {
    let mut words = Vec::new(alloc);
    for word in ["solve", "--workers", workers] {
        words.push(word.to_string(alloc)?)?;
    }
    let counts = Counts {
        seen: AtomicU64::new(0),
        held: AtomicU64::new(0),
    };
    let mut source = SureSource::new(input);
    let mut sink = SureSink::new(Vec::with_capacity(alloc, 100_000_000)?);
    let status = answer(rt, alloc, &words, &mut source, &mut sink, &counts);
    let seen = counts.seen.load(Ordering::SeqCst);
    let held = counts.held.load(Ordering::SeqCst);
    Ok((status, seen, held))
}

/// Solves the network text of the standard input by so many workers, and prints the exit status of `solve`, how many attempts the workers made,
/// and how many of these ended with a slot that was busy or a piece that was stale.
pub(crate) fn run(host: HostRuntime, rt: &(impl Threads + Sync), workers: &str) -> io::Result<()> {
    let mut source = StdinSource::new(host.stdin());
    let input = read_all(host.alloc(), &mut source).map_err(|_| no_memory())?;
    let (status, seen, held) = counted(rt, host.alloc(), workers, input)?;
    let lost = seen.saturating_sub(held);
    println!(host; "status {status}, attempts {seen}, busy or stale {lost}")
}

/// Does so for a small network and one worker, and prints the status and the attempts that were neither.
pub(crate) fn run_small(host: HostRuntime, rt: &(impl Threads + Sync)) -> io::Result<()> {
    let input = Vec::from_slice(host.alloc(), SMALL.as_bytes())?;
    let (status, _, held) = counted(rt, host.alloc(), "1", input)?;
    println!(host; "status {status}, attempts {held}")
}
