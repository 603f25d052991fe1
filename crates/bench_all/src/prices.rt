//! Times `candidates` of `arc_pricing` on a network of 100,000 arcs between 1,000 nodes.

ghost use Rattle.std.specs.Prelude.{◌≡◌, length};
ghost use Rattle.np_model.specs.Basis.Phases.{real_arcs};

mod network;

use crate::prices::network::{ARCS, full_network, marks_of, potentials_of};
use arc_pricing::{PriceRefusal, candidates};
use np_frac::Frac;
use np_model::{FullNet, Mark, Phase};
use std::alloc::Global;
use std::io;
use std::rt::Clock;
use std::thread::Threads;
use std::time::Instant;

// Prices all arcs so many times, and counts the candidates.
fn repeated(
    rt: &(impl Threads + Sync),
    alloc: Global,
    full: &FullNet,
    potentials: &[Frac],
    marks: &[Mark],
    rounds: u32,
) -> Result<u64, PriceRefusal>
    requires potentials { length potentials.now ≡ length full.now.net.supply }
    requires marks { length marks.now ≡ real_arcs full.now }
    requires arcs { real_arcs full.now ≡ 100000 }
{
    let mut sum = 0u64;
    for round in 0..rounds {
        let from = round % ARCS;
        let list = candidates(rt, alloc, full, Phase::Two, potentials, marks, from)?;
        sum = sum.wrapping_add(list.as_slice().len() as u64);
    }
    Ok(sum)
}

/// Prices about so many arcs, and prints how many arcs there are, the nanoseconds of an arc and a digest: how many candidates there were.
pub(crate) fn run<R: Threads + Clock + Sync>(
    host: HostRuntime,
    rt: &R,
    count: u32,
) -> io::Result<()> {
    let full = full_network(host.alloc())?;
    let potentials = potentials_of(host.alloc())?;
    let marks = marks_of(host.alloc())?;
    let rounds = (count / ARCS).max(1);
    let start = Instant::now(rt)?;
    let answer = repeated(rt, host.alloc(), &full, &potentials, &marks, rounds);
    let nanos = start.elapsed(rt)?.as_nanos();
    let each = nanos / (u128::from(rounds) * u128::from(ARCS));
    match answer {
        Ok(sum) => println!(host; "{ARCS} {each} {sum}"),
        Err(_) => Err(io::Error::from(io::ErrorKind::Other)),
    }
}
