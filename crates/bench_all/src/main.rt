//! Timings of fractions, of parts of the solver on single pieces, of prices, of the shared table and of pivots, and counts of what workers do. The first
//! argument is what is timed, and the second one about how many calls, potentials, arcs, turns or nodes; of `rounds` it is the number of workers.
//! Without an argument it tells no time: how many pivots small networks take, how many pieces are taken from the table, and how many attempts a small
//! network takes.
#![tactic(auto)]

mod fractions;
mod nodes;
mod pieces;
mod pivots;
mod prices;
mod rounds;
mod table;

use std::{env, io};

fn main(rt: HostRuntime) -> io::Result<()> {
    let mut words = env::args(&rt)?;
    words.next();
    let Some(timing) = words.next() else {
        pivots::run(rt, &rt, 0)?;
        table::run(rt, &rt, 0)?;
        return rounds::run_small(rt, &rt);
    };
    let Some(number) = words.next() else {
        return Err(io::Error::from(io::ErrorKind::InvalidInput));
    };
    let count = number.as_str().parse::<u32>().unwrap_or(0).max(1);
    match timing.as_str() {
        "fractions" => fractions::run(rt, count),
        "pieces" => pieces::run(rt, count),
        "pivots" => pivots::run(rt, &rt, count),
        "prices" => prices::run(rt, &rt, count),
        "rounds" => rounds::run(rt, &rt, number.as_str()),
        "table" => table::run(rt, &rt, count),
        _ => Err(io::Error::from(io::ErrorKind::InvalidInput)),
    }
}
