//! The same takes and puts over a lock a slot.

ghost use Rattle.std.specs.Prelude.{◌<◌};

use crate::table::alone::Alone;
use crate::table::forest::pieces_of;
use crate::table::round::{Crew, Round, SLOTS, Shape, Tally};
use std::alloc::{AllocError, Global};
use std::sync::{Mutex, Wait};
use std::thread::{Threads, join};

/// The slots, each with its piece or none.
pub(crate) type Slot = Mutex<Option<Alone>>;

/// All pieces at home.
pub(crate) fn slots_of(alloc: Global) -> Result<Vec<Slot>, AllocError> {
    let mut slots = Vec::new(alloc);
    for piece in pieces_of(alloc)? {
        slots.push(Mutex::new(Some(piece)))?;
    }
    Ok(slots)
}

// Takes a piece a turn and puts it back: each is done under the lock of the slot, which is free in between.
fn visit(rt: &impl Wait, slots: &[Slot], round: Round, turns: u32) -> Tally {
    let mut tally = Tally::new();
    for turn in 0..turns {
        if let Some(slot) = slots.get(round.slot(turn) as usize) {
            let taken = slot.lock(rt).take();
            match taken {
                Some(piece) => {
                    *slot.lock(rt) = Some(piece);
                    tally.taken();
                }
                None => tally.missed(),
            }
        }
    }
    tally
}

// Two threads, of which this is the first one's number.
fn visit_both<R: Threads + Wait + Sync>(
    rt: &R,
    slots: &[Slot],
    shape: Shape,
    thread: u32,
    turns: u32,
) -> Tally
    requires { thread < 3 }
{
    let first = Round::of(shape, thread);
    let second = Round::of(shape, thread + 1);
    let (one, other) = join(
        rt,
        || visit(rt, slots, first, turns),
        || visit(rt, slots, second, turns),
    );
    one.plus(other)
}

/// So many turns in each thread.
pub(crate) fn visited<R: Threads + Wait + Sync>(
    rt: &R,
    slots: &[Slot],
    shape: Shape,
    crew: Crew,
    turns: u32,
) -> Tally {
    match crew {
        Crew::One => visit(rt, slots, Round::of(shape, 0), turns),
        Crew::Two => visit_both(rt, slots, shape, 0, turns),
        Crew::Four => {
            let (one, other) = join(
                rt,
                || visit_both(rt, slots, shape, 0, turns),
                || visit_both(rt, slots, shape, 2, turns),
            );
            one.plus(other)
        }
    }
}

/// How many of these slots have the piece of their node.
pub(crate) fn home(rt: &impl Wait, slots: &[Slot]) -> u32 {
    let mut count = 0u32;
    for place in 0..SLOTS {
        if let Some(slot) = slots.get(place as usize)
            && let Some(piece) = slot.lock(rt).as_ref()
            && piece.node == place
        {
            count = count.wrapping_add(1);
        }
    }
    count
}
