//! Several workers: that they are at work at once, and that plans of every order of theirs are accepted.

use crate::fixtures::{bytes_of, told_at};
use np_model::{Gate, Spot};
use std::alloc::Global;
use std::sync::atomic::{AtomicU64, Ordering};
use std::test::Fail;
use std::thread::Threads;

// Two nodes, each with a supply and a drain of its own: two workers can pivot on them at once.
const TWO_DRAINS: &str =
    "netplan,1 | periods,1 | node,A | node,B | supply,A,1,1 | supply,B,1,1 | drain,a,A,0,inf,0 | drain,b,B,0,inf,0 | end";

// The flags of two workers that stood with a piece in hand, and whether one waited for the other in vain.
#[derive(Drop)]
struct Flags {
    first: AtomicU64,
    second: AtomicU64,
    tired: AtomicU64,
}

impl Flags {
    fn own(&self, worker: u32) -> &AtomicU64 {
        if worker == 1 {
            &self.first
        } else {
            &self.second
        }
    }

    fn other(&self, worker: u32) -> &AtomicU64 {
        if worker == 1 {
            &self.second
        } else {
            &self.first
        }
    }
}

impl Gate for Flags {
    fn pass(&self, worker: u32, _turn: u64, spot: Spot) {
        match spot {
            Spot::Seen => {}
            Spot::Held => {
                self.own(worker).store(1, Ordering::SeqCst);
                for _ in 0..100_000_000u64 {
                    if self.other(worker).load(Ordering::SeqCst) == 1 {
                        return;
                    }
                }
                self.tired.store(1, Ordering::SeqCst);
            }
        }
    }
}

// The flags behind a run of two workers, and its status.
fn flagged(rt: &(impl Threads + Sync), alloc: Global) -> Result<(u8, [u64; 3]), Fail> {
    let flags = Flags {
        first: AtomicU64::new(0),
        second: AtomicU64::new(0),
        tired: AtomicU64::new(0),
    };
    let network = bytes_of(alloc, TWO_DRAINS)?;
    let told = told_at(rt, alloc, "solve --workers 2", network, 4000, &flags)?;
    let first = flags.first.load(Ordering::SeqCst);
    let second = flags.second.load(Ordering::SeqCst);
    let tired = flags.tired.load(Ordering::SeqCst);
    Ok((told.status, [first, second, tired]))
}

// Two workers of one round stand with their pieces in hand at the same time: on one thread, in either order, one would wait in vain.
#[test]
fn two_hands(rt: HostRuntime) -> Result<(), Fail> {
    let (status, flags) = flagged(&rt, rt.alloc())?;
    assert_eq!(rt; status, 0);
    assert!(rt; flags == [1, 1, 0]);
    Ok(())
}

// The workers, of the first four, that saw an arc.
#[derive(Drop)]
struct Notes {
    first: AtomicU64,
    second: AtomicU64,
    third: AtomicU64,
    fourth: AtomicU64,
}

impl Gate for Notes {
    fn pass(&self, worker: u32, _turn: u64, spot: Spot) {
        let note = match worker {
            1 => &self.first,
            2 => &self.second,
            3 => &self.third,
            _ => &self.fourth,
        };
        if spot == Spot::Seen {
            note.store(worker as u64, Ordering::SeqCst);
        }
    }
}

// The notes behind a run of four workers, and its status.
fn noted(rt: &(impl Threads + Sync), alloc: Global) -> Result<(u8, [u64; 4]), Fail> {
    let notes = Notes {
        first: AtomicU64::new(0),
        second: AtomicU64::new(0),
        third: AtomicU64::new(0),
        fourth: AtomicU64::new(0),
    };
    let told = told_at(rt, alloc, "demo 10", Vec::new(alloc), 4000, &notes)?;
    let first = notes.first.load(Ordering::SeqCst);
    let second = notes.second.load(Ordering::SeqCst);
    let third = notes.third.load(Ordering::SeqCst);
    let fourth = notes.fourth.load(Ordering::SeqCst);
    Ok((told.status, [first, second, third, fourth]))
}

// Of the demo with ten nodes the first list has an arc for each of four workers, and each tries one.
#[test]
fn four_seen(rt: HostRuntime) -> Result<(), Fail> {
    let (status, notes) = noted(&rt, rt.alloc())?;
    assert_eq!(rt; status, 0);
    assert!(rt; notes == [1, 2, 3, 4]);
    Ok(())
}

// A network in each line: several pieces meet and part, a lake over months, a cycle that gains, and one that no plan fits.
const NETWORKS: &str =
    "netplan,1 | periods,2 | node,A | node,B | node,C | supply,A,*,6 | supply,B,*,-2 | supply,C,2,-3 | arc,u,A,B,1/2,0,4,1 | arc,v,A,C,1,0,inf,2 | arc,w,B,C,2,0,3,1 | hold,h,A,1/2,0,8,0 | hold,k,C,1,0,inf,1 | drain,d,A,0,inf,1 | feed,f,B,0,1,9 | feed,g,C,0,5,7 | piece,g,inf,8 | end
netplan,1 | periods,4 | node,L | supply,L,1,90 | supply,L,2,10 | supply,L,3,-60 | supply,L,4,-40 | hold,s,L,9/10,0,70,0 | drain,z,L,0,inf,0 | feed,b,L,0,inf,10 | end
netplan,1 | periods,1 | node,A | node,B | node,C | supply,C,1,1 | arc,u,A,B,2,0,inf,0 | arc,w,B,A,1,0,inf,0 | arc,x,C,A,1,0,inf,1 | drain,z,A,0,inf,-1 | drain,y,B,0,5,-1 | end
netplan,1 | periods,1 | node,A | node,B | node,C | node,D | supply,A,1,-5 | supply,B,1,4 | supply,C,1,-1 | supply,D,1,2 | arc,u,B,A,1/2,0,inf,1 | arc,v,D,C,1/3,0,1,1 | feed,f,A,0,2,3 | end";

// How often each network is solved, each time with other waits.
const TIMES: u64 = 250;

// A gate at which each worker waits for a time of its own at each turn, and other times where the seed is another.
#[derive(Drop)]
struct Waits {
    seed: u64,
    loads: AtomicU64,
}

impl Gate for Waits {
    fn pass(&self, worker: u32, turn: u64, spot: Spot) {
        let spot = if spot == Spot::Seen { 1u64 } else { 2u64 };
        let drawn = (self.seed.wrapping_mul(31)
            ^ (worker as u64).wrapping_mul(0x9E37_79B9_7F4A_7C15)
            ^ turn.wrapping_mul(977))
            .wrapping_mul(0xBF58_476D_1CE4_E5B9)
            .wrapping_add(spot.wrapping_mul(0x94D0_49BB_1331_11EB));
        for _ in 0..(drawn >> 32) % 300 {
            if self.loads.load(Ordering::SeqCst) == 1 {
                return;
            }
        }
    }
}

// Whether a network is solved by four workers that wait, and the checker accepts the plan.
fn is_accepted(
    rt: &(impl Threads + Sync),
    alloc: Global,
    network: &str,
    seed: u64,
) -> Result<bool, Fail> {
    let waits = Waits {
        seed,
        loads: AtomicU64::new(0),
    };
    let mut input = bytes_of(alloc, network)?;
    let own = Vec::from_slice(alloc, &input)?;
    let plan = told_at(rt, alloc, "solve --workers 4 --log", own, 4000, &waits)?;
    if plan.status >= 3 {
        return Ok(false);
    }
    input.extend_from_slice(&plan.text)?;
    Ok(told_at(rt, alloc, "check", input, 4000, &waits)?.status == 0)
}

#[test]
fn plans_of_all_orders_are_accepted(rt: HostRuntime) -> Result<(), Fail> {
    for network in NETWORKS.lines() {
        for seed in 0..TIMES {
            assert!(rt; is_accepted(&rt, rt.alloc(), network, seed)?, "{network}");
        }
    }
    Ok(())
}
