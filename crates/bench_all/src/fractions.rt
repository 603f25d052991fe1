//! Times `plus`, `times` and `compare` of `np_frac`.

use np_frac::{Frac, Past};
use std::alloc::Global;
use std::cmp::Ordering;
use std::io;
use std::time::Instant;

/// Operands of one size, used in turn.
const OPERANDS: usize = 64;

/// The bits of a part of an operand.
const SIZES: [u32; 4] = [8, 32, 60, 120];

#[derive(Clone, Copy, PartialEq, Eq)]
enum Call {
    Plus,
    Times,
    Compare,
}

/// A number of at most `bits` bits, and above 0, by the generator `xorshift64`.
fn drawn(state: &mut u64, bits: u32) -> i128 {
    let mut bytes = 0u128;
    for _ in 0..2u8 {
        let mut next = *state;
        next ^= next << 13;
        next ^= next >> 7;
        next ^= next << 17;
        *state = next;
        bytes = bytes << 64 | u128::from(next);
    }
    let size = bytes >> 1 >> (127 - bits.min(127));
    i128::try_from(size.max(1)).unwrap_or(1)
}

fn operands(alloc: Global, state: &mut u64, bits: u32) -> io::Result<Vec<Frac>> {
    let mut made = Vec::new(alloc);
    for _ in 0..OPERANDS {
        let value = Frac::new(drawn(state, bits), drawn(state, bits));
        made.push(value.unwrap_or(Frac::whole(1)))?;
    }
    Ok(made)
}

/// What an answer adds to the digest.
fn digest(answer: Result<Frac, Past>) -> u64 {
    match answer {
        Ok(value) => {
            let parts = value.num().unsigned_abs() ^ value.den().unsigned_abs();
            (parts % (1 << 64)) as u64
        }
        Err(_) => 1,
    }
}

fn called(call: Call, left: Frac, right: Frac) -> u64 {
    match call {
        Call::Plus => digest(left.plus(right)),
        Call::Times => digest(left.times(right)),
        Call::Compare => match left.compare(right) {
            Ordering::Less => 0,
            Ordering::Equal => 1,
            Ordering::Greater => 2,
        },
    }
}

fn total(call: Call, lefts: &[Frac], rights: &[Frac], count: u32) -> u64 {
    let mut sum = 0u64;
    for turn in 0..count {
        let place = turn as usize % OPERANDS;
        if let (Some(left), Some(right)) = (lefts.get(place), rights.get(place)) {
            sum = sum.wrapping_add(called(call, *left, *right));
        }
    }
    sum
}

/// Makes so many calls of each, for each size of operands, and prints the nanoseconds of a call and a digest of the answers.
pub(crate) fn run(rt: HostRuntime, count: u32) -> io::Result<()> {
    let count = count.max(1);
    let mut state = 88_172_645_463_325_252u64;
    for bits in SIZES {
        let lefts = operands(rt.alloc(), &mut state, bits)?;
        let rights = operands(rt.alloc(), &mut state, bits)?;
        for (call, name) in [
            (Call::Plus, "plus"),
            (Call::Times, "times"),
            (Call::Compare, "compare"),
        ] {
            let start = Instant::now(&rt)?;
            let sum = total(call, lefts.as_slice(), rights.as_slice(), count);
            let nanos = start.elapsed(&rt)?.as_nanos() / u128::from(count);
            println!(rt; "{name} {bits} {nanos} {sum}")?;
        }
    }
    Ok(())
}
