//! A test of the most pivots that a plan text may have.

use crate::ended::alone;
use certificates::{PlanRefused, read_plan};
use itoa::Buffer;
use std::alloc::Global;
use std::test::Fail;

// Adds the record of the pivot with this number.
fn add_pivot(text: &mut Vec<u8>, number: u32) -> Result<(), Fail> {
    let mut buffer = Buffer::new();
    text.extend_from_slice(b"pivot,")?;
    text.extend_from_slice(buffer.format(number).as_bytes())?;
    text.extend_from_slice(b",0,0,lower\n")?;
    Ok(())
}

// The text of a plan with so many pivots.
fn with_pivots(alloc: Global, count: u32) -> Result<Vec<u8>, Fail> {
    let mut text = Vec::from_slice(alloc, b"netplan-plan,1\nverdict,budget\narc,0\n")?;
    for before in 0..count {
        add_pivot(&mut text, before + 1)?;
    }
    text.extend_from_slice(b"end\n")?;
    Ok(text)
}

// The number and the word of the first fault of a text with so many pivots; 0 where there is none.
fn fault(alloc: Global, count: u32) -> Result<(u32, &'static [u8]), Fail> {
    let text = with_pivots(alloc, count)?;
    if 100_000_000 < text.len() {
        return Err(Fail::from("long"));
    }
    let scheme = alone(alloc, 0)?;
    match read_plan(alloc, &text, 0, &scheme) {
        Ok(_) => Ok((0, b"none")),
        Err(PlanRefused::Memory) => Err(Fail::from("memory")),
        Err(PlanRefused::Fault { place, code }) => Ok((place, code.word())),
    }
}

// A million pivots are numbered, and the next one is too many.
#[test]
fn too_many_pivots(rt: HostRuntime) -> Result<(), Fail> {
    assert!(rt; fault(rt.alloc(), 1_000_000)? == (0, b"none".as_slice()));
    assert!(rt; fault(rt.alloc(), 1_000_001)? == (1_000_004, b"BadNumber".as_slice()));
    Ok(())
}
