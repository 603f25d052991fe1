//! `demo`: its summaries, its cost at each run, and its network read back.

ghost use Rattle.std.specs.Prelude.{◌≤◌};

use crate::fixtures::{Answer, bytes_of, told_at};
use demo_network::demo_scheme;
use net_csv::{Tail, read_scheme, scheme_text};
use np_model::OpenGate;
use std::alloc::Global;
use std::str;
use std::test::Fail;
use std::thread::Threads;

// The summary of the demo of 1, whose cost is found by hand.
const FIRST: &str = "netplan-demo,1 | demo,1 | size,8,31 | verdict,optimal | cost,225/8 | end";

// Numbers, and what begins their summaries, in each line.
const SIZES: &str = "2 > netplan-demo,1 | demo,2 | size,16,94 | verdict,optimal
7 > netplan-demo,1 | demo,7 | size,56,273 | verdict,optimal
10 > netplan-demo,1 | demo,10 | size,80,470 | verdict,optimal";

// What these words write of this input.
fn told_of(
    rt: &(impl Threads + Sync),
    alloc: Global,
    words: &str,
    input: Vec<u8>,
) -> Result<Answer, Fail> {
    told_at(rt, alloc, words, input, 50_000, &OpenGate)
}

// Whether a row of a number and what begins its summary holds.
fn is_row(rt: &(impl Threads + Sync), alloc: Global, row: &str) -> Result<bool, Fail> {
    let mut parts = row.split(" > ");
    let number = parts.next().unwrap_or("");
    let want = bytes_of(alloc, parts.next().unwrap_or(""))?;
    let words = format!(in alloc; "demo {number}")?;
    let told = told_of(rt, alloc, words.as_str(), Vec::new(alloc))?;
    Ok(told.status == 0 && told.text.as_slice().starts_with(want.as_slice()))
}

#[test]
fn sums_up_the_first(rt: HostRuntime) -> Result<(), Fail> {
    let told = told_of(&rt, rt.alloc(), "demo 1", Vec::new(rt.alloc()))?;
    assert!(rt; told.is(rt.alloc(), 0, FIRST)?);
    Ok(())
}

#[test]
fn sums_up_demos(rt: HostRuntime) -> Result<(), Fail> {
    for row in SIZES.lines() {
        assert!(rt; is_row(&rt, rt.alloc(), row)?, "{row}");
    }
    Ok(())
}

// The text of the demo network of this number.
fn network(alloc: Global, number: u32) -> Result<Vec<u8>, Fail>
    requires some { 1 ≤ number }
    requires few { number ≤ 1000 }
{
    let scheme = demo_scheme(alloc, number)?;
    Ok(scheme_text(alloc, &scheme)?)
}

// The line of the cost in a text.
fn cost_line(text: &[u8]) -> &str {
    match str::from_utf8(text) {
        Ok(text) => text
            .lines()
            .find(|line| line.starts_with("cost,"))
            .unwrap_or(""),
        Err(_) => "",
    }
}

// The line of the cost that these words write of this input, with status 0.
fn cost_of(
    rt: &(impl Threads + Sync),
    alloc: Global,
    words: &str,
    input: Vec<u8>,
) -> Result<String, Fail> {
    let told = told_of(rt, alloc, words, input)?;
    if told.status != 0 {
        return Err(Fail::from("another status"));
    }
    Ok(cost_line(&told.text).to_string(alloc)?)
}

#[test]
fn costs_the_same_at_each_run(rt: HostRuntime) -> Result<(), Fail> {
    let alloc = rt.alloc();
    let first = cost_of(&rt, alloc, "demo 10", Vec::new(alloc))?;
    let second = cost_of(&rt, alloc, "demo 10", Vec::new(alloc))?;
    let alone = cost_of(&rt, alloc, "solve --workers 1", network(alloc, 10)?)?;
    let together = cost_of(&rt, alloc, "solve --workers 16", network(alloc, 10)?)?;
    assert!(rt; first.starts_with("cost,"));
    assert!(rt; second == first && alone == first && together == first);
    Ok(())
}

// The text of a network that is read and written again, and its periods; nothing where it is long or is not read.
fn again(alloc: Global, text: &[u8]) -> Result<Option<(Vec<u8>, u32)>, Fail> {
    if text.len() >= 100_000 {
        return Ok(None);
    }
    match read_scheme(alloc, text, Tail::Nothing) {
        Ok(read) => Ok(Some((scheme_text(alloc, &read.0)?, read.0.periods))),
        Err(_) => Ok(None),
    }
}

#[test]
fn reads_its_network_back(rt: HostRuntime) -> Result<(), Fail> {
    let text = network(rt.alloc(), 10)?;
    match again(rt.alloc(), &text)? {
        Some((own, periods)) => {
            assert!(rt; own.as_slice() == text.as_slice());
            assert_eq!(rt; periods, 8);
        }
        None => assert!(rt; false),
    }
    Ok(())
}
