//! `expand`: texts of expanded networks, and where the sink fails at each byte.

use crate::fixtures::{Answer, bytes_of, status_of, told, told_at};
use np_io::{MemSink, SureSource};
use np_model::OpenGate;
use std::alloc::Global;
use std::test::Fail;
use std::thread::Threads;

// A flow with a band, and the text of its expanded network.
const BAND: &str = "netplan,1 | periods,1 | node,A | node,B | supply,A,1,12 | supply,B,1,-12 | \
    arc,u,A,B,1,0,10,1 | piece,u,5,3 | end";

const BAND_NET: &str = "netplan-net,1 | size,2,2 | node,0,A,1,12 | node,1,B,1,-12 | \
    arc,0,u,1,0,0,1,1,0,10,1 | arc,1,u,1,1,0,1,1,0,5,3 | end";

// Inputs, the status, and the text, in each line: a reservoir with evaporation beside a pond, no node, a name that is quoted,
// and faults.
const INPUTS: &str =
    "netplan,1 | periods,2 | node,R | node,S | supply,R,1,1/2 | hold,h,R,9/10,0,inf,0 | drain,d,S,0,4,-1 | feed,f,R,1,3,0 | end > 0 > netplan-net,1 | size,4,5 | node,0,R,1,1/2 | node,1,S,1,0 | node,2,R,2,0 | node,3,S,2,0 | arc,0,h,1,0,0,2,9/10,0,inf,0 | arc,1,d,1,0,1,-,-,0,4,-1 | arc,2,f,1,0,-,0,-,1,3,0 | arc,3,d,2,0,3,-,-,0,4,-1 | arc,4,f,2,0,-,2,-,1,3,0 | end
netplan,1 | periods,1 | end > 0 > netplan-net,1 | size,0,0 | end
netplan,1 | periods,1 | node,\"a,b\" | supply,\"a,b\",*,02.50 | end > 0 > netplan-net,1 | size,1,0 | node,0,\"a,b\",1,5/2 | end
netplan,1 | periods,1 | node,A | end | netplan-plan,1 > 5 > netplan-refused,1 | fault,5,AfterEnd | end
netplan,1 | periods,1 | node,A | node,A | end > 5 > netplan-refused,1 | fault,4,Repeated | end
netplan,1 | periods,20000 | node,A | drain,a,A,0,inf,0 | drain,b,A,0,inf,0 | drain,c,A,0,inf,0 | drain,d,A,0,inf,0 | drain,e,A,0,inf,0 | drain,f,A,0,inf,0 | end > 5 > netplan-refused,1 | fault,9,TooMany | end";

// As many arcs as there may be.
const MOST: &str =
    "netplan,1 | periods,20000 | node,A | drain,a,A,0,inf,0 | drain,b,A,0,inf,0 | drain,c,A,0,inf,0 | drain,d,A,0,inf,0 | drain,e,A,0,inf,0 | end";

// Whether a row of an input, a status and a text holds.
fn is_row(rt: &(impl Threads + Sync), alloc: Global, row: &str) -> Result<bool, Fail> {
    let mut parts = row.split(" > ");
    let input = parts.next().unwrap_or("");
    let status = parts.next().unwrap_or("").parse::<u8>()?;
    let want = parts.next().unwrap_or("");
    told(rt, alloc, "expand", input)?.is(alloc, status, want)
}

#[test]
fn expands_inputs(rt: HostRuntime) -> Result<(), Fail> {
    let band = told(&rt, rt.alloc(), "expand", BAND)?;
    assert!(rt; band.is(rt.alloc(), 0, BAND_NET)?);
    for row in INPUTS.lines() {
        assert!(rt; is_row(&rt, rt.alloc(), row)?, "{row}");
    }
    Ok(())
}

#[test]
fn expands_to_the_most_arcs(rt: HostRuntime) -> Result<(), Fail> {
    let most = bytes_of(rt.alloc(), MOST)?;
    let told = told_at(&rt, rt.alloc(), "expand", most, 6_000_000, &OpenGate)?;
    assert_eq!(rt; told.status, 0);
    let head = bytes_of(
        rt.alloc(),
        "netplan-net,1 | size,20000,100000 | node,0,A,1,0",
    )?;
    assert!(rt; told.text.as_slice().starts_with(&head));
    let foot = bytes_of(rt.alloc(), "arc,99999,e,20000,0,19999,-,-,0,inf,0 | end")?;
    assert!(rt; told.text.as_slice().ends_with(&foot));
    Ok(())
}

// What `expand` writes where the sink takes a byte a call and the call with this number fails.
fn told_until(rt: &(impl Threads + Sync), alloc: Global, call: u64) -> Result<Answer, Fail> {
    let fails = Vec::from_slice(alloc, &[call])?;
    let mut source = SureSource::new(bytes_of(alloc, BAND)?);
    let mut sink = MemSink::new(1, fails, Vec::with_capacity(alloc, 1000)?);
    let status = status_of(rt, alloc, "expand", &mut source, &mut sink, &OpenGate)?;
    let text = Vec::from_slice(alloc, sink.written())?;
    Ok(Answer { status, text })
}

#[test]
fn is_cut_at_each_byte(rt: HostRuntime) -> Result<(), Fail> {
    let text = bytes_of(rt.alloc(), BAND_NET)?;
    for written in 0..text.len() {
        let told = told_until(&rt, rt.alloc(), written as u64 + 1)?;
        assert_eq!(rt; told.status, 8);
        assert!(rt; told.text.as_slice() == &text[..written]);
    }
    Ok(())
}
