//! Words that are no command, and streams that fail, come in pieces, or are too long.

ghost use Rattle.std.specs.Prelude.{◌≤◌};

use crate::fixtures::{Answer, bytes_of, status_of, told_at};
use np_io::{MemSink, MemSource, Sink, Source, SureSink, SureSource};
use np_model::OpenGate;
use std::alloc::Global;
use std::test::Fail;
use std::thread::Threads;

// A network with its plan.
const BASE: &str = "netplan,1 | periods,1 | node,A | node,B | supply,A,1,3 | supply,B,1,-6 | \
    arc,u,A,B,2,0,10,1 | end | netplan-plan,1 | verdict,optimal | cost,3 | flow,u,1,3 | \
    price,A,1,1 | price,B,1,0 | end";

const ACCEPTED: &str = "netplan-check,1 | accepted,optimal,3 | end";

const USAGE: &str = "netplan-usage,1 | usage,solve [--workers N] [--budget N] [--log] | \
    usage,check | usage,expand | usage,demo N | end";

// A reservoir over two months.
const RESERVOIR: &str = "netplan,1 | periods,2 | node,A | supply,A,1,55 | supply,A,2,-45 | \
    hold,keep,A,9/10,0,inf,1 | drain,spill,A,0,inf,0 | end";

// Words that are no command, in each line; none in the first.
const NO_COMMANDS: &str = "
check check
expand check
check --log
demo
demo 0
demo 1001
demo 1 2
demo x
demo 00000001
Demo 1
Solve
solve solve
solve 4
--log solve
solve --workers
solve --workers 0
solve --workers 17
solve --workers 00000001
solve --workers +1
solve --workers=1
solve --workers one
solve --workers --log
solve --workers 1 --workers 1
solve --budget
solve --budget 0
solve --budget 1000001
solve --budget 10000000
solve --budget 1 --log --budget 1
solve --log --log
solve --log 1
solve --workers 1 --budget 1 --log now";

// What these words write of a source of these records that gives so many bytes a call and fails at the calls with these numbers, and whether the source fails
// at one more call.
fn told_from(
    rt: &(impl Threads + Sync),
    alloc: Global,
    words: &str,
    records: &str,
    most: usize,
    calls: &[u64],
) -> Result<(Answer, bool), Fail>
    requires { 1 ≤ most }
{
    let fails = Vec::from_slice(alloc, calls)?;
    let mut source = MemSource::new(bytes_of(alloc, records)?, most, fails);
    let mut sink = SureSink::new(Vec::with_capacity(alloc, 1000)?);
    let status = status_of(rt, alloc, words, &mut source, &mut sink, &OpenGate)?;
    let text = Vec::from_slice(alloc, sink.written())?;
    let fails_again = source.take(&mut [0]).is_err();
    Ok((Answer { status, text }, fails_again))
}

// Whether these words are no command. A source that fails at its first call: it is not asked.
fn is_no_command(rt: &(impl Threads + Sync), alloc: Global, words: &str) -> Result<bool, Fail> {
    let (told, fails) = told_from(rt, alloc, words, "x", 1, &[1])?;
    Ok(fails && told.is(alloc, 6, USAGE)?)
}

#[test]
fn looks_at_the_words_first(rt: HostRuntime) -> Result<(), Fail> {
    for words in NO_COMMANDS.lines() {
        assert!(rt; is_no_command(&rt, rt.alloc(), words)?, "{words}");
    }
    Ok(())
}

#[test]
fn demo_reads_nothing(rt: HostRuntime) -> Result<(), Fail> {
    let (told, fails) = told_from(&rt, rt.alloc(), "demo 1", "x", 1, &[1])?;
    assert_eq!(rt; told.status, 0);
    assert!(rt; fails);
    Ok(())
}

#[test]
fn tells_that_the_source_failed(rt: HostRuntime) -> Result<(), Fail> {
    for words in ["check", "solve"] {
        let (told, _) = told_from(&rt, rt.alloc(), words, BASE, 100, &[1])?;
        assert_eq!(rt; told.status, 7);
        assert!(rt; told.text.is_empty());
    }
    Ok(())
}

#[test]
fn tells_at_which_byte_the_source_failed(rt: HostRuntime) -> Result<(), Fail> {
    let length = bytes_of(rt.alloc(), RESERVOIR)?.len() as u64;
    for call in 1..length + 2 {
        let (told, _) = told_from(&rt, rt.alloc(), "solve", RESERVOIR, 1, &[call])?;
        assert_eq!(rt; told.status, 7);
        assert!(rt; told.text.is_empty());
    }
    let (told, _) = told_from(&rt, rt.alloc(), "solve", RESERVOIR, 1, &[length + 2])?;
    assert_eq!(rt; told.status, 0);
    Ok(())
}

#[test]
fn wants_an_end_of_no_bytes(rt: HostRuntime) -> Result<(), Fail> {
    let refusal = "netplan-refused,1 | fault,1,NoEnd | end";
    for words in ["solve", "check", "expand"] {
        let told = told_at(&rt, rt.alloc(), words, Vec::new(rt.alloc()), 100, &OpenGate)?;
        assert!(rt; told.is(rt.alloc(), 5, refusal)?, "{words}");
    }
    Ok(())
}

#[test]
fn reads_in_any_pieces(rt: HostRuntime) -> Result<(), Fail> {
    let (told, _) = told_from(&rt, rt.alloc(), "check", BASE, 1, &[])?;
    assert!(rt; told.is(rt.alloc(), 0, ACCEPTED)?);
    Ok(())
}

// What these words write of these records into a sink that takes ten bytes a call and fails at the call with this number, and whether the sink takes one more.
fn told_into(
    rt: &(impl Threads + Sync),
    alloc: Global,
    words: &str,
    records: &str,
    call: u64,
) -> Result<(Answer, bool), Fail> {
    let fails = Vec::from_slice(alloc, &[call])?;
    let mut source = SureSource::new(bytes_of(alloc, records)?);
    let mut sink = MemSink::new(10, fails, Vec::with_capacity(alloc, 100)?);
    let status = status_of(rt, alloc, words, &mut source, &mut sink, &OpenGate)?;
    let text = Vec::from_slice(alloc, sink.written())?;
    let takes_more = sink.give(b"x").is_ok();
    Ok((Answer { status, text }, takes_more))
}

#[test]
fn tells_that_the_sink_failed(rt: HostRuntime) -> Result<(), Fail> {
    let (told, takes_more) = told_into(&rt, rt.alloc(), "check", BASE, 3)?;
    assert_eq!(rt; told.status, 8);
    assert!(rt; told.text.as_slice() == b"netplan-check,1\nacce".as_slice());
    assert!(rt; takes_more);
    Ok(())
}

#[test]
fn is_cut_within_a_plan(rt: HostRuntime) -> Result<(), Fail> {
    let empty = "netplan,1 | periods,1 | end";
    let (told, _) = told_into(&rt, rt.alloc(), "solve", empty, 3)?;
    assert_eq!(rt; told.status, 8);
    assert!(rt; told.text.as_slice() == b"netplan-plan,1\nverdi".as_slice());
    Ok(())
}

#[test]
fn refuses_what_is_too_long(rt: HostRuntime) -> Result<(), Fail> {
    let input = vec![in rt.alloc(); b'a'; 16_777_217]?;
    let told = told_at(&rt, rt.alloc(), "check", input, 100, &OpenGate)?;
    let refusal = "netplan-refused,1 | fault,0,TooLong | end";
    assert!(rt; told.is(rt.alloc(), 5, refusal)?);
    Ok(())
}
