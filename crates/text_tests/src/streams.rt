//! Tests of sources and sinks of bytes.

use np_io::{
    Failed, LONGEST_INPUT, MemSink, MemSource, ReadRefusal, Sink, Source, StdinSource, StdoutSink,
    SureSink, SureSource, WriteFault, read_all, write_all,
};
use std::alloc::Global;
use std::io;
use std::io::{Read, Write};
use std::test::*;

const TEXT: &[u8] = b"netplan-plan,1\nverdict,optimal\ncost,50\nend\n";

// How many bytes a call moves, the room, what is kept then, and which call fails, 0 for none.
const SINKS: &str = "10 100 20 3
10 100 0 1
1 100 6 7 20
100 100 43 2
10 12 12 0
100 43 43 0";

// The numbers of the calls that fail.
fn numbers(alloc: Global, text: &str) -> Result<Vec<u64>, Fail> {
    let mut numbers = Vec::new(alloc);
    for word in text.split(' ') {
        numbers.push(word.parse::<u64>()?)?;
    }
    Ok(numbers)
}

fn at(numbers: &[u64], place: usize) -> usize {
    match numbers.get(place) {
        Some(number) => *number as usize,
        None => 0,
    }
}

// What a sink has kept of the text; the first is whether it took all.
fn kept_by(sink: &mut MemSink, kept: usize) -> bool {
    let whole = write_all(sink, TEXT).is_ok();
    whole == (kept == TEXT.len()) && Some(sink.written()) == TEXT.get(..kept)
}

// Whether a sink keeps what a row says.
fn keeps(alloc: Global, row: &str) -> Result<bool, Fail> {
    let numbers = numbers(alloc, row)?;
    let fails = Vec::from_slice(alloc, numbers.get(3..).unwrap_or(&[]))?;
    let room = Vec::with_capacity(alloc, at(&numbers, 1))?;
    let mut sink = MemSink::new(at(&numbers, 0).max(1), fails, room);
    Ok(kept_by(&mut sink, at(&numbers, 2)))
}

#[test]
fn a_sink_that_fails_keeps_what_came_before(rt: HostRuntime) -> Result<(), Fail> {
    for row in SINKS.lines() {
        assert!(rt; keeps(rt.alloc(), row)?, "{row}");
    }
    Ok(())
}

fn written_to(sink: &mut SureSink, bytes: &[u8]) -> Result<(), WriteFault> {
    write_all(sink, bytes)
}

fn given_to(sink: &mut SureSink, bytes: &[u8]) -> Result<usize, Failed> {
    sink.give(bytes)
}

#[test]
fn what_was_in_the_room_is_not_written(rt: HostRuntime) -> Result<(), Fail> {
    let mut room = Vec::with_capacity(rt.alloc(), 10)?;
    room.extend_from_slice(b"before")?;
    let mut sink = SureSink::new(room);
    let both = written_to(&mut sink, b"now") == Ok(())
        && written_to(&mut sink, b"then") == Err(WriteFault);
    assert!(rt; both && sink.written() == b"nowt".as_slice() && given_to(&mut sink, b"") == Ok(0));
    Ok(())
}

// The text read from a source that gives so many bytes a call.
fn read_of(alloc: Global, most: usize, fails: &[u64]) -> Result<Vec<u8>, ReadRefusal> {
    let bytes = Vec::from_slice(alloc, TEXT)?;
    let fails = Vec::from_slice(alloc, fails)?;
    let mut source = MemSource::new(bytes, most.max(1), fails);
    read_all(alloc, &mut source)
}

fn read_surely(alloc: Global, bytes: Vec<u8>) -> Result<Vec<u8>, ReadRefusal> {
    read_all(alloc, &mut SureSource::new(bytes))
}

fn is_text(read: Result<Vec<u8>, ReadRefusal>) -> bool {
    match read {
        Ok(all) => all.as_slice() == TEXT,
        Err(_) => false,
    }
}

#[test]
fn the_pieces_make_no_difference(rt: HostRuntime) -> Result<(), Fail> {
    let alloc = rt.alloc();
    for most in [1, 7, 43, 8192] {
        assert!(rt; is_text(read_of(alloc, most, &[])), "at {most}");
    }
    let bytes = Vec::from_slice(alloc, TEXT)?;
    assert!(rt; is_text(read_surely(alloc, bytes)));
    Ok(())
}

#[test]
fn a_source_that_fails_is_refused(rt: HostRuntime) -> Result<(), Fail> {
    // The source of one byte a call fails at this call; the last one would have told the end.
    for call in [1, 2, 43, 44] {
        let read = read_of(rt.alloc(), 1, &[call]).err();
        assert!(rt; read == Some(ReadRefusal::ReadFault), "at {call}");
    }
    Ok(())
}

fn taken(source: &mut MemSource, piece: &mut [u8]) -> Result<usize, Failed> {
    source.take(piece)
}

#[test]
fn a_failed_call_moves_nothing(rt: HostRuntime) -> Result<(), Fail> {
    let bytes = Vec::from_slice(rt.alloc(), b"abc")?;
    let mut source = MemSource::new(bytes, 2, Vec::from_slice(rt.alloc(), &[2])?);
    let mut piece = [b'-'; 4];
    let first = taken(&mut source, &mut piece) == Ok(2)
        && taken(&mut source, &mut piece) == Err(Failed)
        && piece.as_slice() == b"ab--".as_slice();
    let rest = taken(&mut source, &mut piece) == Ok(1)
        && piece.as_slice() == b"cb--".as_slice()
        && taken(&mut source, &mut piece) == Ok(0);
    assert!(rt; first && rest);
    Ok(())
}

// How many bytes of so many are read.
fn read_long(alloc: Global, count: usize) -> Result<usize, ReadRefusal> {
    let bytes = vec![in alloc; b'x'; count]?;
    Ok(read_surely(alloc, bytes)?.len())
}

#[test]
fn an_input_may_have_16_777_216_bytes(rt: HostRuntime) -> Result<(), Fail> {
    let alloc = rt.alloc();
    assert!(rt; read_long(alloc, 16_777_216) == Ok(LONGEST_INPUT));
    assert!(rt; read_long(alloc, 16_777_217) == Err(ReadRefusal::TooLong));
    Ok(())
}

// Gives and takes one byte a call, and fails at the call and at the flush that were chosen.
#[derive(Drop)]
struct Choppy<'a> {
    text: &'a [u8],
    calls: u64,
    bad_call: u64,
    flushes: u64,
    bad_flush: u64,
    idle: bool,
}

fn one_byte_a_call(text: &[u8]) -> Choppy<'_> {
    Choppy {
        text,
        calls: 0,
        bad_call: 0,
        flushes: 0,
        bad_flush: 0,
        idle: false,
    }
}

fn broken() -> io::Error {
    io::Error::from(io::ErrorKind::BrokenPipe)
}

impl Read for Choppy<'_> {
    fn read(&mut self, buf: &mut [u8]) -> io::Result<usize> {
        self.calls = self.calls.saturating_add(1);
        if self.calls == self.bad_call {
            return Err(broken());
        }
        match (self.text.split_first(), buf.first_mut()) {
            (Some((byte, rest)), Some(place)) => {
                *place = *byte;
                self.text = rest;
                Ok(1)
            }
            _ => Ok(0),
        }
    }
}

impl Write for Choppy<'_> {
    fn write(&mut self, buf: &[u8]) -> io::Result<usize> {
        self.calls = self.calls.saturating_add(1);
        if self.calls == self.bad_call {
            return Err(broken());
        }
        Ok(if self.idle { 0 } else { buf.len().min(1) })
    }

    fn flush(&mut self) -> io::Result<()> {
        self.flushes = self.flushes.saturating_add(1);
        if self.flushes == self.bad_flush {
            return Err(broken());
        }
        Ok(())
    }
}

// Whether the text is read behind the eight bytes before a fault.
fn reads_on(alloc: Global) -> bool {
    let mut source = StdinSource::new(Choppy {
        bad_call: 9,
        ..one_byte_a_call(TEXT)
    });
    let first = read_all(alloc, &mut source).err();
    match read_all(alloc, &mut source) {
        Ok(rest) => first == Some(ReadRefusal::ReadFault) && rest.as_slice() == &TEXT[8..],
        Err(_) => false,
    }
}

#[test]
fn a_reader_is_a_source(rt: HostRuntime) -> Result<(), Fail> {
    assert!(rt; is_text(read_all(rt.alloc(), &mut StdinSource::new(TEXT))));
    // The eight bytes before the fault are gone, and the rest comes.
    assert!(rt; reads_on(rt.alloc()));
    Ok(())
}

// Whether the text is written to this writer.
fn written(writer: Choppy<'_>) -> Result<(), WriteFault> {
    write_all(&mut StdoutSink::new(writer), TEXT)
}

// What comes of the text, and then of no bytes, at a writer that takes none.
fn idle() -> (Result<(), WriteFault>, Result<(), WriteFault>) {
    let mut idle = StdoutSink::new(Choppy {
        idle: true,
        ..one_byte_a_call(b"")
    });
    let text = write_all(&mut idle, TEXT);
    (text, write_all(&mut idle, b""))
}

// The text written to a vector.
fn kept(alloc: Global) -> Result<Vec<u8>, WriteFault> {
    let mut kept = Vec::new(alloc);
    write_all(&mut StdoutSink::new(&mut kept), TEXT)?;
    Ok(kept)
}

#[test]
fn a_writer_is_a_sink(rt: HostRuntime) -> Result<(), Fail> {
    match kept(rt.alloc()) {
        Ok(kept) => assert_eq!(rt; kept.as_slice(), TEXT),
        Err(_) => return Err(Fail::from("not written")),
    }
    assert!(rt; written(one_byte_a_call(b"")) == Ok(()));
    let failing = Choppy {
        bad_call: 9,
        ..one_byte_a_call(b"")
    };
    assert!(rt; written(failing) == Err(WriteFault));
    let unflushed = Choppy {
        bad_flush: 9,
        ..one_byte_a_call(b"")
    };
    assert!(rt; written(unflushed) == Err(WriteFault));
    assert!(rt; idle() == (Err(WriteFault), Ok(())));
    Ok(())
}
