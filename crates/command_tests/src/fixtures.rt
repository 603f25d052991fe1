//! Runs of the commands over streams in memory.

use netplan_top::run;
use np_io::{Sink, Source, SureSink, SureSource};
use np_model::{Gate, OpenGate};
use std::alloc::Global;
use std::test::Fail;
use std::thread::Threads;

// A line for each record of a text with ` | ` between records: a test function is proved as any other, and a text costs that nothing.
pub(crate) fn bytes_of(alloc: Global, records: &str) -> Result<Vec<u8>, Fail> {
    let mut bytes = Vec::new(alloc);
    for record in records.split(" | ") {
        bytes.extend_from_slice(record.as_bytes())?;
        bytes.push(b'\n')?;
    }
    Ok(bytes)
}

// The words of a line.
fn words_of(alloc: Global, line: &str) -> Result<Vec<String>, Fail> {
    let mut all = Vec::new(alloc);
    for word in line.split_whitespace() {
        all.push(word.to_string(alloc)?)?;
    }
    Ok(all)
}

// The status of these words over these streams.
pub(crate) fn status_of<S: Source, K: Sink, G: Gate>(
    rt: &(impl Threads + Sync),
    alloc: Global,
    words: &str,
    source: &mut S,
    sink: &mut K,
    gate: &G,
) -> Result<u8, Fail> {
    let words = words_of(alloc, words)?;
    Ok(run(rt, alloc, &words, source, sink, gate))
}

// What a command has written, and its status.
#[derive(Drop)]
pub(crate) struct Answer {
    pub status: u8,
    pub text: Vec<u8>,
}

impl Answer {
    // Whether the status is this one, and the text has these records.
    pub(crate) fn is(&self, alloc: Global, status: u8, records: &str) -> Result<bool, Fail> {
        let want = bytes_of(alloc, records)?;
        Ok(self.status == status && self.text.as_slice() == want.as_slice())
    }
}

// What these words write of these bytes, over streams that do not fail and have room for so many bytes.
pub(crate) fn told_at<G: Gate>(
    rt: &(impl Threads + Sync),
    alloc: Global,
    words: &str,
    input: Vec<u8>,
    room: usize,
    gate: &G,
) -> Result<Answer, Fail> {
    let mut source = SureSource::new(input);
    let mut sink = SureSink::new(Vec::with_capacity(alloc, room)?);
    let status = status_of(rt, alloc, words, &mut source, &mut sink, gate)?;
    let text = Vec::from_slice(alloc, sink.written())?;
    Ok(Answer { status, text })
}

// What these words write of these records.
pub(crate) fn told(
    rt: &(impl Threads + Sync),
    alloc: Global,
    words: &str,
    records: &str,
) -> Result<Answer, Fail> {
    told_at(rt, alloc, words, bytes_of(alloc, records)?, 4000, &OpenGate)
}
