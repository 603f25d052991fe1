//! netplan: least-cost plans of networks that lose and gain, with their proofs.
#![tactic(auto)]

use netplan_top::run;
use np_io::{StdinSource, StdoutSink};
use np_model::OpenGate;
use std::alloc::{AllocError, Global};
use std::env;
use std::io::{self, ErrorKind};
use std::process::ExitCode;

/// The status where a word is not text in UTF-8.
const NO_TEXT: u8 = 11;

/// The status where memory ran out.
const NO_MEMORY: u8 = 9;

// Why the words could not be fetched, as a status.
fn status_of(error: io::Error) -> u8 {
    match error.kind() {
        ErrorKind::InvalidData => NO_TEXT,
        _ => NO_MEMORY,
    }
}

// The words behind the program's name.
fn words_of(alloc: Global, args: env::Args<Global>) -> Result<Vec<String>, AllocError> {
    args.skip(1).collect(alloc)
}

fn main(rt: HostRuntime) -> ExitCode {
    let alloc = rt.alloc();
    let args = match env::args(&rt) {
        Ok(args) => args,
        Err(error) => return ExitCode::from(status_of(error)),
    };
    let Ok(words) = words_of(alloc, args) else {
        return ExitCode::from(NO_MEMORY);
    };
    let mut source = StdinSource::new(rt.stdin());
    let mut sink = StdoutSink::new(rt.stdout());
    let status = run(&rt, alloc, &words, &mut source, &mut sink, &OpenGate);
    ExitCode::from(status)
}
