//! Sources of bytes and sinks for them that count their faults.
//!
//! A [`Source`] and a [`Sink`] say, in the terms of their contracts, which bytes are left and which
//! were written, where they can tell, and how many faults there were. A caller who works over any
//! source and any sink can so be held to its word: it may speak of a fault only where one came.
//!
//! [`SureSource`] and [`SureSink`] work in memory. [`MemSource`] and [`MemSink`] do so too, in small
//! steps and with faults at chosen calls. [`StdinSource`] and [`StdoutSink`] take any reader and any
//! writer of the standard library.
#![tactic(auto)]

mod calls;
mod mem_sink;
mod mem_source;
mod read;
mod room;
mod sink;
mod source;
mod stdin_source;
mod stdout_sink;
mod sure_sink;
mod sure_source;
mod write;

pub use mem_sink::MemSink;
pub use mem_source::MemSource;
pub use read::{LONGEST_INPUT, ReadRefusal, read_all};
pub use sink::Sink;
pub use source::{Failed, Source};
pub use stdin_source::StdinSource;
pub use stdout_sink::StdoutSink;
pub use sure_sink::SureSink;
pub use sure_source::SureSource;
pub use write::{WriteFault, write_all};
