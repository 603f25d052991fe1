//! The writers of the standard library, as sinks.
ghost use Rattle.std.specs.Prelude.{◌≡◌, ◌<◌, ◌≤◌, None, length, take, IfOk, IfSome, OnOk, OnErr};
ghost use Rattle.std.specs.Io.KnownBytes.{Appends};
ghost use Rattle.np_io.specs.Faults.{Rose, next_count};
ghost use Rattle.np_io.specs.Streams.{stdout_writer, stdout_faults};

use crate::sink::Sink;
use crate::source::Failed;
use std::io::Write;

/// A writer as a sink. It tells nothing of what was written, and is sure of nothing.
///
/// Each call of `give` writes once and flushes. It is a fault if either fails, and if no byte of a
/// nonempty piece was written. The count of faults stops at its last value.
#[derive(Drop)]
pub struct StdoutSink<W> {
    writer: W,
    faults: u64,
}

impl<W: Write + Drop> StdoutSink<W> {
    /// A sink whose bytes go to the writer. It takes no memory.
    pub fn new(writer: W) -> StdoutSink<W>
        ensures writer { stdout_writer result ≡ writer }
        ensures faults { stdout_faults result ≡ 0 }
    {
        StdoutSink { writer, faults: 0 }
    }
}

impl<W: Write + Drop> Sink for StdoutSink<W> {
    ghost written = { λ _. None };

    ghost faults = { stdout_faults };

    ghost sure = { λ _. 0 };

    fn give(&mut self, bytes: &[u8]) -> Result<usize, Failed>
        // What the trait says.
        ensures fits { IfOk result (λ count. count ≤ length bytes.now) }
        ensures some_taken { 0 < length bytes.now → IfOk result (λ count. 1 ≤ count) }
        ensures fault_rose { OnErr result (Rose (stdout_faults self.old) (stdout_faults self.new)) }
        ensures never_falls { stdout_faults self.old ≤ stdout_faults self.new }

        // The writer's own bytes, where the writer tells them.
        ensures passed_on { IfOk result (λ count. Appends (W.contents (stdout_writer self.old))
            (W.contents (stdout_writer self.new)) (take count bytes.now)) }
        ensures no_fault { OnOk result (stdout_faults self.new ≡ stdout_faults self.old) }
        ensures fault { OnErr result
            (stdout_faults self.new ≡ next_count (stdout_faults self.old)) }
    {
        match write_and_flush(&mut self.writer, bytes) {
            Some(count) => Ok(count),
            None => {
                self.faults = self.faults.saturating_add(1);
                Err(Failed)
            }
        }
    }
}

// How many bytes were written and flushed, if neither step failed and there was progress.
fn write_and_flush<W: Write>(writer: &mut W, bytes: &[u8]) -> Option<usize>
    ensures fits { IfSome result (λ count. count ≤ length bytes.now) }
    ensures some_taken { 0 < length bytes.now → IfSome result (λ count. 1 ≤ count) }
    ensures passed_on { IfSome result
        (λ count. Appends (W.contents writer.old) (W.contents writer.new) (take count bytes.now)) }
{
    let written = writer.write(bytes).ok()?;
    writer.flush().ok()?;
    if written == 0 && !bytes.is_empty() {
        return None;
    }
    Some(written)
}
