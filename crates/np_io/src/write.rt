//! Writes all bytes of a text to a sink.
ghost use Rattle.std.specs.Prelude.{◌≡◌, ℕ, ◌+◌, ◌<◌, ◌≤◌, length, take, OnOk, OnErr};
ghost use Rattle.std.specs.Io.KnownBytes.{append_known};
ghost use Rattle.np_io.specs.Faults.{Rose};

use crate::sink::Sink;
use crate::source::Failed;
use thiserror::Error;

/// A sink failed before all was written.
#[derive(Clone, Copy, Debug, PartialEq, Eq, Error)]
#[error("the output failed")]
pub struct WriteFault;

impl From<Failed> for WriteFault {
    fn from(_failure: Failed) -> WriteFault {
        WriteFault
    }
}

/// Gives `bytes` to the sink, piece by piece, until it has taken all. It takes no memory.
///
/// `WriteFault` comes only where the sink's count of faults rose in this call, and only where the
/// sink was sure of fewer bytes than there are. What was written is then a prefix of `bytes`.
pub fn write_all<K: Sink>(sink: &mut K, bytes: &[u8]) -> Result<(), WriteFault>
    ensures whole { OnOk result (K.written sink.new ≡ append_known (K.written sink.old) bytes.now) }
    ensures prefix { (count : ℕ) × (count ≤ length bytes.now)
        × (K.written sink.new ≡ append_known (K.written sink.old) (take count bytes.now)) }
    ensures sure_of_the_rest { OnOk result (K.sure sink.old ≤ K.sure sink.new + length bytes.now) }

    ensures fault_rose { OnErr result (Rose (K.faults sink.old) (K.faults sink.new)) }
    ensures not_sure { OnErr result (K.sure sink.old < length bytes.now) }
    ensures never_falls { K.faults sink.old ≤ K.faults sink.new }
{
    let mut given = 0;
    while given < bytes.len() {
        given += sink.give(&bytes[given..])?;
    }
    Ok(())
}
