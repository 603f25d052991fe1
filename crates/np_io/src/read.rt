//! Reads a source to its end.
ghost use Rattle.std.specs.Prelude.{◌≡◌, ℕ, ◌+◌, ◌<◌, ◌≤◌, length, vec_len, IfOk, OnOk, IfSome};
ghost use Rattle.std.specs.Io.KnownBytes.{prepend_known, IsAtEnd};
ghost use Rattle.np_io.specs.Faults.{Rose};
ghost use Rattle.np_io.specs.declared.read.ReadRefusal.TheVariants.{Memory, ReadFault};
ghost use Rattle.np_io.specs.Input.{TookAtMost, TookExactly};

use crate::source::{Failed, Source};
use std::alloc::{AllocError, Global};
use thiserror::Error;

/// The most bytes that an input may have.
pub const LONGEST_INPUT: usize = 16_777_216;

// How many bytes one turn asks for.
const PIECE: usize = 8192;

/// Why an input was not read.
#[derive(Debug, Drop, PartialEq, Eq, Error)]
pub enum ReadRefusal {
    /// The source failed.
    #[error("the input failed")]
    ReadFault,
    /// The source gave more than [`LONGEST_INPUT`] bytes.
    #[error("the input has more than 16,777,216 bytes")]
    TooLong,
    /// Memory ran out. Nothing tells when it does.
    #[error("memory ran out")]
    Memory,
}

impl From<Failed> for ReadRefusal {
    ghost from_gives = { λ _ refusal. refusal ≡ ReadFault };

    fn from(_failure: Failed) -> ReadRefusal {
        ReadRefusal::ReadFault
    }
}

impl From<AllocError> for ReadRefusal {
    ghost from_gives = { λ _ refusal. refusal ≡ Memory };

    fn from(_failure: AllocError) -> ReadRefusal {
        ReadRefusal::Memory
    }
}

/// Reads all bytes up to the end of the source.
///
/// `TooLong` comes exactly where more than [`LONGEST_INPUT`] bytes came: one more was taken then,
/// and no further. `ReadFault` comes only where the source's count of faults rose in this call. The
/// bytes that were taken before a refusal are lost.
pub fn read_all<S: Source>(alloc: Global, source: &mut S) -> Result<Vec<u8>, ReadRefusal>
    // All that was left, to the end.
    ensures whole { IfOk result
        (λ all. S.left source.old ≡ prepend_known all.items (S.left source.new)) }
    ensures all_left { IfOk result (λ all. IfSome (S.left source.old) (λ left. all.items ≡ left)) }
    ensures end { OnOk result (IsAtEnd (S.left source.new)) }
    ensures short_enough { IfOk result (λ all. vec_len all ≤ LONGEST_INPUT) }

    // It stops one byte past the limit.
    ensures too_long { result ≡ Err ReadRefusal.TooLong
        → TookExactly (LONGEST_INPUT + 1) (S.left source.old) (S.left source.new) }
    ensures longer { result ≡ Err ReadRefusal.TooLong
        → IfSome (S.left source.old) (λ left. LONGEST_INPUT < length left) }
    ensures stops { TookAtMost (LONGEST_INPUT + 1) (S.left source.old) (S.left source.new) }

    ensures fault_rose { result ≡ Err ReadRefusal.ReadFault
        → Rose (S.faults source.old) (S.faults source.new) }
    ensures never_falls { S.faults source.old ≤ S.faults source.new }
{
    let mut all = Vec::new(alloc);
    let mut piece = [0; PIECE];
    loop {
        let most = PIECE.min(LONGEST_INPUT + 1 - all.len());
        let count = source.take(&mut piece[..most])?;
        if count == 0 {
            return Ok(all);
        }
        all.extend_from_slice(&piece[..count])?;
        if all.len() > LONGEST_INPUT {
            return Err(ReadRefusal::TooLong);
        }
    }
}
