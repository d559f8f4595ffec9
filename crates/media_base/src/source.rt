ghost use Rattle.std.specs.Prelude.{◌≡◌, ◌+◌, ◌<◌, ◌≤◌, ◌++◌, List, ℕ, ◌⊎◌, length, IfOk, OnOk, IsErrOf};
ghost use Rattle.std.specs.declared.option.Option.{Option};
ghost use Rattle.std.specs.Io.{ReadsAtMost};
ghost use Rattle.std.specs.Io.KnownBytes.{ReadConsumes, Consumes, IsAtEnd};
ghost use Rattle.media_base.specs.declared.source.ReadError.TheVariants.{Memory, Failed as failed};
ghost use Rattle.media_base.specs.Causes.{HasCause, Rose, ReadsAll};

use std::alloc::{AllocError, Global};
use thiserror::Error;

/// How many bytes are read at once: a choice.
const PIECE: usize = 4_096;

/// The source or the sink failed.
#[derive(Clone, Copy, Debug, PartialEq, Eq, Error)]
#[error("the source or the sink failed")]
pub struct Failed;

/// Why input was not read to its end.
#[derive(Clone, Copy, Debug, PartialEq, Eq, Error)]
pub enum ReadError {
    /// There is no memory for the input.
    #[error("out of memory")]
    Memory,
    /// The source failed.
    #[error("the source failed")]
    Failed,
    /// There is more input than the limit.
    #[error("there is more input than the limit")]
    TooLong,
}

impl From<AllocError> for ReadError {
    ghost from_gives = { λ _ e. e ≡ Memory };

    fn from(_: AllocError) -> Self {
        ReadError::Memory
    }
}

impl From<Failed> for ReadError {
    ghost from_gives = { λ _ e. e ≡ failed };

    fn from(_: Failed) -> Self {
        ReadError::Failed
    }
}

/// Where a program's bytes come from.
pub trait Source {
    /// The bytes that reads will give from here on, where they are told.
    ghost left: { Self → Option (List ℕ) };

    /// How often a read has failed.
    ghost fault_count: { Self → ℕ };

    /// Reads some bytes, at least one but at the end of input.
    fn read(&mut self, buf: &mut [u8]) -> Result<usize, Failed>
        ensures bound { ReadsAtMost result buf.new }
        ensures bytes { ReadConsumes (left self.old) (left self.new) result buf.new }
        ensures cause { HasCause (fault_count self.old) (fault_count self.new) result }
        ensures same { OnOk result (fault_count self.new ≡ fault_count self.old) };

    /// How often a read has failed, at most 2^64 - 1.
    fn faults(&self) -> u64
        ensures { result ≡ fault_count self.now };
}

/// The number behind the greatest limit of a reading, in bytes: a choice.
pub const READ_LIMIT: u64 = 1 << 40;

/// Reads to the end of input, at most `limit` bytes.
///
/// # Errors
/// `TooLong` where there are more than `limit` bytes; `Failed` exactly where the source failed;
/// `Memory`.
pub fn read_all<S: Source>(
    alloc: Global,
    source: &mut S,
    limit: usize,
) -> Result<Vec<u8>, ReadError>
    requires { limit < READ_LIMIT }
    ensures all { IfOk result (λ bytes. ReadsAll (S.left source.old) (S.left source.new) bytes.items) }
    ensures short { IfOk result (λ bytes. length bytes.items ≤ limit) }
    ensures long { IsErrOf result ReadError.TooLong → (bytes : List ℕ)
        × Consumes (S.left source.old) (S.left source.new) bytes × (limit < length bytes) }
    ensures some { (bytes : List ℕ) × Consumes (S.left source.old) (S.left source.new) bytes }
    ensures failed { IsErrOf result ReadError.Failed → Rose (S.fault_count source.old) (S.fault_count source.new) }
    ensures later { S.fault_count source.old ≤ S.fault_count source.new }
    ensures told { IsErrOf result ReadError.Failed ⊎ (S.fault_count source.new ≡ S.fault_count source.old) }
{
    let mut bytes = Vec::new(alloc);
    for _turn in 0..limit + 1 {
        let count = read_piece(source, &mut bytes)?;
        if count == 0 {
            return Ok(bytes);
        }
        if bytes.len() > limit {
            return Err(ReadError::TooLong);
        }
    }
    unreachable!()
}

// Reads a piece, and adds it. 0 is the end of input.
fn read_piece<S: Source>(source: &mut S, bytes: &mut Vec<u8>) -> Result<usize, ReadError>
    ensures count { IfOk result (λ n. length bytes.new.items ≡ length bytes.old.items + n) }
    ensures piece { IfOk result (λ n. (piece : List ℕ) × (bytes.new.items ≡ bytes.old.items ++ piece)
        × Consumes (S.left source.old) (S.left source.new) piece) }
    ensures at_end { IfOk result (λ n. n ≡ 0 → IsAtEnd (S.left source.new)) }
    ensures some { (piece : List ℕ) × Consumes (S.left source.old) (S.left source.new) piece }
    ensures not_long { IsErrOf result ReadError.TooLong → ⊥ }
    ensures failed { IsErrOf result ReadError.Failed → Rose (S.fault_count source.old) (S.fault_count source.new) }
    ensures later { S.fault_count source.old ≤ S.fault_count source.new }
    ensures told { IsErrOf result ReadError.Failed ⊎ (S.fault_count source.new ≡ S.fault_count source.old) }
{
    let mut buf = [0u8; PIECE];
    let count = source.read(&mut buf)?;
    bytes.extend_from_slice(&buf[..count])?;
    Ok(count)
}
