//! All bytes of a source, written to a sink.
ghost use Rattle.std.specs.Prelude.{◌≡◌, ◌<◌, ◌≤◌, ◌⊎◌, List, ℕ, length, IfOk, IsErrOf};
ghost use Rattle.std.specs.Io.KnownBytes.{Appends, Consumes};
ghost use Rattle.media_base.specs.Causes.{ReadsAll, Rose};
ghost use Rattle.media_base.specs.declared.source.ReadError.TheVariants.{Failed, TooLong};

use media_base::{ReadError, Sink, Source, read_all, write_all};
use std::alloc::Global;

/// Copies what a source has left to a sink, at most 1,000,000 bytes, and tells how many they are.
///
/// # Errors
/// `TooLong` where there are more bytes, and then none is written; `Failed` where one of both ends
/// failed; `Memory`.
pub fn copy_all<S: Source, K: Sink>(
    alloc: Global,
    source: &mut S,
    sink: &mut K,
) -> Result<usize, ReadError>
    ensures copied { IfOk result (λ count. (bytes : List ℕ) × (length bytes ≡ count)
        × ReadsAll (S.left source.old) (S.left source.new) bytes
        × Appends (K.written sink.old) (K.written sink.new) bytes) }
    ensures short { IfOk result (λ count. count ≤ 1000000) }
    ensures long { IsErrOf result TooLong → (K.written sink.new ≡ K.written sink.old)
        × ((bytes : List ℕ) × Consumes (S.left source.old) (S.left source.new) bytes
        × (1000000 < length bytes)) }
    ensures failed { IsErrOf result Failed
        → Rose (S.fault_count source.old) (S.fault_count source.new)
        ⊎ Rose (K.fault_count sink.old) (K.fault_count sink.new) }
{
    let bytes = read_all(alloc, source, 1_000_000)?;
    write_all(sink, bytes.as_slice())?;
    Ok(bytes.len())
}
