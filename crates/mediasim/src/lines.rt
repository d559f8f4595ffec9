// Writing the lines of entries, in pieces.
ghost use Rattle.std.specs.Prelude.{◌≡◌, ◌++◌, ◌⊎◌, ◌≤◌, ℕ, List, [], take, string_bytes, OnOk, OnErr, IsErrOf};
ghost use Rattle.std.specs.Io.KnownBytes.{Appends};
ghost use Rattle.media_base.specs.Causes.{HasCause, Rose, WritesFront};
ghost use Rattle.media_script.specs.Text.{entries_text};
ghost use Rattle.mediasim.specs.Lines.{bytes_of};

use media_base::{Failed, Sink, write_all};
use media_model::Entry;
use media_script::put_line;
use std::alloc::{AllocError, Global};
use thiserror::Error;

/// How many bytes are gathered before they are written.
const PIECE: usize = 32_768;

/// The line that ends a text, with its line feed.
#[derive(Drop)]
pub enum LastLine {
    /// One that was made for this end.
    Made(String),
    /// One that takes no memory.
    Fixed(&'static [u8]),
}

impl LastLine {
    /// Its bytes.
    pub fn as_slice(&self) -> &[u8]
        ensures { result.now ≡ bytes_of self.now }
    {
        match self {
            LastLine::Made(text) => text.as_bytes(),
            LastLine::Fixed(bytes) => bytes,
        }
    }
}

/// Why a text was not written to its end.
#[derive(Clone, Copy, Debug, PartialEq, Eq, Error)]
pub enum TextError {
    /// Memory ran out.
    #[error("out of memory")]
    Memory,
    /// The sink failed.
    #[error("the sink failed")]
    Failed,
}

impl From<AllocError> for TextError {
    ghost use Rattle.mediasim.specs.declared.lines.TextError.TheVariants.{Memory};

    ghost from_gives = { λ _ e. e ≡ Memory };

    fn from(_: AllocError) -> Self {
        TextError::Memory
    }
}

impl From<Failed> for TextError {
    ghost use Rattle.mediasim.specs.declared.lines.TextError.TheVariants.{Failed as failed};

    ghost from_gives = { λ _ e. e ≡ failed };

    fn from(_: Failed) -> Self {
        TextError::Failed
    }
}

// Writes what was gathered, where that is enough.
fn write_gathered<K: Sink>(sink: &mut K, gathered: &mut String) -> Result<(), Failed>
    ensures all { OnOk result ((out : List ℕ) × Appends (K.written sink.old) (K.written sink.new) out
        × (out ++ string_bytes gathered.new ≡ string_bytes gathered.old)
        × ((out ≡ []) ⊎ (string_bytes gathered.new ≡ []))) }
    ensures front { OnErr result (WritesFront (K.written sink.old) (K.written sink.new) (string_bytes gathered.old)) }
    ensures cause { HasCause (K.fault_count sink.old) (K.fault_count sink.new) result }
    ensures told { OnOk result (K.fault_count sink.new ≡ K.fault_count sink.old) }
{
    if gathered.len() < PIECE {
        return Ok(());
    }
    write_all(sink, gathered.as_bytes())?;
    gathered.clear();
    Ok(())
}

/// Writes the lines of entries, and a last line. Memory is taken for some lines at a time.
///
/// # Errors
/// `Failed` exactly where the sink failed, with a front of the text written; `Memory`, with the
/// lines of some entries at the front written.
pub fn write_text<K: Sink>(
    alloc: Global,
    sink: &mut K,
    entries: &[Entry],
    last: &[u8],
) -> Result<(), TextError>
    ensures all { OnOk result (Appends (K.written sink.old) (K.written sink.new) (entries_text entries.now ++ last.now)) }
    ensures front { IsErrOf result TextError.Failed
        → WritesFront (K.written sink.old) (K.written sink.new) (entries_text entries.now ++ last.now) }
    ensures lines { IsErrOf result TextError.Memory
        → (count : ℕ) × Appends (K.written sink.old) (K.written sink.new) (entries_text (take count entries.now)) }
    ensures failed { IsErrOf result TextError.Failed → Rose (K.fault_count sink.old) (K.fault_count sink.new) }
    ensures later { K.fault_count sink.old ≤ K.fault_count sink.new }
    ensures told { IsErrOf result TextError.Failed ⊎ (K.fault_count sink.new ≡ K.fault_count sink.old) }
{
    let mut gathered = String::new(alloc);
    for entry in entries {
        put_line(&mut gathered, entry)?;
        write_gathered(sink, &mut gathered)?;
    }
    write_all(sink, gathered.as_bytes())?;
    write_all(sink, last)?;
    Ok(())
}
