ghost use Rattle.std.specs.Prelude.{◌≡◌, ◌+◌, ◌<◌, ◌≤◌, List, ℕ, length, IfOk, OnOk, OnErr, IsOk};
ghost use Rattle.std.specs.declared.option.Option.{Option};
ghost use Rattle.std.specs.Io.{WritesAtMost};
ghost use Rattle.std.specs.Io.KnownBytes.{WriteAppends, Appends};
ghost use Rattle.media_base.specs.Causes.{HasCause, Rose, WritesFront};

use crate::Failed;

/// Where a program's bytes go.
pub trait Sink {
    /// The bytes that it has taken, where they are told.
    ghost written: { Self → Option (List ℕ) };

    /// How often a write has failed.
    ghost fault_count: { Self → ℕ };

    /// Writes some of the bytes, at least one if there is one.
    fn write(&mut self, buf: &[u8]) -> Result<usize, Failed>
        ensures bound { WritesAtMost result buf.now }
        ensures some { 0 < length buf.now → IfOk result (λ count. 0 < count) }
        ensures bytes { WriteAppends (written self.old) (written self.new) result buf.now }
        ensures cause { HasCause (fault_count self.old) (fault_count self.new) result }
        ensures same { OnOk result (fault_count self.new ≡ fault_count self.old) };

    /// How often a write has failed, at most 2^64 - 1.
    fn faults(&self) -> u64
        ensures { result ≡ fault_count self.now };
}

/// Writes all the bytes, or some at the front of them.
///
/// # Errors
/// `Failed` exactly where the sink failed.
pub fn write_all<K: Sink>(sink: &mut K, bytes: &[u8]) -> Result<(), Failed>
    ensures all { OnOk result (Appends (K.written sink.old) (K.written sink.new) bytes.now) }
    ensures front { WritesFront (K.written sink.old) (K.written sink.new) bytes.now }
    ensures cause { HasCause (K.fault_count sink.old) (K.fault_count sink.new) result }
    ensures told { OnOk result (K.fault_count sink.new ≡ K.fault_count sink.old) }
{
    let mut at = 0;
    while at < bytes.len() {
        at += sink.write(&bytes[at..])?;
    }
    Ok(())
}
