ghost use Rattle.std.specs.Prelude.{◌≡◌, ◌≢◌, ◌≤◌, ◌<◌, ◌%◌, length, IfSome, IfNone};
ghost use Rattle.media_model.specs.Application.{data_of};

use media_base::Bytes;
use std::marker::Model;

/// The most bytes of what an application sends as feedback in a run: a choice.
pub const MOST_BYTES: usize = 800;

/// What an application sends as feedback (RFC 4585 section 6.4): whole words of 4 bytes, at most
/// 800 bytes. Contracts see the list of the bytes.
#[derive(Debug, PartialEq, Eq, Drop)]
pub struct ApplicationData {
    bytes: Bytes,
}

impl Model for ApplicationData {
    ghost use Rattle.std.specs.Prelude.{ℕ, List};
    ghost use Rattle.media_model.specs.Application.{AreFew};

    ghost Value = { List ℕ };

    ghost view = { λ d. d.bytes };

    ghost invariant = { λ d. AreFew d.bytes };

    ghost inverse = { λ l. record { bytes = l } };
}

impl ApplicationData {
    /// The bytes, if they are whole words and not more than 800.
    pub fn new(bytes: Bytes) -> Option<ApplicationData>
        ensures { result ≡ data_of bytes }
    {
        let len = bytes.len();
        if len % 4 != 0 || len > MOST_BYTES {
            return None;
        }
        Some(ApplicationData { bytes })
    }

    /// The bytes, borrowed.
    pub fn as_slice(&self) -> &[u8]
        ensures bytes { result.now ≡ self.now }
        ensures whole { length self.now % 4 ≡ 0 }
        ensures few { length self.now ≤ MOST_BYTES }
    {
        self.bytes.as_slice()
    }
}
