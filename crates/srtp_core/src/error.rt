ghost use Rattle.std.specs.Prelude.{◌≡◌};
ghost use Rattle.srtp_core.specs.declared.error.SrtpError.TheVariants.{Memory};

use std::alloc::AllocError;
use thiserror::Error;

/// Why a context was not made, or an RTCP datagram not sealed.
#[derive(Clone, Copy, Debug, PartialEq, Eq, Error)]
pub enum SrtpError {
    /// There is no memory left.
    #[error("out of memory")]
    Memory,
    /// The keying material has another length than the profile's.
    #[error("the keying material has another length than the profile's")]
    KeyLength,
    /// All 2^31 SRTCP indices of this key are used.
    #[error("all indices of the key are used")]
    KeyExhausted,
}

impl From<AllocError> for SrtpError {
    ghost from_gives = { λ _ e. e ≡ Memory };

    fn from(_: AllocError) -> Self {
        SrtpError::Memory
    }
}
