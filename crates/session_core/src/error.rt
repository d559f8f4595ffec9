ghost use Rattle.std.specs.Prelude.{◌≡◌};
ghost use Rattle.session_core.specs.declared.error.RtcError.TheVariants.{Memory};

use rtp_base::Ssrc;
use srtp_core::Counter;
use std::alloc::AllocError;
use thiserror::Error;

/// Why a call of a session gives nothing.
#[derive(Clone, Copy, Debug, PartialEq, Eq, Error)]
pub enum RtcError {
    /// There is no memory left. The session is stopped then.
    #[error("out of memory")]
    Memory,
    /// An earlier call answered `Memory`, `KeyExhausted` or `RepairsExhausted`.
    #[error("the session is stopped")]
    Stopped,
    /// A datagram was due behind the last number that its key can seal. The session is stopped
    /// then.
    #[error("a key has no number left")]
    KeyExhausted(Counter),
    /// A packet that the peer asked for was due, and the 2^48 numbers of the repairs of its stream,
    /// under this SSRC, were used. The session is stopped then.
    #[error("the numbers of repairs are used up")]
    RepairsExhausted(Ssrc),
    /// The keying material has another length than the profile's.
    #[error("the keying material has another length than the profile's")]
    KeyLength,
}

impl From<AllocError> for RtcError {
    ghost from_gives = { λ _ e. e ≡ Memory };

    fn from(_: AllocError) -> Self {
        RtcError::Memory
    }
}

/// Why a data channel's media section is not taken.
#[derive(Clone, Copy, Debug, PartialEq, Eq, Error)]
pub enum AppError {
    /// It has another mid than the one before.
    #[error("the data channel has another mid than before")]
    MidChanged,
    /// It has another place in the description than the one before.
    #[error("the data channel has another place than before")]
    IndexChanged,
}
