use media_units::Instant;
use rtp_base::SeqNo;
use std::alloc::AllocError;
use thiserror::Error;

/// A packet that the peer asked for (RFC 4585 section 6.2.1), and that was kept then.
#[derive(Clone, Copy, Debug, PartialEq, Eq)]
pub struct Resend {
    /// The number under which it was sent first.
    pub seq_no: SeqNo,
    /// When it was asked for.
    pub queued_at: Instant,
    /// The bytes of its payload.
    pub payload_size: usize,
}

/// Why a packet is not sent again.
#[derive(Clone, Copy, Debug, PartialEq, Eq, Error)]
pub enum ResendError {
    /// There is no memory.
    #[error("out of memory")]
    Memory,
    /// All 2^48 numbers of the stream of repairs were used.
    #[error("the numbers of repairs are used up")]
    Exhausted,
}

impl From<AllocError> for ResendError {
    ghost use Rattle.std.specs.Prelude.{◌≡◌};
    ghost use Rattle.rtx_core.specs.declared.resend.ResendError.TheVariants.{Memory};

    ghost from_gives = { λ _ e. e ≡ Memory };

    fn from(_: AllocError) -> Self {
        ResendError::Memory
    }
}
