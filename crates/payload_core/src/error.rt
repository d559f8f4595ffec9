//! Why a frame was not packetized, or a packet not depacketized.
ghost use Rattle.std.specs.Prelude.{◌≡◌};

use std::alloc::AllocError;
use thiserror::Error;

/// What is wrong with a telephone event that was to be sent.
#[derive(Clone, Copy, Debug, PartialEq, Eq, Error)]
pub enum TelephoneFault {
    /// No payload type of telephone events has the clock of the sound.
    #[error("no negotiated telephone event for audio clock rate")]
    NoTypeForClock,
    /// The event is above the greatest that is agreed on.
    #[error("event exceeds negotiated range")]
    EventTooGreat,
    /// The event is not said to have ended.
    #[error("event must have end set")]
    NotEnded,
    /// The volume is above 63.
    #[error("volume exceeds 63")]
    VolumeTooGreat,
    /// The event lasts less than 40 ms or more than 6 s.
    #[error("duration must be between 40 ms and 6 s")]
    WrongDuration,
    /// The event begins less than 50 ms after the end of the one before.
    #[error("telephone events must be at least 50 ms apart")]
    TooSoon,
}

impl TelephoneFault {
    ghost use Rattle.payload_core.specs.Reasons.{reason_of};

    /// The reason in words.
    pub fn reason(self) -> &'static str
        ensures { result.now ≡ reason_of self }
    {
        match self {
            TelephoneFault::NoTypeForClock => {
                "no negotiated telephone event for audio clock rate"
            }
            TelephoneFault::EventTooGreat => "event exceeds negotiated range",
            TelephoneFault::NotEnded => "event must have end set",
            TelephoneFault::VolumeTooGreat => "volume exceeds 63",
            TelephoneFault::WrongDuration => "duration must be between 40 ms and 6 s",
            TelephoneFault::TooSoon => "telephone events must be at least 50 ms apart",
        }
    }
}

/// Why a frame was not packetized, or a packet not depacketized.
#[derive(Clone, Copy, Debug, PartialEq, Eq, Error)]
pub enum PacketError {
    /// There is no memory left.
    #[error("out of memory")]
    Memory,
    /// The format is one of video.
    #[error("the format is one of video")]
    Unsupported,
    /// The frame is above the packet limit.
    #[error("the frame is above the packet limit")]
    TooBig,
    /// A telephone event has fewer than 4 bytes.
    #[error("a telephone event has fewer than 4 bytes")]
    ShortTelephone,
    /// A telephone event to be sent breaks a rule.
    #[error("the telephone event is invalid: {0}")]
    InvalidTelephoneEvent(TelephoneFault),
}

impl From<AllocError> for PacketError {
    ghost use Rattle.payload_core.specs.declared.error.PacketError.TheVariants.{Memory};

    ghost from_gives = { λ _ e. e ≡ Memory };

    fn from(_: AllocError) -> Self {
        PacketError::Memory
    }
}
