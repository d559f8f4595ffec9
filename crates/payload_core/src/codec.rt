//! Codecs, and what is agreed on about one.
ghost use Rattle.std.specs.Prelude.{◌≡◌};

use rtp_wire::Frequency;

/// Whether media is heard or seen.
#[derive(Clone, Copy, Debug, PartialEq, Eq, PartialOrd, Ord, Hash)]
pub enum MediaKind {
    /// Sound.
    Audio,
    /// Pictures.
    Video,
}

impl MediaKind {
    ghost use Rattle.payload_core.specs.declared.codec.MediaKind.TheVariants.{Audio, Video};
    ghost use Rattle.payload_core.specs.Codecs.{same_kind};

    /// Whether it is sound.
    pub fn is_audio(self) -> bool
        ensures { result ≡ same_kind Audio self }
    {
        matches!(self, MediaKind::Audio)
    }

    /// Whether it is pictures.
    pub fn is_video(self) -> bool
        ensures { result ≡ same_kind Video self }
    {
        matches!(self, MediaKind::Video)
    }
}

/// How media is coded.
#[derive(Clone, Copy, Debug, PartialEq, Eq, PartialOrd, Ord, Hash)]
pub enum Codec {
    /// Opus (RFC 7587).
    Opus,
    /// G.711 with the mu law (RFC 3551 section 4.5.14).
    Pcmu,
    /// G.711 with the A law (RFC 3551 section 4.5.14).
    Pcma,
    /// Telephone events (RFC 4733).
    Telephone,
    /// VP8 (RFC 7741).
    Vp8,
    /// VP9 (RFC 9628).
    Vp9,
    /// H.264 (RFC 6184).
    H264,
    /// H.265 (RFC 7798).
    H265,
    /// H.266 (RFC 9328).
    H266,
    /// AV1 (AV1 RTP specification).
    Av1,
    /// No codec: what probes carry. It counts as video.
    Null,
}

impl Codec {
    ghost use Rattle.payload_core.specs.declared.codec.MediaKind.TheVariants.{Video};
    ghost use Rattle.payload_core.specs.Codecs.{kind_of, is_heard, is_tele, same_kind};

    /// Whether it is carried on a media of sound or of pictures; telephone events are on one of
    /// sound.
    pub fn kind(self) -> MediaKind
        ensures { result ≡ kind_of self }
    {
        match self {
            Codec::Opus | Codec::Pcmu | Codec::Pcma | Codec::Telephone => MediaKind::Audio,
            _ => MediaKind::Video,
        }
    }

    /// Whether it codes sound: Opus or G.711. Telephone events are no sound.
    pub fn is_audio(self) -> bool
        ensures { result ≡ is_heard self }
    {
        matches!(self, Codec::Opus | Codec::Pcmu | Codec::Pcma)
    }

    /// Whether it is carried on a media of pictures.
    pub fn is_video(self) -> bool
        ensures { result ≡ same_kind Video (kind_of self) }
    {
        self.kind().is_video()
    }

    /// Whether it is telephone events.
    pub fn is_tele(self) -> bool
        ensures { result ≡ is_tele self }
    {
        matches!(self, Codec::Telephone)
    }
}

/// Parameters of a format, as an offer tells them (RFC 8866 section 6.15). None is what the
/// format's own standard says for one that is not told.
#[derive(Clone, Copy, Debug, Default, PartialEq, Eq)]
pub struct FormatParams {
    /// Opus: the least milliseconds of sound in a packet (RFC 7587 section 6.1).
    pub min_p_time: Option<u8>,
    /// Opus: whether to use forward error correction within the coding (RFC 7587 section 6.1).
    pub use_inband_fec: Option<bool>,
    /// Opus: whether to stop sending in silence (RFC 7587 section 6.1).
    pub use_dtx: Option<bool>,
    /// H.264: whether the two directions may have different levels (RFC 6184 section 8.1).
    pub level_asymmetry_allowed: Option<bool>,
    /// H.264: how units are put into packets, 0 to 2 (RFC 6184 section 8.1).
    pub packetization_mode: Option<u8>,
    /// H.264: profile and level, 24 bits (RFC 6184 section 8.1).
    pub profile_level_id: Option<u32>,
    /// VP9: the profile (RFC 9628 section 6).
    pub profile_id: Option<u32>,
    /// H.265, H.266: how far units may be out of decoding order (RFC 7798 section 7.1).
    pub sprop_max_don_diff: Option<u16>,
}

/// What two sides agree on about a format, apart from its payload type. Two are equal where all
/// fields are.
#[derive(Clone, Copy, Debug, PartialEq, Eq)]
pub struct CodecSpec {
    /// How media is coded.
    pub codec: Codec,
    /// The ticks in a second of the RTP time.
    pub clock_rate: Frequency,
    /// The channels of sound. None is one, or the format's own number.
    pub channels: Option<u8>,
    /// The format's own parameters.
    pub format: FormatParams,
}

impl CodecSpec {
    /// The ticks in a second of the RTP time. No format here counts in another clock than it is
    /// named by.
    pub fn rtp_clock_rate(&self) -> Frequency
        ensures { result ≡ self.now.clock_rate }
    {
        self.clock_rate
    }
}
