//! Frames in packets, one packet each (RFC 3551 section 4.5.14, RFC 4733, RFC 7587 section 4.2).
ghost use Rattle.std.specs.Prelude.{◌≡◌, length, Err, IfSome, IfNone, IfErr, OnOk, OnErr};
ghost use Rattle.payload_core.specs.declared.payload.MediaPacket.{MediaPacket};
ghost use Rattle.payload_core.specs.declared.error.PacketError.TheVariants.{Memory};

use crate::codec::{Codec, CodecSpec};
use crate::error::PacketError;
use crate::telephone::{TELE_EVENT_LEN, TelephoneEvent};
use media_base::Bytes;
use media_units::Instant;
use rtp_wire::{ExtensionValues, Frequency, MediaTime, Pt};
use std::alloc::AllocError;

/// A packet of media before it has a number and a source.
#[derive(Debug, Drop)]
pub struct MediaPacket {
    /// What its payload is.
    pub pt: Pt,
    /// When its frame begins, in ticks of the RTP clock.
    pub rtp_time: MediaTime,
    /// When its frame begins.
    pub wallclock: Instant,
    /// Whether sound begins again with it after silence.
    pub start_of_talk_spurt: bool,
    /// The values of its header extension.
    pub ext_vals: ExtensionValues,
    /// The payload.
    pub payload: Bytes,
}

/// What takes packets of media, in order.
pub trait PacketSink {
    /// How a packet that is taken changes the sink.
    ghost takes: { Self → MediaPacket → Self → Type 0 };

    /// Takes a packet. Without memory nothing changes.
    fn write_packet(&mut self, packet: MediaPacket) -> Result<(), AllocError>
        ensures ok { OnOk result (takes self.old packet self.new) }
        ensures err { OnErr result (self.new ≡ self.old) };
}

/// Puts the frames of a format into packets.
#[derive(Clone, Copy, Debug, PartialEq, Eq)]
pub struct Payloader {
    /// The format.
    pub codec: Codec,
}

impl Payloader {
    ghost use Rattle.payload_core.specs.Packets.{refusal};

    /// Packets of this format.
    pub fn new(spec: CodecSpec) -> Self
        ensures { result.codec ≡ spec.codec }
    {
        Payloader { codec: spec.codec }
    }

    // Why a frame of so many bytes is refused.
    fn refusal(&self, len: usize, limit: usize) -> Option<PacketError>
        ensures { result ≡ refusal self.now.codec len limit }
    {
        if self.codec.is_video() {
            return Some(PacketError::Unsupported);
        }
        if len > limit {
            return Some(PacketError::TooBig);
        }
        if self.codec.is_tele() && len < TELE_EVENT_LEN {
            return Some(PacketError::ShortTelephone);
        }
        None
    }

    /// Puts a frame into one packet of at most so many bytes of payload, and hands it to the sink
    /// as it is. In this order Unsupported comes exactly for a format of video, TooBig exactly for
    /// a frame above the limit, and ShortTelephone exactly for a telephone event under 4 bytes. A
    /// frame that is refused changes nothing.
    pub fn push_sample<S: PacketSink>(
        &mut self,
        frame: MediaPacket,
        limit: usize,
        sink: &mut S,
    ) -> Result<(), PacketError>
        ensures refused { IfSome (refusal self.old.codec (length frame.payload) limit) (λ e. result ≡ Err e) }
        ensures memory { IfNone (refusal self.old.codec (length frame.payload) limit) (IfErr result (λ e. e ≡ Memory)) }
        ensures ok { OnOk result (S.takes sink.old frame sink.new) }
        ensures err { OnErr result (sink.new ≡ sink.old) }
        ensures same { self.new ≡ self.old }
    {
        if let Some(error) = self.refusal(frame.payload.len(), limit) {
            return Err(error);
        }
        match sink.write_packet(frame) {
            Ok(()) => Ok(()),
            Err(_) => Err(PacketError::Memory),
        }
    }
}

/// What a frame of video tells beside its bytes.
#[derive(Clone, Copy, Debug, PartialEq, Eq)]
pub struct VideoExtra {
    /// Whether it is a whole picture.
    pub is_keyframe: bool,
}

/// What a frame tells beside its bytes, by its format.
#[derive(Clone, Copy, Debug, PartialEq, Eq)]
pub enum CodecExtra {
    /// Nothing.
    None,
    /// A telephone event.
    Tele(TelephoneEvent),
    /// A frame of VP8.
    Vp8(VideoExtra),
    /// A frame of VP9.
    Vp9(VideoExtra),
    /// A frame of H.264.
    H264(VideoExtra),
    /// A frame of H.265.
    H265(VideoExtra),
    /// A frame of H.266.
    H266(VideoExtra),
    /// A frame of AV1.
    Av1(VideoExtra),
}

impl CodecExtra {
    ghost use Rattle.payload_core.specs.Packets.{is_keyframe};

    /// Whether the frame is a whole picture.
    pub fn is_keyframe(&self) -> bool
        ensures { result ≡ is_keyframe self.now }
    {
        match self {
            CodecExtra::None | CodecExtra::Tele(_) => false,
            CodecExtra::Vp8(extra)
            | CodecExtra::Vp9(extra)
            | CodecExtra::H264(extra)
            | CodecExtra::H265(extra)
            | CodecExtra::H266(extra)
            | CodecExtra::Av1(extra) => extra.is_keyframe,
        }
    }
}

/// Takes the frames of a format out of packets, of which each has one.
#[derive(Clone, Copy, Debug, PartialEq, Eq)]
pub struct CodecDepacketizer {
    /// The format.
    pub codec: Codec,
    /// The ticks in a second of the RTP time.
    pub clock_rate: Frequency,
}

impl CodecDepacketizer {
    ghost use Rattle.payload_core.specs.Packets.{extra_of};

    /// Packets of this format.
    pub fn new(spec: CodecSpec) -> Self
        ensures codec { result.codec ≡ spec.codec }
        ensures clock { result.clock_rate ≡ spec.clock_rate }
    {
        CodecDepacketizer {
            codec: spec.codec,
            clock_rate: spec.rtp_clock_rate(),
        }
    }

    /// What the frame in a packet tells beside its bytes, which are the payload. Unsupported comes
    /// exactly for a format of video, and ShortTelephone exactly for a telephone event under 4
    /// bytes.
    pub fn depacketize(&self, payload: &[u8]) -> Result<CodecExtra, PacketError>
        ensures { result ≡ extra_of self.now.codec self.now.clock_rate payload.now }
    {
        if self.codec.is_video() {
            return Err(PacketError::Unsupported);
        }
        if !self.codec.is_tele() {
            return Ok(CodecExtra::None);
        }
        match TelephoneEvent::parse(payload, self.clock_rate) {
            Some(event) => Ok(CodecExtra::Tele(event)),
            None => Err(PacketError::ShortTelephone),
        }
    }
}
