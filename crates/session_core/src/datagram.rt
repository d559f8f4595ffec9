use crate::error::RtcError;
use crate::news::{KeyframeRequest, RembRequest, SenderFeedback};
use media_base::Bytes;
use media_units::Instant;
use rtcp_wire::AppSpecificFeedback;
use rtp_base::{Kind, SeqNo, Ssrc};
use stream_core::{Payload, RtpPacket, StreamPaused};
use thiserror::Error;

/// What a datagram opened to.
#[derive(Debug, PartialEq, Eq, Drop)]
pub struct Opened {
    /// Whether it is RTP or RTCP.
    pub kind: Kind,
    /// The SSRC of its header; for RTCP that of the first item's sender.
    pub ssrc: Ssrc,
    /// For RTP the extended sequence number, for RTCP the index that it states.
    pub index: SeqNo,
    /// The datagram as it was before it was sealed. The packet that is told of it shares its bytes.
    pub plain: Payload,
}

/// A datagram that leaves.
#[derive(Debug, PartialEq, Eq, Drop)]
pub struct Datagram {
    /// Whether it is RTP or RTCP.
    pub kind: Kind,
    /// The SSRC of its header; for RTCP that of the first item's sender.
    pub ssrc: Ssrc,
    /// For RTP the extended sequence number, for RTCP its index.
    pub index: SeqNo,
    /// The datagram before it was sealed.
    pub plain: Bytes,
    /// The sealed bytes.
    pub bytes: Bytes,
}

/// What a session tells.
#[derive(Debug, PartialEq, Eq, Drop)]
pub enum Event {
    /// Feedback of the peer's application came (RFC 4585 section 6.4).
    AppSpecificFeedback(AppSpecificFeedback),
    /// An incoming stream was paused, since nothing came on it for its threshold, or unpaused.
    StreamPaused(StreamPaused),
    /// A packet came on a stream.
    RtpPacket(RtpPacket),
    /// The peer asks for a key frame of an outgoing stream.
    KeyframeRequest(KeyframeRequest),
    /// The sender of an incoming stream reported.
    SenderFeedback(SenderFeedback),
    /// The peer tells the greatest rate of an outgoing stream.
    Remb(RembRequest),
}

/// All that a session had to give.
#[derive(Debug, Drop)]
pub struct Drained {
    /// What it tells, in order.
    pub events: Vec<Event>,
    /// What leaves, in order.
    pub datagrams: Vec<Datagram>,
    /// When it wants a tick next, None where it waits for nothing.
    pub wake: Option<Instant>,
}

/// A drain that did not come to its end.
#[derive(Debug, Drop, Error)]
#[error("{error}")]
pub struct DrainFault {
    /// Why it did not.
    pub error: RtcError,
    /// What the session gave before, with no wake.
    pub sofar: Drained,
}
