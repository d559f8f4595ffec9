//! Reports on what was sent and received (RFC 3550 section 6.4).
use media_base::Listed;
use media_units::SystemTime;
use rtp_base::{ReceptionReport, Ssrc};

/// How the sender receives others, where it sends nothing itself (RFC 3550 section 6.4.2).
#[derive(Debug, PartialEq, Eq, Drop)]
pub struct ReceiverReport {
    /// Who sends the report.
    pub sender_ssrc: Ssrc,
    /// How each other source is received; at most 31 have room.
    pub reports: Listed<ReceptionReport>,
}

/// What a sender says of itself (RFC 3550 section 6.4.1).
#[derive(Clone, Copy, Debug, PartialEq, Eq)]
pub struct SenderInfo {
    /// The sender.
    pub ssrc: Ssrc,
    /// When the report was sent, held in nanoseconds; on the wire 64 bits of NTP.
    pub ntp_time: SystemTime,
    /// The same moment in the units of the media.
    pub rtp_time: u32,
    /// The packets sent so far, modulo 2^32.
    pub sender_packet_count: u32,
    /// The bytes of payload sent so far, modulo 2^32.
    pub sender_octet_count: u32,
}

/// What a sender sent, and how it receives others (RFC 3550 section 6.4.1).
#[derive(Debug, PartialEq, Eq, Drop)]
pub struct SenderReport {
    /// What it sent.
    pub sender_info: SenderInfo,
    /// How each other source is received; at most 31 have room.
    pub reports: Listed<ReceptionReport>,
}
