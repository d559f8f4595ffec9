use crate::Ssrc;

/// A reception block (RFC 3550 section 6.4.1): how a source is received.
#[derive(Clone, Copy, Debug, Default, PartialEq, Eq)]
pub struct ReceptionReport {
    /// The source that it speaks of.
    pub ssrc: Ssrc,
    /// The share lost since the report before, in 256ths.
    pub fraction_lost: u8,
    /// The packets lost since the beginning, 24 bits signed on the wire.
    pub packets_lost: i32,
    /// The greatest extended sequence number received.
    pub max_seq: u32,
    /// The jitter, in units of the RTP time.
    pub jitter: u32,
    /// The middle 32 bits of the NTP time of the last sender report, or 0.
    pub last_sr_time: u32,
    /// The time since that report, in 65,536ths of a second, or 0.
    pub last_sr_delay: u32,
}
