use media_units::{Beginning, Duration};
use payload_core::CodecConfig;
use report_core::ReportIntervals;
use rtp_base::Ssrc;
use rtp_wire::ExtensionMap;

/// The usual target for the length of datagrams, in bytes: a choice.
pub const DATAGRAM_MTU: usize = 1150;
/// The usual length above which a datagram may not reach its peer, in bytes: a choice.
pub const DATAGRAM_MTU_WARN: usize = 1280;

/// The least target for the length of datagrams, in bytes: a choice.
pub const LEAST_TARGET: usize = 900;

/// The greatest length of a datagram to warn of, in bytes: a choice.
pub const GREATEST_WARN: usize = 1500;

/// The most bytes of feedback of an application (RFC 4585 section 6.4): a choice.
pub const MAX_APPLICATION_LEN: usize = 800;

/// Lengths of datagrams, in bytes: 900 <= target <= warn <= 1,500.
#[derive(Clone, Copy, Debug, PartialEq, Eq)]
pub struct Mtu {
    /// The most that a datagram of feedback has once it is sealed.
    pub target: usize,
    /// The most that an application should write; nothing is refused for it.
    pub warn: usize,
}

/// What a session is made with.
#[derive(Drop)]
pub struct SessionConfig {
    /// The identification of the session, halved while above 2^62 - 1.
    pub id: u64,
    /// When its moment 0 was.
    pub beginning: Beginning,
    /// The lengths of its datagrams.
    pub mtu: Mtu,
    /// The SSRC that its feedback has while it sends on no stream.
    pub local_ssrc: Ssrc,
    /// For how long nothing comes on an incoming stream until it is paused; 1.5 s are usual.
    pub pause_threshold: Duration,
    /// How long after a report of a stream the next one is due: 5 s for sound and 1 s for pictures
    /// are usual.
    pub intervals: ReportIntervals,
    /// The index of its first SRTCP datagram, at most 2^31; at 2^31 there is none.
    pub srtcp_index: u64,
    /// The ids of the header extensions (RFC 8285).
    pub exts: ExtensionMap,
    /// The payload types that both ends know, what they carry, and the types of their repairs and
    /// of their redundant data. Of two under one number the later one counts.
    pub codecs: CodecConfig,
}
