use rtp_base::{Mid, Rid, Ssrc};

/// An incoming stream was paused or unpaused.
#[derive(Clone, Copy, Debug, PartialEq, Eq)]
pub struct StreamPaused {
    /// The SSRC of its packets.
    pub ssrc: Ssrc,
    /// Its media section.
    pub mid: Mid,
    /// Which stream of its media section it is, if that has several.
    pub rid: Option<Rid>,
    /// Whether it is paused.
    pub paused: bool,
}
