//! The calls of a session, each once: what its contract says is no part of the proofs of tests
//! then.
use crate::ends::End;
use mask_register::MaskRegister;
use media_units::Instant;
use queue_store::QueueStore;
use session_core::{Datagram, DrainFault, Drained, Event, Opened, RtcError};
use stream_core::{Sent, Streams};

/// Takes in RTP.
pub fn receive(end: &mut End, now: Instant, bytes: &[u8]) -> Result<Option<Opened>, RtcError> {
    end.handle_rtp_receive(now, bytes)
}

/// Takes in RTCP.
pub fn receive_rtcp(end: &mut End, now: Instant, bytes: &[u8]) -> Result<Option<Opened>, RtcError> {
    end.handle_rtcp_receive(now, bytes)
}

/// A tick.
pub fn tick(end: &mut End, now: Instant) -> Result<(), RtcError> {
    end.handle_timeout(now)
}

/// The datagram that leaves next.
pub fn poll(end: &mut End, now: Instant) -> Result<Option<Datagram>, RtcError> {
    end.poll_datagram(now)
}

/// The event that is told next.
pub fn event(end: &mut End) -> Option<Event> {
    end.poll_event()
}

/// All that waits.
pub fn drain(end: &mut End, now: Instant) -> Result<Drained, DrainFault> {
    end.drain(now)
}

/// The streams.
pub fn streams(end: &mut End) -> &mut Streams<MaskRegister, QueueStore<Sent>> {
    end.streams()
}
