use crate::calls::{drain, poll, tick};
use crate::ends::{End, at, moment, put};
use media_units::Instant;
use rtp_base::{Kind, Pt, SeqNo};
use rtp_wire::ExtensionValues;
use session_core::Datagram;
use std::alloc::Global;
use stream_core::{Payload, RtpWrite};

/// Writes a packet with the payload 0102 on SSRC 42, if there is such a stream; it leaves at the
/// next poll.
pub fn write(alloc: Global, end: &mut End, number: u64, values: ExtensionValues) -> bool {
    let Ok(payload) = Payload::from_slice(alloc, &[1, 2]) else {
        return false;
    };
    let write = RtpWrite::new(Pt::from(96), SeqNo::from(number), 0, moment(), payload);
    let written = put(end, 42, write.ext_vals(values));
    written & tick(end, moment()).is_ok()
}

/// The datagram that leaves next at a moment.
pub fn next(end: &mut End, now: Instant) -> Option<Datagram> {
    match poll(end, now) {
        Ok(sent) => sent,
        Err(_) => None,
    }
}

/// Whether the next datagram that leaves has these bytes, and no other leaves.
pub fn sends(end: &mut End, bytes: &[u8]) -> bool {
    let sent = match next(end, moment()) {
        Some(sent) => sent.bytes.as_slice() == bytes,
        None => false,
    };
    sent & is_silent(end, moment())
}

/// Whether this compound leaves next.
pub fn is_next(end: &mut End, now: Instant, plain: &[u8]) -> bool {
    let Some(sent) = next(end, now) else {
        return false;
    };
    sent.kind == Kind::Rtcp && sent.plain.as_slice() == plain
}

/// Whether this compound leaves at this moment, none where there are no bytes, and nothing else.
pub fn leaves(end: &mut End, now: Instant, plain: &[u8]) -> bool {
    let first = plain.is_empty() || is_next(end, now, plain);
    first & is_silent(end, now)
}

/// Whether nothing leaves at this moment.
pub fn is_silent(end: &mut End, now: Instant) -> bool {
    match poll(end, now) {
        Ok(sent) => sent.is_none(),
        Err(_) => false,
    }
}

/// Whether a drain gives the datagram with these bytes alone, and this wake in nanoseconds.
pub fn drains(end: &mut End, bytes: &[u8], wake: u64) -> bool {
    let Ok(drained) = drain(end, moment()) else {
        return false;
    };
    let sent = match drained.datagrams.as_slice() {
        [sent] => sent.bytes.as_slice() == bytes,
        _ => false,
    };
    let alone = drained.events.is_empty();
    sent & alone & (drained.wake == Some(at(wake)))
}
