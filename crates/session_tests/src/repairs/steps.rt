//! What is done with an end that sends with repairs (RFC 4588).
use crate::calls::{drain, poll, receive_rtcp, tick};
use crate::ends::{
    End, add_section, at, declare, ended_with, give_keys, keeps, mid, put, reset, rid, ssrc,
};
use crate::packets::{head, hears, joined};
use media_units::Instant;
use rtp_base::{Kind, MidRid, Pt, Rid, SeqNo, Ssrc};
use rtp_wire::ExtensionValues;
use session_core::{Datagram, MediaKind, RtcError};
use std::alloc::Global;
use stream_core::{Payload, RtpWrite};

/// A datagram that leaves.
#[derive(Clone, Copy)]
pub enum Out {
    /// A packet of type 96 at RTP time 0 on this SSRC, of this number, with this payload.
    First(u8, u64, &'static [u8]),
    /// A repair of type 97 at RTP time 0 on this SSRC, of this number, of the packet of the other
    /// number, with that packet's payload.
    Again(u8, u64, u64, &'static [u8]),
    /// On this SSRC, of this number, with these plain bytes.
    Plain(u8, u64, &'static [u8]),
}

/// What is done with an end, or asked of it. Moments are in nanoseconds.
#[derive(Clone, Copy)]
pub enum Step {
    /// What is sent on SSRC 42 is sent under another one, with repairs on the next one from this
    /// number on.
    Resets(u8, u64),
    /// It keeps so many packets of SSRC 42, for so long, with so many hundredths of repairs.
    Keeps(usize, u64, Option<u32>),
    /// It writes a packet of type 96 at RTP time 0 that may be sent again: its SSRC, its number and
    /// its payload.
    Writes(u8, u64, &'static [u8]),
    /// The numbers 1, 2 and 3 leave on SSRC 42 at 10 ms, with the payloads 01, 02 and 03.
    SendsThree,
    /// The peer asks for packets at a moment: on this SSRC, with this PID and this BLP.
    Asks(u64, u8, u16, u16),
    /// These plain bytes of RTCP come from the peer at a moment.
    Hears(u64, &'static [u8]),
    /// A drain at a moment gives exactly this.
    Drains(u64, &'static [Out]),
    /// A tick at a moment, and a drain then gives exactly this.
    Ticks(u64, &'static [Out]),
    /// A tick at a moment, and a drain then ends for want of a number of repairs, behind exactly
    /// this.
    Ends(u64, &'static [Out]),
    /// A tick at a moment, and the first poll then ends for want of a number of repairs.
    EndsAtOnce(u64),
}

/// A name, the number of the first repair on SSRC 43 of what is sent on SSRC 42, and what is done
/// one after the other.
pub type Row = (&'static str, u64, &'static [Step]);

/// SSRC 2 asks on SSRC 42 for the number 2 (RFC 4585 section 6.2.1).
pub const ASKS_2: &[u8] = &[0x81, 0xcd, 0, 3, 0, 0, 0, 2, 0, 0, 0, 0x2a, 0, 2, 0, 0];

/// The number 2, with the payload 02, as the first repair (RFC 4588 section 4): its own header with
/// the payload type 97, the number 5 and SSRC 43, the number 2 in two bytes, and the payload.
pub const REPAIR_OF_2: &[u8] = &[0x80, 0x61, 0, 5, 0, 0, 0, 0, 0, 0, 0, 0x2b, 0, 2, 2];

// What leaves where the numbers 1, 2 and 3 were written.
static THREE: [Out; 3] = [
    Out::First(42, 1, &[1]),
    Out::First(42, 2, &[2]),
    Out::First(42, 3, &[3]),
];

// Whether a datagram is RTP on this SSRC, of this number, with these plain bytes.
fn is_rtp(datagram: &Datagram, low: u8, number: u64, plain: &[u8]) -> bool {
    datagram.kind == Kind::Rtp
        && datagram.ssrc == ssrc(low)
        && datagram.index == SeqNo::from(number)
        && datagram.plain.as_slice() == plain
}

// Whether a datagram is of a type at RTP time 0 on this SSRC, of this number, with bytes between
// its header and a payload (RFC 3550 section 5.1).
fn is_packet(
    alloc: Global,
    datagram: &Datagram,
    pt: u8,
    low: u8,
    number: u64,
    between: &[u8],
    payload: &[u8],
) -> bool {
    let head = head(0x80, pt, number, 0, low);
    let Some(plain) = joined(alloc, &[&head, between, payload]) else {
        return false;
    };
    is_rtp(datagram, low, number, plain.as_slice())
}

fn is_sent(alloc: Global, out: Out, datagram: &Datagram) -> bool {
    match out {
        Out::First(low, number, payload) => {
            is_packet(alloc, datagram, 96, low, number, &[], payload)
        }
        Out::Again(low, number, first, payload) => {
            let first = ((first % 65_536) as u16).to_be_bytes();
            is_packet(alloc, datagram, 97, low, number, &first, payload)
        }
        Out::Plain(low, number, plain) => is_rtp(datagram, low, number, plain),
    }
}

// Whether the datagrams are exactly these, in order.
fn are_sent(alloc: Global, outs: &[Out], datagrams: &[Datagram]) -> bool {
    let mut held = outs.len() == datagrams.len();
    for (out, datagram) in outs.iter().zip(datagrams.iter()) {
        held &= is_sent(alloc, *out, datagram);
    }
    held
}

// What a packet is written with: values that are the sender's to give, and that do not leave.
fn written() -> ExtensionValues {
    ExtensionValues {
        transport_cc: Some(7),
        rid: Rid::from_slice(b"lo"),
        rid_repair: Rid::from_slice(b"lo"),
        ..ExtensionValues::none()
    }
}

// A packet of type 96 at RTP time 0 that may be sent again.
fn writes(alloc: Global, end: &mut End, low: u8, number: u64, bytes: &[u8]) -> bool {
    let Ok(payload) = Payload::from_slice(alloc, bytes) else {
        return false;
    };
    let write = RtpWrite::new(Pt::from(96), SeqNo::from(number), 0, at(1), payload);
    put(end, low, write.ext_vals(written()).nackable(true))
}

// Whether a drain gives exactly this.
fn drains(alloc: Global, end: &mut End, now: Instant, outs: &[Out]) -> bool {
    let Ok(drained) = drain(end, now) else {
        return false;
    };
    are_sent(alloc, outs, drained.datagrams.as_slice())
}

fn ticks(alloc: Global, end: &mut End, now: Instant, outs: &[Out]) -> bool {
    let ticked = tick(end, now).is_ok();
    ticked & drains(alloc, end, now, outs)
}

fn sends_three(alloc: Global, end: &mut End) -> bool {
    let first = writes(alloc, end, 42, 1, &[1]);
    let second = writes(alloc, end, 42, 2, &[2]);
    let third = writes(alloc, end, 42, 3, &[3]);
    first & second & third & ticks(alloc, end, at(10_000_000), &THREE)
}

// SSRC 2 asks on this SSRC (RFC 4585 section 6.2.1): the PID and the BLP.
fn is_asked(alloc: Global, end: &mut End, now: Instant, low: u8, pid: u16, blp: u16) -> bool {
    let [a, b] = pid.to_be_bytes();
    let [c, d] = blp.to_be_bytes();
    let plain = [0x81, 0xcd, 0, 3, 0, 0, 0, 2, 0, 0, 0, low, a, b, c, d];
    hears(alloc, end, now, &plain)
}

// Whether a drain ends with this error, behind exactly this.
fn drain_ends(alloc: Global, end: &mut End, now: Instant, error: RtcError, outs: &[Out]) -> bool {
    match drain(end, now) {
        Err(fault) => {
            let sent = are_sent(alloc, outs, fault.sofar.datagrams.as_slice());
            sent & (fault.error == error)
        }
        Ok(_) => false,
    }
}

// Whether each call answers that the session is stopped.
fn is_stopped(alloc: Global, end: &mut End, now: Instant) -> bool {
    let drain = drain_ends(alloc, end, now, RtcError::Stopped, &[]);
    let poll = ended_with(&poll(end, now), &RtcError::Stopped);
    let tick = ended_with(&tick(end, now), &RtcError::Stopped);
    let rtcp = ended_with(&receive_rtcp(end, now, &[]), &RtcError::Stopped);
    drain & poll & tick & rtcp
}

// That there is no number of repairs on SSRC 43 left.
fn used_up() -> RtcError {
    RtcError::RepairsExhausted(Ssrc::from(43))
}

fn ends(alloc: Global, end: &mut End, now: Instant, outs: &[Out]) -> bool {
    let ticked = tick(end, now).is_ok();
    let ended = drain_ends(alloc, end, now, used_up(), outs);
    ticked & ended & is_stopped(alloc, end, now)
}

fn ends_at_once(alloc: Global, end: &mut End, now: Instant) -> bool {
    let ticked = tick(end, now).is_ok();
    let ended = ended_with(&poll(end, now), &used_up());
    ticked & ended & is_stopped(alloc, end, now)
}

// Does a step, and tells whether it went so.
fn goes(alloc: Global, end: &mut End, step: Step) -> bool {
    match step {
        Step::Resets(other, first) => reset(end, 42, other, Some((other.saturating_add(1), first))),
        Step::Keeps(packets, age, cap) => keeps(end, packets, age, cap),
        Step::Writes(low, number, bytes) => writes(alloc, end, low, number, bytes),
        Step::SendsThree => sends_three(alloc, end),
        Step::Asks(now, low, pid, blp) => is_asked(alloc, end, at(now), low, pid, blp),
        Step::Hears(now, plain) => hears(alloc, end, at(now), plain),
        Step::Drains(now, outs) => drains(alloc, end, at(now), outs),
        Step::Ticks(now, outs) => ticks(alloc, end, at(now), outs),
        Step::Ends(now, outs) => ends(alloc, end, at(now), outs),
        Step::EndsAtOnce(now) => ends_at_once(alloc, end, at(now)),
    }
}

// Has an end send on SSRC 42, with repairs on SSRC 43 from a number on.
fn prepare(alloc: Global, end: &mut End, first: u64) -> bool {
    let added = add_section(alloc, end, mid(), MediaKind::Video, b"cam");
    let declared = declare(end, 42, Some((43, first)), MidRid(mid(), Some(rid())));
    added & declared & give_keys(alloc, end, false)
}

/// Whether an end that sends on SSRC 42, with repairs on SSRC 43 from a number on, goes through all
/// steps.
pub fn go_through(alloc: Global, end: &mut End, first: u64, steps: &[Step]) -> bool {
    let mut held = prepare(alloc, end, first);
    for step in steps {
        held = held && goes(alloc, end, *step);
    }
    held
}
