//! What is done with an end that reports.
use crate::calls::{streams, tick};
use crate::ends::{End, add_section, ask_frame, at, declare, expect, put, rid, ssrc};
use crate::leaving::{is_next, is_silent, next};
use crate::packets::{head, hears, joined, opens, seal_numbered};
use crate::telling::{Told, drains, mid_of, tells};
use media_units::{Bitrate, Instant};
use rtp_base::{KeyframeRequestKind, Kind, MidRid, Pt, SeqNo, Ssrc};
use session_core::MediaKind;
use std::alloc::Global;
use stream_core::{Payload, RtpWrite};

/// What is done with an end, or asked of it. Moments are in nanoseconds; a mid is one letter; an
/// SSRC of repairs is 0 where there are none.
#[derive(Clone, Copy)]
pub enum Step {
    /// It has one more media section: its mid, its kind, and the name of its sources.
    Adds(u8, MediaKind, &'static [u8]),
    /// It receives on one more SSRC, with repairs on another, of a mid. It asks for nothing.
    Expects(u8, u8, u8),
    /// The same, and it asks for what is missing.
    Asks(u8, u8, u8),
    /// It sends on one more SSRC, with repairs on another, of a mid.
    Sends(u8, u8, u8),
    /// It writes the packet numbered 1 with the payload 0102 on an SSRC: its RTP time, which its
    /// media had at a moment.
    Writes(u8, u32, u64),
    /// A packet with the payload 0102 comes at a moment: its SSRC, its number and its RTP time. It
    /// opens.
    Comes(u64, u8, u64, u32),
    /// Its stream of an SSRC asks for a key frame.
    Frames(u8, KeyframeRequestKind),
    /// Its stream of an SSRC tells the greatest rate, in bits a second.
    Rates(u8, u64),
    /// Reports come at a moment, and open.
    Hears(u64, &'static [u8]),
    /// A tick at a moment. One compound leaves, none where there are no bytes; a packet may leave
    /// behind it.
    Tick(u64, &'static [u8]),
    /// It tells these events, and no more.
    Tells(&'static [Told]),
    /// A drain at a moment tells these events, and the next one none.
    Drains(u64, &'static [Told]),
}

/// A name, and what is done one after the other.
pub type Row = (&'static str, &'static [Step]);

// The stream of the rid hi of the media section of a letter.
fn way(letter: u8) -> MidRid {
    MidRid(mid_of(letter), Some(rid()))
}

fn rtx_of(low: u8) -> Option<Ssrc> {
    if low == 0 { None } else { Some(ssrc(low)) }
}

fn sends(end: &mut End, low: u8, rtx: u8, letter: u8) -> bool {
    let repairs = if rtx == 0 { None } else { Some((rtx, 1)) };
    declare(end, low, repairs, way(letter))
}

fn writes(alloc: Global, end: &mut End, low: u8, time: u32, moment: u64) -> bool {
    let Ok(payload) = Payload::from_slice(alloc, &[1, 2]) else {
        return false;
    };
    let write = RtpWrite::new(Pt::from(96), SeqNo::from(1), time, at(moment), payload);
    put(end, low, write)
}

fn tell_rate(end: &mut End, low: u8, rate: u64) -> bool {
    let streams = streams(end);
    let Some(place) = streams.rx_place(ssrc(low)) else {
        return false;
    };
    streams.rx_at(place).request_remb(Bitrate::bps(rate));
    true
}

// Whether a packet with the payload 0102 opens.
fn comes(alloc: Global, end: &mut End, now: u64, low: u8, number: u64, time: u32) -> bool {
    let head = head(0x80, 96, number, time, low);
    let Some(plain) = joined(alloc, &[&head, &[1, 2]]) else {
        return false;
    };
    let Some(bytes) = seal_numbered(alloc, plain.as_slice(), number) else {
        return false;
    };
    opens(end, at(now), bytes.as_slice())
}

// Whether a packet leaves next, or nothing.
fn is_packet(end: &mut End, now: Instant) -> bool {
    match next(end, now) {
        Some(sent) => sent.kind == Kind::Rtp,
        None => true,
    }
}

// Whether this compound leaves at a tick, or no feedback where there are no bytes, and behind it at
// most one packet.
fn ticks(end: &mut End, now: Instant, plain: &[u8]) -> bool {
    let ticked = tick(end, now).is_ok();
    let first = plain.is_empty() || is_next(end, now, plain);
    let then = is_packet(end, now);
    ticked & first & then & is_silent(end, now)
}

/// Does a step with an end, and tells whether it went so.
pub fn goes(alloc: Global, end: &mut End, step: Step) -> bool {
    match step {
        Step::Adds(letter, kind, cname) => add_section(alloc, end, mid_of(letter), kind, cname),
        Step::Expects(low, rtx, letter) => expect(end, low, rtx_of(rtx), way(letter), true),
        Step::Asks(low, rtx, letter) => expect(end, low, rtx_of(rtx), way(letter), false),
        Step::Sends(low, rtx, letter) => sends(end, low, rtx, letter),
        Step::Writes(low, time, moment) => writes(alloc, end, low, time, moment),
        Step::Comes(now, low, number, time) => comes(alloc, end, now, low, number, time),
        Step::Frames(low, kind) => ask_frame(end, low, kind),
        Step::Rates(low, rate) => tell_rate(end, low, rate),
        Step::Hears(now, plain) => hears(alloc, end, at(now), plain),
        Step::Tick(now, plain) => ticks(end, at(now), plain),
        Step::Tells(all) => tells(end, all),
        Step::Drains(now, all) => drains(end, now, all),
    }
}
