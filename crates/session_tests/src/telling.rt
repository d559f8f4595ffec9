//! What an end tells.
use crate::calls::{drain, event};
use crate::ends::{End, at, mid, rid, ssrc};
use crate::feedback::is_words;
use rtp_base::{KeyframeRequestKind, Mid, SeqNo};
use session_core::Event;
use stream_core::StreamPaused;

/// An event. A media section is named by the letter of its mid; its streams are those of the rid
/// hi.
#[derive(Clone, Copy)]
pub enum Told {
    /// Feedback of an application with the words 01020304.
    Words,
    /// A key frame is asked for.
    Frame(u8, KeyframeRequestKind),
    /// The sender of an SSRC reported, at a moment, with so many packets.
    Sender(u8, u8, u64, u32),
    /// The greatest rate, in bits a second.
    Rate(u8, u64),
    /// The stream of this SSRC, of the media section v, was unpaused.
    Unpaused(u8),
    /// A packet on this SSRC, of this number.
    Packet(u8, u64),
}

/// The mid of a letter.
pub fn mid_of(letter: u8) -> Mid {
    match Mid::from_slice(&[letter]) {
        Some(mid) => mid,
        None => mid(),
    }
}

fn is_frame(event: &Event, letter: u8, kind: KeyframeRequestKind) -> bool {
    match event {
        Event::KeyframeRequest(request) => {
            let section = request.mid == mid_of(letter) && request.rid == Some(rid());
            section && request.kind == kind
        }
        _ => false,
    }
}

fn is_sender(event: &Event, letter: u8, low: u8, moment: u64, packets: u32) -> bool {
    match event {
        Event::SenderFeedback(report) => {
            let section = report.mid == mid_of(letter) && report.rid == Some(rid());
            section
                && report.received_at == at(moment)
                && report.sender_info.ssrc == ssrc(low)
                && report.sender_info.sender_packet_count == packets
        }
        _ => false,
    }
}

fn is_rate(event: &Event, letter: u8, rate: u64) -> bool {
    match event {
        Event::Remb(request) => {
            request.mid == mid_of(letter) && request.bitrate.as_u64() == rate
        }
        _ => false,
    }
}

/// Whether an event tells that the stream of this SSRC, of the media section v, was unpaused.
pub fn is_unpaused(event: &Event, low: u8) -> bool {
    let wanted = StreamPaused {
        ssrc: ssrc(low),
        mid: mid(),
        rid: Some(rid()),
        paused: false,
    };
    match event {
        Event::StreamPaused(told) => *told == wanted,
        _ => false,
    }
}

fn is_packet(event: &Event, low: u8, number: u64) -> bool {
    match event {
        Event::RtpPacket(packet) => {
            packet.header.ssrc == ssrc(low) && packet.seq_no == SeqNo::from(number)
        }
        _ => false,
    }
}

fn is_told(wanted: Told, event: &Event) -> bool {
    match wanted {
        Told::Words => is_words(event),
        Told::Frame(letter, kind) => is_frame(event, letter, kind),
        Told::Sender(letter, low, moment, packets) => {
            is_sender(event, letter, low, moment, packets)
        }
        Told::Rate(letter, rate) => is_rate(event, letter, rate),
        Told::Unpaused(low) => is_unpaused(event, low),
        Told::Packet(low, number) => is_packet(event, low, number),
    }
}

fn tells_next(end: &mut End, wanted: Told) -> bool {
    match event(end) {
        Some(event) => is_told(wanted, &event),
        None => false,
    }
}

/// Whether an end tells this in order, and nothing more.
pub fn tells(end: &mut End, all: &[Told]) -> bool {
    let mut held = true;
    for wanted in all {
        held &= tells_next(end, *wanted);
    }
    held & event(end).is_none()
}

fn are_told(all: &[Told], events: &[Event]) -> bool {
    let mut held = all.len() == events.len();
    for (wanted, event) in all.iter().zip(events.iter()) {
        held &= is_told(*wanted, event);
    }
    held
}

/// Whether a drain at a moment tells this in order, and the next drain nothing.
pub fn drains(end: &mut End, now: u64, all: &[Told]) -> bool {
    let Ok(first) = drain(end, at(now)) else {
        return false;
    };
    let told = are_told(all, first.events.as_slice());
    match drain(end, at(now)) {
        Ok(next) => told & next.events.is_empty(),
        Err(_) => false,
    }
}
