//! Datagrams that come to an end which receives: what opens, what is told, and which streams stand
//! then.
use crate::calls::{event, receive, streams, tick};
use crate::carrying::{Ids, map_of};
use crate::ends::{End, at, config, expect, give_keys, mid, moment, new_end, rid, section, ssrc};
use crate::leaving::leaves;
use crate::mapped::CAME;
use crate::packets::{head, is_opened, joined, seal_numbered};
use mapping_core::Rids;
use media_base::Listed;
use media_units::Instant;
use rtp_base::{Kind, MidRid, Pt, Rid, SeqNo};
use session_core::{Event, Media, MediaKind, Opened};
use std::alloc::Global;

/// The elements of a header extension, in whole words: the mid has the id 4, the rid 5, and the rid
/// of what is repaired 6 (RFC 8285 section 4.2).
pub type Names = &'static [u8];

/// A datagram that comes: its SSRC, type and number, the names that it carries, and its payload.
#[derive(Clone, Copy)]
pub struct Came(pub u8, pub u8, pub u64, pub Names, pub &'static [u8]);

/// What a datagram brings.
#[derive(Clone, Copy)]
pub enum Brings {
    /// It does not open.
    Nothing,
    /// It opens, and no packet is told.
    Opens,
    /// It opens, and the packet on this SSRC, of this type and number, with this payload is told.
    Tells(u8, u8, u64, &'static [u8]),
}

/// What comes to an end, or is done with it, and how it stands.
#[derive(Clone, Copy)]
pub enum Step {
    /// The datagram comes, and brings this.
    Comes(Came, Brings),
    /// A stream stands on this SSRC at this place, with repairs on that one, 0 where on none.
    Has(u8, usize, u8),
    /// No stream stands on this SSRC, for its packets or its repairs.
    Lacks(u8),
    /// It receives on this SSRC, with repairs on that one.
    Receives(u8, u8),
    /// A tick at a moment in nanoseconds; then this compound leaves alone, none where there are no
    /// bytes.
    Ticks(u64, &'static [u8]),
}

/// Which streams the media section v expects, by their rids.
#[derive(Clone, Copy)]
pub enum Expects {
    Any,
    Only(&'static [&'static str]),
}

/// What comes, one after the other, to an end whose media section v expects these streams.
pub type Row = (&'static str, Expects, &'static [Step]);

// The bytes that come: the header and the payload (RFC 3550 section 5.1), sealed.
fn bytes_of(alloc: Global, came: &Came) -> Option<Vec<u8>> {
    let words = [0xbe, 0xde, 0, (came.3.len() / 4 % 256) as u8];
    let head = head(0x90, came.1, came.2, 0, came.0);
    let plain = joined(alloc, &[&head, &words, came.3, came.4])?;
    seal_numbered(alloc, plain.as_slice(), came.2)
}

// The packet that is told next, behind what is told of a pause.
fn next_packet(end: &mut End) -> Option<Event> {
    match event(end) {
        Some(Event::StreamPaused(_)) => event(end),
        told => told,
    }
}

fn is_told(told: &Option<Event>, low: u8, pt: u8, number: u64, payload: &[u8]) -> bool {
    match told {
        Some(Event::RtpPacket(packet)) => {
            packet.seq_no == SeqNo::from(number)
                && packet.payload.as_slice() == payload
                && packet.header.ssrc == ssrc(low)
                && packet.header.payload_type == Pt::from(pt)
                && u64::from(packet.header.sequence_number) == number % 65_536
        }
        _ => false,
    }
}

fn is_brought(came: &Came, wanted: Brings, opened: &Option<Opened>, told: &Option<Event>) -> bool {
    match wanted {
        Brings::Nothing => opened.is_none() & told.is_none(),
        Brings::Opens => is_opened(opened, Kind::Rtp, came.0, came.2) & told.is_none(),
        Brings::Tells(low, pt, number, payload) => {
            let right = is_opened(opened, Kind::Rtp, came.0, came.2);
            right & is_told(told, low, pt, number, payload)
        }
    }
}

fn arrives(alloc: Global, end: &mut End, came: &Came, wanted: Brings) -> bool {
    let Some(bytes) = bytes_of(alloc, came) else {
        return false;
    };
    let Ok(opened) = receive(end, moment(), bytes.as_slice()) else {
        return false;
    };
    let right = is_brought(came, wanted, &opened, &next_packet(end));
    right & event(end).is_none()
}

// Whether a stream stands so.
fn has(end: &mut End, low: u8, place: usize, rtx: u8) -> bool {
    let streams = streams(end);
    let Some(found) = streams.rx_place(ssrc(low)) else {
        return false;
    };
    let stream = streams.rx(found);
    let repairs = match stream.rtx() {
        Some(repairs) => repairs == ssrc(rtx),
        None => rtx == 0,
    };
    repairs & (found == place) & (stream.ssrc() == ssrc(low))
}

fn lacks(end: &mut End, low: u8) -> bool {
    let streams = streams(end);
    streams.rx_place(ssrc(low)).is_none() & streams.original(ssrc(low)).is_none()
}

fn ticks(end: &mut End, now: Instant, plain: &[u8]) -> bool {
    let ticked = tick(end, now).is_ok();
    ticked & leaves(end, now, plain)
}

fn goes(alloc: Global, end: &mut End, step: &Step) -> bool {
    match step {
        Step::Comes(came, wanted) => arrives(alloc, end, came, *wanted),
        Step::Has(low, place, rtx) => has(end, *low, *place, *rtx),
        Step::Lacks(low) => lacks(end, *low),
        Step::Receives(low, rtx) => {
            let mid_rid = MidRid(mid(), Some(rid()));
            expect(end, *low, Some(ssrc(*rtx)), mid_rid, false)
        }
        Step::Ticks(now, plain) => ticks(end, at(*now), plain),
    }
}

// Has a media section expect one more rid.
fn expect_rid(alloc: Global, section: &mut Media, name: &str) -> bool {
    match Rid::from_slice(name.as_bytes()) {
        Some(rid) => section.expect_rid_rx(alloc, rid).is_ok(),
        None => false,
    }
}

fn expect_rids(alloc: Global, section: &mut Media, names: &[&str]) -> bool {
    section.set_rid_rx(Rids::Specific(Listed::new(alloc)));
    let mut held = true;
    for name in names {
        held &= expect_rid(alloc, section, name);
    }
    held
}

fn set_expected(alloc: Global, section: &mut Media, expects: Expects) -> bool {
    match expects {
        Expects::Any => true,
        Expects::Only(names) => expect_rids(alloc, section, names),
    }
}

// Adds the media section v, which expects such streams.
fn add_expecting(alloc: Global, end: &mut End, expects: Expects) -> bool {
    let Some(mut media) = section(alloc, mid(), MediaKind::Video, b"cam") else {
        return false;
    };
    let set = set_expected(alloc, &mut media, expects);
    set & end.add_media(media).is_ok()
}

// The place of the first step that does not go so with a fresh end, else how many steps there are.
fn goes_through(alloc: Global, end: &mut End, expects: Expects, steps: &[Step]) -> usize {
    let keyed = give_keys(alloc, end, false);
    let mut held = keyed & add_expecting(alloc, end, expects);
    let mut gone: usize = 0;
    for step in steps {
        held = held && goes(alloc, end, step);
        gone = gone.saturating_add(usize::from(held));
    }
    gone
}

// Makes an end, and takes it through the steps: the one function that owns a session, with one
// exit.
fn play(alloc: Global, expects: Expects, steps: &[Step]) -> usize {
    let Some(config) = config(alloc, map_of(Ids::All)) else {
        return 0;
    };
    let Some(mut end) = new_end(alloc, config) else {
        return 0;
    };
    goes_through(alloc, &mut end, expects, steps)
}

#[test]
fn datagrams_are_mapped_and_restored(rt: HostRuntime) {
    for (name, expects, steps) in &CAME {
        let gone = play(rt.alloc(), *expects, steps);
        assert!(rt; gone == steps.len(), "{name}: {gone}");
    }
}
