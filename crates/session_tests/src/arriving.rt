use crate::calls::{event, receive};
use crate::ends::{End, moment};
use crate::packets::{SEALED, is_opened};
use crate::telling::is_unpaused;
use rtp_base::{Kind, SeqNo};
use rtp_wire::ExtensionValues;
use session_core::Event;

/// A packet on SSRC 42 that an end is to tell.
#[derive(Clone, Copy)]
pub struct Wanted<'a> {
    /// Its number.
    pub number: u64,
    /// Its payload, without padding.
    pub payload: &'a [u8],
    /// The values of its header extension.
    pub values: ExtensionValues,
    /// It is the first of its stream, which is told to be unpaused before it.
    pub unpauses: bool,
}

// Whether the stream that is unpaused, if any, is told next.
fn tells_unpaused(end: &mut End, unpauses: bool) -> bool {
    if !unpauses {
        return true;
    }
    match event(end) {
        Some(event) => is_unpaused(&event, 42),
        None => false,
    }
}

// Whether the packet is what is told.
fn is_told(wanted: &Wanted<'_>, told: &Option<Event>) -> bool {
    match told {
        Some(Event::RtpPacket(packet)) => {
            packet.seq_no == SeqNo::from(wanted.number)
                && packet.payload.as_slice() == wanted.payload
                && packet.header.ext_vals == wanted.values
                && packet.timestamp == Some(moment())
        }
        _ => false,
    }
}

/// Whether bytes that come open, and nothing but this packet is told, once, behind the stream that
/// it unpauses.
pub fn tells(end: &mut End, bytes: &[u8], wanted: &Wanted<'_>) -> bool {
    let Ok(opened) = receive(end, moment(), bytes) else {
        return false;
    };
    let right = is_opened(&opened, Kind::Rtp, 42, wanted.number);
    let before = tells_unpaused(end, wanted.unpauses);
    let told = is_told(wanted, &event(end));
    right & before & told & event(end).is_none()
}

/// Whether `SEALED` opens, and its packet is told.
pub fn tells_first(end: &mut End) -> bool {
    let wanted = Wanted {
        number: 1,
        payload: &[1, 2],
        values: ExtensionValues::none(),
        unpauses: true,
    };
    tells(end, &SEALED, &wanted)
}
