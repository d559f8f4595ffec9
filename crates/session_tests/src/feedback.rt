use crate::calls::{event, receive_rtcp};
use crate::ends::{End, moment};
use crate::leaving::sends;
use crate::packets::{is_opened, seal_rtcp};
use media_base::Bytes;
use rtp_base::{Kind, Ssrc};
use session_core::Event;
use std::alloc::Global;

// Feedback of an application from SSRC 1 on SSRC 42 with the words 01020304 (RFC 4585 section
// 6.4), sealed: the first 8 bytes, the rest XOR the key stream, the tag, and the E bit with the
// index 0.
static FEEDBACK: [u8; 36] = [
    0x8f, 0xce, 0, 3, 0, 0, 0, 1, 0, 0, 0, 0x2a, 1, 3, 3, 2, 0x8e, 0xcc, 3, 7, 0, 1, 0, 7, 0x80, 0,
    0, 0, 0, 0, 0, 0x2b, 0x80, 0, 0, 0,
];

// A receiver report of SSRC 1 without blocks (RFC 3550 section 6.4.2) that is not encrypted: it,
// its tag, and the index 0.
static CLEAR: [u8; 28] = [
    0x80, 0xc9, 0, 1, 0, 0, 0, 1, 0x80, 0xc9, 0, 1, 0, 1, 0, 7, 0, 0, 0, 0, 0, 0, 0, 1, 0, 0, 0, 0,
];

// A receiver report of SSRC 7 with a block on SSRC 42.
static REPORT: [u8; 32] = [
    0x81, 0xc9, 0, 7, 0, 0, 0, 7, 0, 0, 0, 0x2a, 0, 0, 0, 0, 0, 0, 0, 1, 0, 0, 0, 0, 0, 0, 0, 0, 0,
    0, 0, 0,
];

// Queues feedback of an application from SSRC 1 on SSRC 42 with the words 01020304.
fn queue_one(alloc: Global, end: &mut End) -> bool {
    let Ok(payload) = Bytes::from_slice(alloc, &[1, 2, 3, 4]) else {
        return false;
    };
    end.send_app_specific_feedback(Ssrc::from(1), Ssrc::from(42), payload)
        .is_ok()
}

/// Whether an event is feedback of an application from SSRC 1 on SSRC 42 with the words 01020304.
pub fn is_words(event: &Event) -> bool {
    match event {
        Event::AppSpecificFeedback(feedback) => {
            feedback.sender_ssrc == Ssrc::from(1)
                && feedback.media_ssrc == Ssrc::from(42)
                && feedback.payload.as_slice() == [1, 2, 3, 4].as_slice()
        }
        _ => false,
    }
}

// Whether `FEEDBACK` opens, and its words are told once.
fn tells_words(end: &mut End) -> bool {
    let opened = opens(end, &FEEDBACK, 1);
    let told = match event(end) {
        Some(event) => is_words(&event),
        None => false,
    };
    opened & told & event(end).is_none()
}

/// Whether feedback is sealed, opens and is told, as often as it comes.
pub fn is_exchanged(alloc: Global, a: &mut End, b: &mut End) -> bool {
    let queued = queue_one(alloc, a);
    let sent = sends(a, &FEEDBACK);
    let first = tells_words(b);
    let again = tells_words(b);
    queued & sent & first & again
}

// Whether bytes open as RTCP of this SSRC, under the index 0.
fn opens(end: &mut End, bytes: &[u8], low: u8) -> bool {
    match receive_rtcp(end, moment(), bytes) {
        Ok(opened) => is_opened(&opened, Kind::Rtcp, low, 0),
        Err(_) => false,
    }
}

/// Whether a packet that is not encrypted opens under its tag alone, and none that is cut or
/// changed.
pub fn opens_clear(b: &mut End) -> bool {
    let mut forged = CLEAR;
    forged[23] = 2;
    let answers = [
        opens(b, &CLEAR, 1),
        opens(b, &forged, 1),
        opens(b, &CLEAR[..27], 1),
        opens(b, &CLEAR[..8], 1),
        opens(b, &CLEAR[..7], 1),
        opens(b, &[], 1),
    ];
    answers == [true, false, false, false, false, false]
}

/// Has a sender hear a report of its SSRC, which acknowledges it; whether that opens and nothing is
/// told.
pub fn acknowledge(alloc: Global, a: &mut End) -> bool {
    let Some(report) = seal_rtcp(alloc, &REPORT, false) else {
        return false;
    };
    let opened = opens(a, report.as_slice(), 7);
    opened & event(a).is_none()
}
