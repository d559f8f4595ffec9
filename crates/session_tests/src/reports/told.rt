//! What an exchange of reports tells (RFC 3550 section 6.4.1, RFC 3611 sections 4.4 and 4.5), what
//! streams ask of their senders (RFC 4585 section 6.3.1, RFC 5104 section 4.3.1.1,
//! draft-alvestrand-rmcat-remb section 2.2), and what is told of all that waits. Moment 0 is
//! 1,700,000,000 s after 1970, 0xe8fe6f80 s after 1900 (RFC 868).
use crate::reports::steps::Row;
use crate::reports::steps::Step::{
    Adds, Asks, Comes, Drains, Expects, Frames, Hears, Rates, Sends, Tells, Tick, Writes,
};
use crate::telling::Told::{Frame, Packet, Rate, Sender, Unpaused, Words};
use rtp_base::KeyframeRequestKind::{Fir, Pli};
use session_core::MediaKind;

// SSRC 42 reports after 1 s: its RTP time was 160,000 at 0.5 s, so it is 205,000 then, at 90 kHz;
// it sent one packet with two bytes of payload. Its source is named cam.
const SENT: &[u8] = &[
    0x80, 0xc8, 0, 6, 0, 0, 0, 42, 0xe8, 0xfe, 0x6f, 0x81, 0, 0, 0, 0, 0, 3, 32, 0xc8, 0, 0, 0, 1,
    0, 0, 0, 2, 0x81, 0xca, 0, 3, 0, 0, 0, 42, 1, 3, 99, 97, 109, 0, 0, 0,
];

// SSRC 2 reports after 1.011 s on SSRC 42: nothing was lost, the greatest number is 1, the last
// report of the sender is of the middle moment 6f810000, and came 10 ms before, 655 of the
// 65,536ths of a second. Its own moment stands behind.
const RECEIVED: &[u8] = &[
    0x81, 0xc9, 0, 7, 0, 0, 0, 2, 0, 0, 0, 42, 0, 0, 0, 0, 0, 0, 0, 1, 0, 0, 0, 0, 0x6f, 0x81, 0,
    0, 0, 0, 2, 0x8f, 0x80, 0xcf, 0, 4, 0, 0, 0, 2, 4, 0, 0, 2, 0xe8, 0xfe, 0x6f, 0x81, 2, 0xd0,
    0xe5, 96,
];

// SSRC 42 reports after 2 s, and answers SSRC 2: its moment came 988 ms before, 64,749 of the
// 65,536ths.
const ANSWERED: &[u8] = &[
    0x80, 0xc8, 0, 6, 0, 0, 0, 42, 0xe8, 0xfe, 0x6f, 0x82, 0, 0, 0, 0, 0, 4, 0x80, 88, 0, 0, 0, 1,
    0, 0, 0, 2, 0x81, 0xca, 0, 3, 0, 0, 0, 42, 1, 3, 99, 97, 109, 0, 0, 0, 0x80, 0xcf, 0, 5, 0, 0,
    0, 42, 5, 0, 0, 3, 0, 0, 0, 2, 0x6f, 0x81, 2, 0xd0, 0, 0, 0xfc, 0xed,
];

// SSRC 2 asks on SSRC 42 for the number 2 (RFC 4585 section 6.2.1).
const ASKS_2: &[u8] = &[0x81, 0xcd, 0, 3, 0, 0, 0, 2, 0, 0, 0, 42, 0, 2, 0, 0];

// SSRC 2 reports after 2.038 s: one of three was lost, and one of the two since the last report,
// 128 of 256; the report of 2 s came 35 ms before. Then it asks once more for the number 2.
const ASKS_AGAIN: &[u8] = &[
    0x81, 0xc9, 0, 7, 0, 0, 0, 2, 0, 0, 0, 42, 0x80, 0, 0, 1, 0, 0, 0, 3, 0, 0, 0, 0, 0x6f, 0x82,
    0, 0, 0, 0, 8, 0xf5, 0x80, 0xcf, 0, 4, 0, 0, 0, 2, 4, 0, 0, 2, 0xe8, 0xfe, 0x6f, 0x82, 9, 0xba,
    94, 53, 0x81, 0xcd, 0, 3, 0, 0, 0, 2, 0, 0, 0, 42, 0, 2, 0, 0,
];

// All after 1 s, in this order: a full intra request and a rate, 1,000,000 bit/s with the mantissa
// 250,000, which is 0x3d090, and the exponent 2; a report that one of three was lost, 85 of 256, up
// to the number 3; the moment of the receiver; and the number 2 is asked for.
const ALL_AT_1: &[u8] = &[
    0x84, 0xce, 0, 4, 0, 0, 0, 2, 0, 0, 0, 0, 0, 0, 0, 42, 0, 0, 0, 0, 0x8f, 0xce, 0, 5, 0, 0, 0,
    2, 0, 0, 0, 0, b'R', b'E', b'M', b'B', 1, 0x0b, 0xd0, 0x90, 0, 0, 0, 42, 0x81, 0xc9, 0, 7, 0,
    0, 0, 2, 0, 0, 0, 42, 85, 0, 0, 1, 0, 0, 0, 3, 0, 0, 0, 0, 0, 0, 0, 0, 0, 0, 0, 0, 0x80, 0xcf,
    0, 4, 0, 0, 0, 2, 4, 0, 0, 2, 0xe8, 0xfe, 0x6f, 0x81, 0, 0, 0, 0, 0x81, 0xcd, 0, 3, 0, 0, 0, 2,
    0, 0, 0, 42, 0, 2, 0, 0,
];

// SSRC 43 reports three packets with six bytes; SSRC 9 tells 1,000,000 bit/s of two streams, 44 and
// 42, and asks for a picture of 42.
const ALL: &[u8] = &[
    0x80, 0xc8, 0, 6, 0, 0, 0, 43, 0xe8, 0xfe, 0x6f, 0x81, 0, 0, 0, 0, 0, 0, 0, 90, 0, 0, 0, 3, 0,
    0, 0, 6, 0x8f, 0xce, 0, 6, 0, 0, 0, 9, 0, 0, 0, 0, b'R', b'E', b'M', b'B', 2, 0x0b, 0xd0, 0x90,
    0, 0, 0, 44, 0, 0, 0, 42, 0x81, 0xce, 0, 2, 0, 0, 0, 9, 0, 0, 0, 42,
];

// Feedback of an application with the words 01020304 (RFC 4585 section 6.4).
const WORDS: &[u8] = &[0x8f, 0xce, 0, 3, 0, 0, 0, 1, 0, 0, 0, 42, 1, 2, 3, 4];

/// What is told, asked and heard.
pub static TOLD: [Row; 4] = [
    (
        "a sender and its answer",
        &[
            Adds(b'v', MediaKind::Video, b"cam"),
            Sends(42, 43, b'v'),
            Writes(42, 160_000, 500_000_000),
            Tick(1, &[]),
            Tick(999_999_999, &[]),
            Tick(1_000_000_000, SENT),
            Tick(1_000_000_001, &[]),
            Hears(1_012_000_000, RECEIVED),
            Tick(2_000_000_000, ANSWERED),
        ],
    ),
    (
        "a receiver and its round trip of 4 ms",
        &[
            Asks(42, 43, b'v'),
            Comes(1_000_000, 42, 1, 160_000),
            Hears(1_001_000_000, SENT),
            Tick(1_011_000_000, RECEIVED),
            Hears(2_003_000_000, ANSWERED),
            Comes(2_004_000_000, 42, 3, 340_270),
            Tick(2_005_000_000, ASKS_2),
            Tick(2_038_000_000, ASKS_AGAIN),
        ],
    ),
    (
        "all at once",
        &[
            Asks(42, 43, b'v'),
            Comes(1_000_000, 42, 1, 0),
            Comes(1_000_000, 42, 3, 0),
            Rates(42, 1_000_000),
            Frames(42, Fir),
            Tick(1_000_000_000, ALL_AT_1),
        ],
    ),
    (
        "all that waits, once and in order, from one drain",
        &[
            Sends(42, 0, b'v'),
            Sends(44, 0, b'w'),
            Expects(45, 0, b'v'),
            Expects(43, 0, b'v'),
            Comes(1, 43, 7, 0),
            Hears(1, ALL),
            Comes(1, 45, 8, 0),
            Hears(1, WORDS),
            Drains(
                1,
                &[
                    Words,
                    Unpaused(45),
                    Unpaused(43),
                    Packet(45, 8),
                    Frame(b'v', Pli),
                    Sender(b'v', 43, 1, 3),
                    Rate(b'w', 1_000_000),
                    Rate(b'v', 1_000_000),
                ],
            ),
            Tells(&[]),
        ],
    ),
];
