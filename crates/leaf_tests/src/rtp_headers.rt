use rtp_base::{Pt, SeqNo, Ssrc};
use rtp_wire::{
    AbsCaptureTime, AbsSendTime, Extension, ExtensionMap, ExtensionValues, Frequency, MediaTime,
    Mid, Rid, RtpHeader, VideoOrientation,
};

// The example of RFC 8285 section 4.2: elements of 1, 2 and 4 bytes, with padding before the last.
static PADDED_ONE_BYTE: [u8; 30] = [
    0x90, 0x60, 0, 1, 0, 0, 0, 0, 0, 0, 0, 0x2a, 0xbe, 0xde, 0, 3, 0x10, 0x7f, 0x31, 1, 2, 0, 0,
    0x43, b'a', b'b', b'c', b'd', 9, 9,
];

// The example of RFC 8285 section 4.3: elements of 0, 1 and 4 bytes, with padding before the last.
static PADDED_TWO_BYTE: [u8; 28] = [
    0x90, 0x60, 0, 1, 0, 0, 0, 0, 0, 0, 0, 0x2a, 0x10, 0, 0, 3, 3, 0, 13, 1, 2, 0, 4, 4, b'a',
    b'b', b'c', b'd',
];

// A header with each value, under the ids of `all_extensions`.
static ALL: [u8; 48] = [
    0x90, 0x60, 0, 1, 0, 0, 0, 0, 0, 0, 0, 0x2a, 0xbe, 0xde, 0, 8, 0x10, 0x85, 0x22, 1, 2, 3, 0x31,
    0x12, 0x34, 0x41, b'a', b'b', 0x52, 0, 0x10, 2, 0x67, 0, 0, 0, 1, 0x80, 0, 0, 0, 0xa0, b'q',
    0xb0, b'r', 0xd0, 3, 0,
];

// The standard ids, 5 for the delay and 6 for the capture.
fn all_extensions() -> ExtensionMap {
    let mut exts = ExtensionMap::standard();
    exts.set(5, Extension::PlayoutDelay);
    exts.set(6, Extension::AbsoluteCaptureTime);
    exts
}

fn all_values() -> ExtensionValues {
    ExtensionValues {
        audio_level: Some(-5),
        voice_activity: Some(true),
        video_orientation: Some(VideoOrientation::Deg90),
        abs_send_time: Some(AbsSendTime::from_units(0x010203)),
        transport_cc: Some(0x1234),
        play_delay_min: Some(MediaTime::new(1, Frequency::HUNDREDTHS)),
        play_delay_max: Some(MediaTime::new(2, Frequency::HUNDREDTHS)),
        rid: Rid::from_slice(b"q"),
        rid_repair: Rid::from_slice(b"r"),
        mid: Mid::from_slice(b"ab"),
        abs_capture_time: Some(AbsCaptureTime::from_ntp_64(0x1_8000_0000)),
    }
}

// A header of source 42 with an extension of these values, so many bytes long.
fn extended_header(ext_vals: ExtensionValues, header_len: usize) -> RtpHeader {
    RtpHeader {
        has_padding: false,
        marker: false,
        payload_type: Pt::from(96),
        sequence_number: 1,
        timestamp: 0,
        ssrc: Ssrc::from(42),
        csrc_count: 0,
        csrc: [0; 15],
        ext_vals,
        header_len,
    }
}

fn parses(bytes: &[u8], exts: &ExtensionMap, wanted: &RtpHeader) -> bool {
    match RtpHeader::parse(bytes, exts) {
        Some(header) => header == *wanted,
        None => false,
    }
}

// Whether a header is written as these bytes, and nothing behind them.
fn writes(header: &RtpHeader, exts: &ExtensionMap, wanted: &[u8]) -> bool {
    let mut bytes = [0xff; 160];
    if header.csrc_count > 15 {
        return false;
    }
    let len = header.write_to(&mut bytes, exts);
    let bytes = bytes.as_slice();
    len == wanted.len() && bytes.starts_with(wanted) && bytes.get(len).copied() == Some(0xff)
}

// The values of `PADDED_ONE_BYTE`.
fn padded_one_byte() -> ExtensionValues {
    ExtensionValues {
        audio_level: Some(-127),
        voice_activity: Some(false),
        transport_cc: Some(0x0102),
        mid: Mid::from_slice(b"abcd"),
        ..ExtensionValues::none()
    }
}

// The values of `PADDED_TWO_BYTE`.
fn padded_two_byte() -> ExtensionValues {
    ExtensionValues {
        video_orientation: Some(VideoOrientation::Deg180),
        mid: Mid::from_slice(b"abcd"),
        ..ExtensionValues::none()
    }
}

#[test]
fn headers_with_values(rt: HostRuntime) {
    let exts = all_extensions();
    let rows = [
        (PADDED_ONE_BYTE.as_slice(), padded_one_byte(), 28),
        (PADDED_TWO_BYTE.as_slice(), padded_two_byte(), 28),
        (ALL.as_slice(), all_values(), 48),
    ];
    for (bytes, values, len) in rows {
        assert!(rt;
            parses(bytes, &exts, &extended_header(values, len)),
            "{bytes:?}"
        );
    }
    assert!(rt; writes(&extended_header(all_values(), 48), &exts, &ALL));
}

fn starts_with_number(payload: &[u8], number: u16, rest: &[u8]) -> bool {
    match RtpHeader::read_original_sequence_number(payload) {
        Some((read, behind)) => read == number && behind == rest,
        None => false,
    }
}

// A repair begins with the number of the packet (RFC 4588 section 4); padding ends with its length.
#[test]
fn repairs_and_padding(rt: HostRuntime) {
    let mut payload = [9; 3];
    let len = RtpHeader::write_original_sequence_number(&mut payload, SeqNo::from(65538));
    assert!(rt; len == 2 && starts_with_number(&payload, 2, &[9]));
    let mut padding = [9; 240];
    assert_eq!(rt; RtpHeader::create_padding_packet(&mut padding, 17), 32);
    assert!(rt; padding[30] == 0 && padding[31] == 32 && padding[32] == 9);
}
