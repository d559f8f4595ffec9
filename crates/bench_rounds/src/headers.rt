//! Rounds on RTP headers.
use rtp_wire::{ExtensionMap, RtpHeader};

/// What is done with a header.
#[derive(Clone, Copy)]
pub enum HeaderWork {
    /// A header with the values of four extensions is read.
    Read,
    /// It is written.
    Write,
}

// A header with an audio level, a send time, a transport number and the mid "ab" (RFC 3550
// section 5.1, RFC 8285 section 4.2).
static HEADER: [u8; 32] = [
    0x90, 0x60, 0, 1, 0, 0, 0, 0, 0, 0, 0, 0x2a, 0xbe, 0xde, 0, 4, 0x10, 0x85, 0x22, 1, 2, 3, 0x31,
    0x12, 0x34, 0x41, b'a', b'b', 0, 0, 0, 0,
];

// Reads headers whose times differ; tells the sum of what was read.
fn read(count: u64) -> u64 {
    let exts = ExtensionMap::standard();
    let mut bytes = HEADER;
    let mut sum: u64 = 0;
    for i in 0..count {
        bytes[7] = (i % 256) as u8;
        if let Some(header) = RtpHeader::parse(&bytes, &exts) {
            sum = sum
                .wrapping_add(u64::from(header.timestamp))
                .wrapping_add(u64::from(header.ext_vals.transport_cc.unwrap_or(0)));
        }
    }
    sum
}

// Writes a header with times that differ; tells the sum of the lengths and of a byte of each.
fn write_all(header: RtpHeader, count: u64) -> u64 {
    let exts = ExtensionMap::standard();
    let mut header = header;
    let mut bytes = [0; 160];
    let mut sum: u64 = 0;
    for i in 0..count {
        header.timestamp = (i % 256) as u32;
        if header.csrc_count <= 15 {
            let len = header.write_to(&mut bytes, &exts);
            sum = sum
                .wrapping_add(len as u64)
                .wrapping_add(u64::from(bytes[7]));
        }
    }
    sum
}

fn write(count: u64) -> u64 {
    match RtpHeader::parse(&HEADER, &ExtensionMap::standard()) {
        Some(header) => write_all(header, count),
        None => 0,
    }
}

impl HeaderWork {
    /// Does it so often.
    pub fn play(self, count: u64) -> u64 {
        match self {
            HeaderWork::Read => read(count),
            HeaderWork::Write => write(count),
        }
    }
}
