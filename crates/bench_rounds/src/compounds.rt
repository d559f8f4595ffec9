//! Rounds on compound RTCP.
use rtcp_wire::Rtcp;
use std::alloc::{AllocError, Global};
use std::collections::VecDeque;

/// What is done with a compound datagram.
#[derive(Clone, Copy)]
pub enum CompoundWork {
    /// It is read.
    Read,
}

// A sender report with one block, a description with a name of 16 bytes, and a NACK of one entry
// (RFC 3550 sections 6.4.1 and 6.5, RFC 4585 section 6.2.1).
static COMPOUND: [u8; 96] = [
    0x81, 200, 0, 12, 0, 0, 0, 1, 0xe0, 0, 0, 0, 0x80, 0, 0, 0, 0, 1, 0x5f, 0x90, 0, 0, 0, 100, 0,
    1, 0x86, 0xa0, 0, 0, 0, 42, 0x10, 0, 0, 3, 0, 0, 4, 0, 0, 0, 0, 7, 0, 0, 0x80, 0, 0, 0, 0x40,
    0, 0x81, 202, 0, 6, 0, 0, 0, 1, 1, 16, 98, 101, 110, 99, 104, 64, 101, 120, 97, 109, 112, 108,
    101, 46, 99, 111, 0, 0, 0x81, 205, 0, 3, 0, 0, 0, 1, 0, 0, 0, 42, 0, 100, 0, 5,
];

// Reads the datagram so often, each time into an empty list; tells how many items that gave.
fn read(alloc: Global, count: u64) -> Result<u64, AllocError> {
    let mut bytes = COMPOUND;
    let mut told: u64 = 0;
    for i in 0..count {
        bytes[19] = (i % 256) as u8;
        let mut items = VecDeque::new(alloc);
        Rtcp::read_packet(alloc, &bytes, &mut items)?;
        told = told.wrapping_add(items.len() as u64);
    }
    Ok(told)
}

impl CompoundWork {
    /// Does it so often.
    pub fn play(self, alloc: Global, count: u64) -> Result<u64, AllocError> {
        match self {
            CompoundWork::Read => read(alloc, count),
        }
    }
}
