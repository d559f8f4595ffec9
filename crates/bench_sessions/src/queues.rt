//! Rounds on the queue of packets that wait to be sealed.
use media_units::Instant;
use rtp_base::{Frequency, MediaTime, SeqNo};
use rtp_wire::{ExtensionMap, RtpHeader};
use std::alloc::{AllocError, Global};
use stream_core::{Payload, RtpPacket, SendQueue};

// A header without extension, of number 1 and source 42 (RFC 3550 section 5.1).
static HEADER: [u8; 12] = [0x80, 0x60, 0, 1, 0, 0, 0, 0, 0, 0, 0, 0x2a];

// Pushes a packet of number 1.
fn push(alloc: Global, queue: &mut SendQueue, header: &RtpHeader) -> Result<(), AllocError> {
    if header.sequence_number != 1 || header.csrc_count > 15 {
        return Ok(());
    }
    let payload = Payload::from_slice(alloc, &[0; 4])?;
    queue.push(RtpPacket {
        seq_no: SeqNo::from(1),
        time: MediaTime::new(0, Frequency::SECONDS),
        header: *header,
        payload,
        timestamp: None,
        nackable: false,
    })
}

// Ticks, and takes a packet; tells whether there was one.
fn take(queue: &mut SendQueue, now: Instant) -> bool {
    queue.handle_timeout(now);
    queue.pop().is_some()
}

// Pushes a packet, ticks, and takes it, so often; tells how many were taken.
fn pass_each(
    alloc: Global,
    queue: &mut SendQueue,
    header: &RtpHeader,
    count: u64,
) -> Result<u64, AllocError> {
    let mut taken: u64 = 0;
    for i in 0..count {
        push(alloc, queue, header)?;
        taken = taken.wrapping_add(u64::from(take(queue, Instant::from_nanos(i))));
    }
    Ok(taken)
}

/// Pushes a packet of four bytes, ticks, and takes the packet, so often; tells how many were taken.
pub fn pass_all(alloc: Global, count: u64) -> Result<u64, AllocError> {
    let Some(header) = RtpHeader::parse(&HEADER, &ExtensionMap::empty()) else {
        return Ok(0);
    };
    let mut queue = SendQueue::new(alloc);
    pass_each(alloc, &mut queue, &header, count)
}
