use crate::packets::{Packet, is_number, is_packet};
use media_units::{Duration, Instant};
use resend_core::RtxCache;
use rtp_base::SeqNo;
use std::alloc::{AllocError, Global};
use std::test::Fail;

/// What is done to a cache, and what it answers: packets by their numbers.
#[derive(Clone, Copy)]
enum Step {
    /// A packet of a number and a size below 2,000 is cached, at so many milliseconds.
    Cache(u64, usize, u64),
    /// All goes.
    Clear,
    /// The packet that is smaller than this, at most 2,000.
    Smaller(usize, Option<u64>),
    /// The packet of a number.
    Numbered(u64, Option<u64>),
    /// The number that was cached last.
    LastNumber(Option<u64>),
    /// The packet that was cached last.
    LastPacket(Option<u64>),
}

use Step::{Cache, Clear, LastNumber, LastPacket, Numbered, Smaller};

static OF_ONE: [Step; 3] = [Cache(1, 8, 1), Smaller(25, Some(1)), Smaller(24, None)];

// The greatest class below the size, of which the packet cached last is held.
static BY_SIZE: [Step; 17] = [
    Cache(1, 30, 1),
    Cache(2, 60, 2),
    Cache(3, 900, 3),
    Cache(4, 49, 4),
    Cache(5, 1_999, 5),
    Smaller(2_000, Some(5)),
    Smaller(1_975, Some(3)),
    Smaller(900, Some(2)),
    Smaller(74, Some(4)),
    Smaller(49, None),
    LastNumber(Some(5)),
    Numbered(4, Some(4)),
    Cache(6, 1, 4_000),
    Smaller(2_000, Some(6)),
    LastPacket(Some(6)),
    Clear,
    LastPacket(None),
];

static OF_TWO: [Step; 2] = [Cache(9, 1, 0), LastNumber(Some(9))];

fn cache_packet(
    cache: &mut RtxCache<Packet>,
    number: u64,
    size: usize,
    time: u64,
) -> Result<bool, AllocError> {
    let now = Instant::from_nanos(time.saturating_mul(1_000_000));
    let size = size.min(1_999);
    cache.cache_sent_packet(Packet { number, size }, now)?;
    Ok(true)
}

// Takes a step, and tells whether the cache answers so.
fn takes(cache: &mut RtxCache<Packet>, step: Step) -> Result<bool, AllocError> {
    let same = match step {
        Cache(number, size, time) => return cache_packet(cache, number, size, time),
        Clear => {
            cache.clear();
            true
        }
        Smaller(size, number) => {
            is_packet(
                cache.get_cached_packet_smaller_than(size.min(2_000)),
                number,
            )
        }
        Numbered(asked, number) => {
            is_packet(
                cache.get_cached_packet_by_seq_no(SeqNo::from(asked)),
                number,
            )
        }
        LastNumber(number) => is_number(cache.last_cached_seq_no(), number),
        LastPacket(number) => is_packet(cache.last_packet(), number),
    };
    Ok(same)
}

fn take_all(cache: &mut RtxCache<Packet>, steps: &[Step]) -> Result<usize, AllocError> {
    for (at, step) in steps.iter().enumerate() {
        if !takes(cache, *step)? {
            return Ok(at);
        }
    }
    Ok(steps.len())
}

// How many steps a fresh cache takes and answers, up to the first that it answers otherwise.
fn taken(alloc: Global, packets: usize, seconds: u64, steps: &[Step]) -> Result<usize, AllocError> {
    let mut cache = RtxCache::new(alloc, packets, Duration::from_secs(seconds))?;
    take_all(&mut cache, steps)
}

#[test]
fn caches_answer(rt: HostRuntime) -> Result<(), Fail> {
    let rows = [
        (1, 3, OF_ONE.as_slice()),
        (20, 3, BY_SIZE.as_slice()),
        (2, 1, OF_TWO.as_slice()),
    ];
    for (packets, seconds, steps) in rows {
        let taken = taken(rt.alloc(), packets, seconds, steps)?;
        assert_eq!(rt; taken, steps.len(), "steps of {packets} packets");
    }
    Ok(())
}
