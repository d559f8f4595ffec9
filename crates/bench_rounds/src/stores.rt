//! Rounds on the stores of sent packets.
ghost use Rattle.std.specs.Prelude.{◌≡◌, ◌<◌, ◌%◌};

use media_units::{Duration, Instant};
use resend_core::{CACHED_SIZE_LIMIT, Cached, ResendStore, RtxCache};
use rtp_base::{NUMBER_LIMIT, SeqNo};
use std::alloc::{AllocError, Global};

/// A sent packet of which only the number and the size count.
#[derive(Drop)]
pub struct Packet {
    number: u64,
    size: usize,
}

impl Cached for Packet {
    ghost number = { λ p. p.number };

    ghost size = { λ p. p.size };

    fn seq_no(&self) -> SeqNo {
        SeqNo::from(self.number)
    }

    fn payload_len(&self) -> usize {
        self.size
    }
}

/// What is done with a store.
#[derive(Clone, Copy)]
pub enum StoreWork {
    /// A value is pushed, into a store that grows from 10 to 2,000.
    Push,
    /// A value is pushed and what is older than 1,000 values dropped.
    PushAndEvict,
    /// A value is looked up among 2,000.
    Get,
}

/// What is done with a cache of sent packets.
#[derive(Clone, Copy)]
pub enum CacheWork {
    /// A packet is cached, in a cache of this room.
    Put(usize),
    /// A packet is looked up by its number among 2,000.
    ByNumber,
    /// A packet is looked up by size among 2,000.
    BySize,
}

fn age(seconds: u64) -> Duration {
    Duration::from_nanos(seconds.wrapping_mul(1_000_000_000))
}

// Pushes the values of the first 2,000 positions.
fn fill<S: ResendStore<u64>>(store: &mut S) -> Result<(), AllocError> {
    for i in 0..2_000u64 {
        store.push(i, Instant::from_nanos(i.wrapping_mul(1_000)), i)?;
    }
    Ok(())
}

// A store of the values of the first 2,000 positions.
fn filled<S: ResendStore<u64>>(alloc: Global) -> Result<S, AllocError> {
    let mut store = S::new(alloc, 10, age(3), 2_000)?;
    fill(&mut store)?;
    Ok(store)
}

// Fills a store; tells whether it holds the value of position 1,000.
fn push_one<S: ResendStore<u64>>(alloc: Global) -> Result<bool, AllocError> {
    let store: S = filled(alloc)?;
    Ok(store.contains(1_000))
}

fn push<S: ResendStore<u64>>(alloc: Global, count: u64) -> Result<u64, AllocError> {
    let mut held: u64 = 0;
    for _i in 0..count / 2_000 {
        held = held.wrapping_add(u64::from(push_one::<S>(alloc)?));
    }
    Ok(held)
}

fn evict_all<S: ResendStore<u64>>(store: &mut S, count: u64) -> Result<bool, AllocError> {
    for i in 0..count {
        let now = Instant::from_nanos(i.wrapping_mul(1_000_000));
        store.push(i, now, i)?;
        store.maybe_evict(now);
    }
    Ok(store.contains(count.wrapping_sub(1)))
}

fn push_and_evict<S: ResendStore<u64>>(alloc: Global, count: u64) -> Result<u64, AllocError> {
    let mut store = S::new(alloc, 10, age(1), 2_000)?;
    let holds_last = evict_all(&mut store, count)?;
    Ok(u64::from(holds_last))
}

fn get_all<S: ResendStore<u64>>(store: &S, count: u64) -> u64 {
    let mut sum: u64 = 0;
    for i in 0..count {
        if let Some(value) = store.get(i.wrapping_mul(7) % 2_000) {
            sum = sum.wrapping_add(*value);
        }
    }
    sum
}

fn get<S: ResendStore<u64>>(alloc: Global, count: u64) -> Result<u64, AllocError> {
    let store: S = filled(alloc)?;
    Ok(get_all(&store, count))
}

impl StoreWork {
    /// Does it so often with a store.
    pub fn play<S: ResendStore<u64>>(self, alloc: Global, count: u64) -> Result<u64, AllocError> {
        match self {
            StoreWork::Push => push::<S>(alloc, count),
            StoreWork::PushAndEvict => push_and_evict::<S>(alloc, count),
            StoreWork::Get => get::<S>(alloc, count),
        }
    }
}

// The packet of a count.
fn sent_packet(count: u64) -> Packet
    ensures number { result.number ≡ count % NUMBER_LIMIT }
    ensures size { result.size ≡ count % 1200 }
    ensures bound { result.size < CACHED_SIZE_LIMIT }
{
    Packet {
        number: count % NUMBER_LIMIT,
        size: (count % 1_200) as usize,
    }
}

// Gives a cache so many packets.
fn cache_all<S: ResendStore<Packet>>(
    cache: &mut RtxCache<Packet, S>,
    count: u64,
) -> Result<(), AllocError> {
    for i in 0..count {
        let now = Instant::from_nanos(i.wrapping_mul(1_000_000));
        cache.cache_sent_packet(sent_packet(i), now)?;
    }
    Ok(())
}

// A cache of so much room that was given so many packets.
fn cached<S: ResendStore<Packet>>(
    alloc: Global,
    room: usize,
    count: u64,
) -> Result<RtxCache<Packet, S>, AllocError> {
    let mut cache: RtxCache<Packet, S> = RtxCache::new(alloc, room, age(3))?;
    cache_all(&mut cache, count)?;
    Ok(cache)
}

fn put<S: ResendStore<Packet>>(alloc: Global, room: usize, count: u64) -> Result<u64, AllocError> {
    let cache: RtxCache<Packet, S> = cached(alloc, room, count)?;
    Ok(u64::from(cache.last_packet().is_some()))
}

fn all_by_number<S: ResendStore<Packet>>(cache: &RtxCache<Packet, S>, count: u64) -> u64 {
    let mut sum: u64 = 0;
    for i in 0..count {
        let seq = SeqNo::from(i.wrapping_mul(7) % 2_000);
        if let Some(packet) = cache.get_cached_packet_by_seq_no(seq) {
            sum = sum.wrapping_add(packet.number);
        }
    }
    sum
}

fn by_number<S: ResendStore<Packet>>(alloc: Global, count: u64) -> Result<u64, AllocError> {
    let cache: RtxCache<Packet, S> = cached(alloc, 2_000, 2_000)?;
    Ok(all_by_number(&cache, count))
}

fn all_by_size<S: ResendStore<Packet>>(cache: &RtxCache<Packet, S>, count: u64) -> u64 {
    let mut sum: u64 = 0;
    for i in 0..count {
        if let Some(packet) = cache.get_cached_packet_smaller_than((i % 2_000) as usize) {
            sum = sum.wrapping_add(packet.number);
        }
    }
    sum
}

fn by_size<S: ResendStore<Packet>>(alloc: Global, count: u64) -> Result<u64, AllocError> {
    let cache: RtxCache<Packet, S> = cached(alloc, 2_000, 2_000)?;
    Ok(all_by_size(&cache, count))
}

impl CacheWork {
    /// Does it so often with a cache over a store.
    pub fn play<S: ResendStore<Packet>>(
        self,
        alloc: Global,
        count: u64,
    ) -> Result<u64, AllocError> {
        match self {
            CacheWork::Put(room) => put::<S>(alloc, room, count),
            CacheWork::ByNumber => by_number::<S>(alloc, count),
            CacheWork::BySize => by_size::<S>(alloc, count),
        }
    }
}
