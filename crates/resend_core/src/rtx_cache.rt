ghost use Rattle.std.specs.Prelude.{◌≡◌, ℕ, ◌+◌, ◌*◌, ◌/◌, ◌<◌, ◌≤◌, Option, IsNone, IfSome, IfOk, OnOk, OnErr, option_and_then, slice_index_or};
ghost use Rattle.std.specs.Option.{option_copied};
ghost use Rattle.resend_core.specs.ResendStore.{Past, emptied, size_of, last_position, HeldAs, IsInOrder};
ghost use Rattle.resend_core.specs.RtxCache.{StandsFor, packet_at, made_for, IsCached, CachedOnce, last_of_class, greatest_below, NoneKept};

use crate::resend_store::ResendStore;
use crate::rtx_cache_buf::EvictingBuffer;
use crate::size_classes::{CACHED_SIZE_LIMIT, CLASS_COUNT, CLASS_SIZE, SizeClasses};
use media_units::{Duration, Instant};
use rtp_base::SeqNo;
use std::alloc::{AllocError, Global};
use std::marker::PhantomData;

/// For how many packets a cache has room at first, where it may have as many: a choice.
pub const INITIAL_CACHE_PACKETS: usize = 10;

/// A packet that was sent and may be sent again.
pub trait Cached: Drop {
    ghost number: { Self → ℕ };

    ghost size: { Self → ℕ };

    /// Its sequence number.
    fn seq_no(&self) -> SeqNo
        ensures { result ≡ number self.now };

    /// The bytes of its payload.
    fn payload_len(&self) -> usize
        ensures { result ≡ size self.now };
}

/// Packets that were sent, each until it is too old or its room is needed (RFC 4588). They are
/// found by number, and by size for padding. They are held in any store.
#[derive(Drop)]
pub struct RtxCache<P: Cached, S: ResendStore<P> = EvictingBuffer<P>> {
    packets: S,
    numbers: SizeClasses,
    kind: PhantomData<P>,
}

impl<P: Cached, S: ResendStore<P>> RtxCache<P, S> {
    /// A cache of at most so many packets, none longer than the age.
    pub fn new(alloc: Global, max_packets: usize, max_age: Duration) -> Result<Self, AllocError>
        ensures { IfOk result (λ c. StandsFor S.stands_for P.size c (made_for max_packets max_age)) }
    {
        let packets = S::new(
            alloc,
            max_packets.min(INITIAL_CACHE_PACKETS),
            max_age,
            max_packets,
        )?;
        Ok(RtxCache {
            packets,
            numbers: SizeClasses::new(),
            kind: PhantomData,
        })
    }

    /// One of the same limits in which nothing was stored.
    pub fn anew(&self, alloc: Global) -> Result<Self, AllocError>
        ensures { (past : Past P) → StandsFor S.stands_for P.size self.now past → IfOk result (λ c. StandsFor S.stands_for P.size c (made_for (size_of past) past.age)) }
    {
        RtxCache::new(alloc, self.packets.max_size(), self.packets.max_age())
    }

    /// Stores a packet under its number, and drops those that are too old. Its payload is below
    /// 2,000 bytes. Without memory nothing changes.
    pub fn cache_sent_packet(&mut self, packet: P, now: Instant) -> Result<(), AllocError>
        requires { P.size packet < CACHED_SIZE_LIMIT }
        ensures ok { OnOk result ((past : Past P) → StandsFor S.stands_for P.size self.old past → IsCached S.stands_for P.size past (P.number packet) now packet self.new) }
        ensures err { OnErr result (self.new ≡ self.old) }
    {
        let number = u64::from(packet.seq_no());
        let class = packet.payload_len() / CLASS_SIZE;
        self.packets.push(number, now, packet)?;
        self.numbers.put(class, number);
        self.packets.maybe_evict(now);
        Ok(())
    }

    /// The number of the packet that was stored last.
    pub fn last_cached_seq_no(&self) -> Option<SeqNo>
        ensures { (past : Past P) → StandsFor S.stands_for P.size self.now past → result ≡ last_position past.events }
    {
        match self.packets.last_position() {
            Some(number) => Some(SeqNo::from(number)),
            None => None,
        }
    }

    /// The packet of a number, where it is held.
    #[tactic(auto, unfolding(crate::specs::RtxCache::packet_at))]
    pub fn get_cached_packet_by_seq_no(&self, seq_no: SeqNo) -> Option<&P>
        ensures value { option_copied result ≡ packet_at S.value_at self.now seq_no }
        ensures held { (past : Past P) → StandsFor S.stands_for P.size self.now past → HeldAs past seq_no (option_copied result) }
    {
        self.packets.get(u64::from(seq_no))
    }

    /// A packet whose payload is of a lower class of 25 bytes than this size, at most 2,000: of the
    /// greatest class whose packet cached last is held.
    pub fn get_cached_packet_smaller_than(&self, max_size: usize) -> Option<&P>
        requires { max_size ≤ CACHED_SIZE_LIMIT }
        ensures choice { (past : Past P) → StandsFor S.stands_for P.size self.now past → option_copied result ≡ greatest_below (λ k. option_and_then (packet_at S.value_at self.now) (last_of_class P.size k past.events)) (max_size / CLASS_SIZE) }
        ensures smaller { (past : Past P) → StandsFor S.stands_for P.size self.now past → CachedOnce past.events → IfSome (option_copied result) (λ p. P.size p / CLASS_SIZE < max_size / CLASS_SIZE) }
        ensures none { (past : Past P) → StandsFor S.stands_for P.size self.now past → IsInOrder past.events → 0 < past.initial → 0 < past.age → IsNone (option_copied result) → NoneKept P.size past (max_size / CLASS_SIZE) }
    {
        S::laws();
        self.greatest_below(max_size / CLASS_SIZE)
    }

    /// The packet of the greatest class below this one whose packet cached last is held.
    #[tactic(auto, using(crate::proofs::CacheSteps::found_step, crate::proofs::CacheSteps::missed_step))]
    fn greatest_below(&self, class: usize) -> Option<&P>
        requires { class ≤ CLASS_COUNT }
        ensures { option_copied result ≡ greatest_below (λ k. option_and_then (packet_at S.value_at self.now) (slice_index_or self.now.numbers k None)) class }
    {
        let mut below = class.min(self.numbers.top());
        while below > 0 {
            below -= 1;
            if let Some(packet) = self.last_of(below) {
                return Some(packet);
            }
        }
        None
    }

    /// The packet of a class that was cached last, where it is held.
    #[tactic(auto, unfolding(crate::specs::RtxCache::packet_at))]
    fn last_of(&self, class: usize) -> Option<&P>
        requires { class < CLASS_COUNT }
        ensures { option_copied result ≡ option_and_then (packet_at S.value_at self.now) (slice_index_or self.now.numbers class None) }
    {
        match self.numbers.get(class) {
            Some(number) => self.packets.get(number),
            None => None,
        }
    }

    /// The packet that was stored last, where it is held.
    #[tactic(auto, unfolding(crate::specs::RtxCache::packet_at))]
    pub fn last_packet(&self) -> Option<&P>
        ensures { (past : Past P) → StandsFor S.stands_for P.size self.now past → option_copied result ≡ option_and_then (packet_at S.value_at self.now) (last_position past.events) }
    {
        self.packets.last()
    }

    /// Drops all packets.
    pub fn clear(&mut self)
        ensures { (past : Past P) → StandsFor S.stands_for P.size self.old past → StandsFor S.stands_for P.size self.new (emptied past) }
    {
        self.packets.clear();
        self.numbers = SizeClasses::new();
    }
}
