ghost use Rattle.std.specs.Prelude.{◌≡◌, ◌↔◌, ℕ, ◌+◌, ◌<◌, ◌≤◌, ◌++◌, ◌==◌, List, [], Option, is_some, drop, length, IfOk, IfSome, OnOk, OnErr, IsErrOf};
ghost use Rattle.std.specs.Option.{option_copied, option_map, option_to_list, ForSome};
ghost use Rattle.rtp_base.specs.NackEntry.{named_by};
ghost use Rattle.resend_core.specs.ResendStore.{Past, last_position};
ghost use Rattle.resend_core.specs.RtxCache.{packet_at, IsCached, StandsFor as CacheStandsFor};
ghost use Rattle.rtx_core.specs.Ratio.{after_reading, forgetting, with_pushed, without_pushed, with_resent};
ghost use Rattle.rtx_core.specs.Resends.{ResendRecord, StandsFor, created, begun_anew, recapped, recached, after_first, Caches, numbers_of, resend_of, resends_of, asked_for, first_held, is_capped, next_of, cap_after, after_next, number_of, IsExhausted, closed, Asks, IsNext};

use crate::ratio_cap::RatioCap;
use crate::resend::{Resend, ResendError};
use media_units::{Duration, Instant};
use resend_core::{CACHED_SIZE_LIMIT, Cached, ResendStore, RtxCache};
use rtp_base::{NUMBER_LIMIT, NackEntry, SeqNo};
use std::alloc::{AllocError, Global};
use std::collections::VecDeque;
use std::marker::Model;

/// How many packets are kept where nothing else is set: a choice.
pub const DEFAULT_RTX_CACHE_PACKETS: usize = 2000;

/// How long they are kept where nothing else is set, in seconds: a choice.
pub const DEFAULT_RTX_CACHE_DURATION: u64 = 3;

/// How many hundredths of what is sent may be repairs where nothing else is set: a choice.
pub const DEFAULT_RTX_RATIO_CAP: u32 = 15;

/// What an outgoing stream sends again (RFC 4588): the packets that it keeps, of those what the
/// peer asked for, in order, and the number of the next repair. Where more of what it sent than a
/// cap were repairs, what is asked for is dropped.
#[derive(Drop)]
pub struct ResendQueue<P: Cached, S: ResendStore<P>> {
    alloc: Global,
    cache: RtxCache<P, S>,
    resends: VecDeque<Resend>,
    next_seq_no: u64,
    cap: Option<RatioCap>,
}

impl<P: Cached, S: ResendStore<P>> Model for ResendQueue<P, S> {
    ghost use Rattle.std.specs.Prelude.{◌≤◌};
    ghost use Rattle.rtp_base.specs.declared.number.TheConstants.{NUMBER_LIMIT};
    ghost use Rattle.resend_core.specs.declared.rtx_cache.RtxCache.{RtxCache};
    ghost use Rattle.rtx_core.specs.Resends.{ResendView};

    ghost Value = { ResendView (RtxCache P S) };

    ghost view = { λ q. record { state = record { resends = q.resends.items; next_seq_no = q.next_seq_no; cap = q.cap }; cache = q.cache } };

    ghost invariant = { λ q. q.next_seq_no ≤ NUMBER_LIMIT };
}

/// The first resend whose packet is held: how many there are up to it, and the packet.
fn first_held<'a, P: Cached, S: ResendStore<P>>(
    resends: &VecDeque<Resend>,
    cache: &'a RtxCache<P, S>,
) -> Option<(usize, &'a P)>
    ensures found { first_held (packet_at S.value_at cache.now) resends.now.items ≡ option_map (λ f. (f.1.now, drop f.0 resends.now.items)) result }
    ensures within { IfSome result (λ f. (0 < f.0) × (f.0 ≤ length resends.now.items)) }
{
    for place in 0..resends.len() {
        let resend = resends[place];
        if let Some(packet) = cache.get_cached_packet_by_seq_no(resend.seq_no) {
            return Some((place + 1, packet));
        }
    }
    None
}

/// Drops so many values from the front.
fn drop_front<T: Drop>(queue: &mut VecDeque<T>, count: usize)
    ensures { queue.new.items ≡ drop count queue.old.items }
{
    for _turn in 0..count {
        queue.pop_front();
    }
}

/// Puts resends behind the others. Without memory nothing changes.
fn push_all(resends: &mut VecDeque<Resend>, more: &[Resend]) -> Result<(), AllocError>
    ensures ok { OnOk result (resends.new.items ≡ resends.old.items ++ more.now) }
    ensures err { OnErr result (resends.new.items ≡ resends.old.items) }
{
    resends.reserve(more.len())?;
    for resend in more {
        resends.push_back_reserved(*resend);
    }
    Ok(())
}

impl<P: Cached, S: ResendStore<P>> ResendQueue<P, S> {
    /// Nothing was sent. Repairs begin with a number of at most 2^48, which is one too many. The
    /// cache has room for 2,000 packets, each for 3 s, and the cap is 15 hundredths.
    pub fn new(alloc: Global, first_seq_no: SeqNo) -> Result<Self, AllocError>
        requires { first_seq_no ≤ NUMBER_LIMIT }
        ensures { IfOk result (λ q. StandsFor S.stands_for P.size q (created first_seq_no)) }
    {
        let max_age = Duration::from_secs(DEFAULT_RTX_CACHE_DURATION);
        let cache = RtxCache::<P, S>::new(alloc, DEFAULT_RTX_CACHE_PACKETS, max_age)?;
        Ok(ResendQueue {
            alloc,
            cache,
            resends: VecDeque::new(alloc),
            next_seq_no: u64::from(first_seq_no),
            cap: Some(RatioCap::new(alloc, DEFAULT_RTX_RATIO_CAP)),
        })
    }

    /// One with the same limits for which nothing was sent. Its repairs begin with a number of at
    /// most 2^48, which is one too many.
    pub fn anew(&self, first_seq_no: SeqNo) -> Result<Self, AllocError>
        requires { first_seq_no ≤ NUMBER_LIMIT }
        ensures { (r : ResendRecord P) → StandsFor S.stands_for P.size self.now r → IfOk result (λ q. StandsFor S.stands_for P.size q (begun_anew first_seq_no r)) }
    {
        let cache = self.cache.anew(self.alloc)?;
        let cap = match &self.cap {
            Some(cap) => Some(RatioCap::new(self.alloc, cap.hundredths())),
            None => None,
        };
        Ok(ResendQueue {
            alloc: self.alloc,
            cache,
            resends: VecDeque::new(self.alloc),
            next_seq_no: u64::from(first_seq_no),
            cap,
        })
    }

    /// Sets how many hundredths may be repairs, or that any number may.
    fn set_cap(&mut self, cap: Option<u32>)
        ensures { self.new ≡ record self.old { state = record self.old.state { cap = recapped cap self.old.state.cap } } }
    {
        let Some(hundredths) = cap else {
            self.cap = None;
            return;
        };
        match &mut self.cap {
            Some(standing) => standing.set(hundredths),
            None => {
                self.cap = Some(RatioCap::new(self.alloc, hundredths));
            }
        }
    }

    /// Makes the cache anew, with room for so many packets, each for an age; none is kept where one
    /// of the two is 0. Sets how many hundredths of what is sent may be repairs, any number where
    /// it is None. What was asked for stays, and goes where it is not kept any more. Without memory
    /// nothing changes.
    pub fn set_rtx_cache(
        &mut self,
        max_packets: usize,
        max_age: Duration,
        cap: Option<u32>,
    ) -> Result<(), AllocError>
        ensures ok { OnOk result ((r : ResendRecord P) → StandsFor S.stands_for P.size self.old r → StandsFor S.stands_for P.size self.new (recached max_packets max_age cap r)) }
        ensures state { OnOk result (self.new.state ≡ record self.old.state { cap = recapped cap self.old.state.cap }) }
        ensures err { OnErr result (self.new ≡ self.old) }
    {
        self.cache = RtxCache::<P, S>::new(self.alloc, max_packets, max_age)?;
        self.set_cap(cap);
        Ok(())
    }

    /// Counts a packet that was sent for the first time and is not kept. Without memory nothing
    /// changes.
    pub fn count_sent(&mut self, now: Instant, bytes: usize) -> Result<(), AllocError>
        ensures ok { OnOk result (self.new ≡ record self.old { state = after_first now bytes self.old.state }) }
        ensures err { OnErr result (self.new ≡ self.old) }
    {
        match &mut self.cap {
            Some(cap) => cap.count_sent(now, bytes),
            None => Ok(()),
        }
    }

    /// Counts a packet, as sent for the first time, and forgets nothing. Without memory nothing
    /// changes.
    fn push_sent(&mut self, now: Instant, bytes: usize) -> Result<(), AllocError>
        ensures ok { OnOk result (self.new ≡ record self.old { state = record self.old.state { cap = option_map (with_pushed now bytes) self.old.state.cap } }) }
        ensures err { OnErr result (self.new ≡ self.old) }
    {
        match &mut self.cap {
            Some(cap) => cap.push_sent(now, bytes),
            None => Ok(()),
        }
    }

    /// Takes back what was counted last.
    fn take_back(&mut self)
        ensures { self.new ≡ record self.old { state = record self.old.state { cap = option_map without_pushed self.old.state.cap } } }
    {
        if let Some(cap) = &mut self.cap {
            cap.take_back();
        }
    }

    /// Forgets what counts no more.
    fn forget_sent(&mut self, now: Instant)
        ensures { self.new ≡ record self.old { state = record self.old.state { cap = option_map (forgetting now) self.old.state.cap } } }
    {
        if let Some(cap) = &mut self.cap {
            cap.forget_sent(now);
        }
    }

    /// Keeps a packet in the cache. Without memory nothing changes.
    fn keep(&mut self, packet: P, now: Instant) -> Result<(), AllocError>
        requires { P.size packet < CACHED_SIZE_LIMIT }
        ensures ok { OnOk result ((past : Past P) → CacheStandsFor S.stands_for P.size self.old.cache past → IsCached S.stands_for P.size past (P.number packet) now packet self.new.cache) }
        ensures state { self.new.state ≡ self.old.state }
        ensures err { OnErr result (self.new ≡ self.old) }
    {
        self.cache.cache_sent_packet(packet, now)
    }

    /// Counts a packet that was sent for the first time, and keeps it, to be sent again, until it
    /// is too old or its room is needed. What is too old goes. Without memory nothing changes.
    #[tactic(auto, using(crate::proofs::Caching::counted_back, crate::proofs::Caching::forgotten))]
    pub fn cache_sent_packet(&mut self, packet: P, now: Instant) -> Result<(), AllocError>
        requires size { P.size packet < CACHED_SIZE_LIMIT }
        requires number { P.number packet < NUMBER_LIMIT }
        ensures ok { OnOk result ((r : ResendRecord P) → StandsFor S.stands_for P.size self.old r → (after : ResendRecord P) × Caches P.size P.number now packet r after × StandsFor S.stands_for P.size self.new after) }
        ensures state { OnOk result (self.new.state ≡ after_first now (P.size packet) self.old.state) }
        ensures err { OnErr result (self.new ≡ self.old) }
    {
        self.push_sent(now, packet.payload_len())?;
        match self.keep(packet, now) {
            Ok(()) => {
                self.forget_sent(now);
                Ok(())
            }
            Err(error) => {
                self.take_back();
                Err(error)
            }
        }
    }

    /// The number of the packet that was kept last.
    fn last_seq_no(&self) -> Option<SeqNo>
        ensures last { (r : ResendRecord P) → StandsFor S.stands_for P.size self.now r → result ≡ last_position r.cache.events }
        ensures small { ForSome result (λ n. n < NUMBER_LIMIT) }
    {
        let last = self.cache.last_cached_seq_no()?;
        if u64::from(last) < NUMBER_LIMIT {
            Some(last)
        } else {
            None
        }
    }

    /// Puts the resends of what an entry names behind others, as far as its packets are kept.
    fn push_named(
        &self,
        found: &mut Vec<Resend>,
        entry: NackEntry,
        last: SeqNo,
        now: Instant,
    ) -> Result<(), AllocError>
        requires { last < NUMBER_LIMIT }
        ensures { OnOk result (found.new.items ≡ found.old.items ++ resends_of P.size now (packet_at S.value_at self.now.cache) (named_by (Some last) entry)) }
    {
        for seq_no in entry.into_iter(Some(last)) {
            if let Some(packet) = self.cache.get_cached_packet_by_seq_no(seq_no) {
                found.push(Resend {
                    seq_no,
                    queued_at: now,
                    payload_size: packet.payload_len(),
                })?;
            }
        }
        Ok(())
    }

    /// The resends of what entries name, as far as its packets are kept.
    fn named(
        &self,
        entries: &[NackEntry],
        last: SeqNo,
        now: Instant,
    ) -> Result<Vec<Resend>, AllocError>
        requires { last < NUMBER_LIMIT }
        ensures { IfOk result (λ found. found.items ≡ resends_of P.size now (packet_at S.value_at self.now.cache) (numbers_of (Some last) entries.now)) }
    {
        let mut found = Vec::new(self.alloc);
        for entry in entries {
            self.push_named(&mut found, *entry, last, now)?;
        }
        Ok(found)
    }

    /// Asks for what entries name, as far as it is kept.
    fn ask(&mut self, entries: &[NackEntry], now: Instant) -> Result<(), AllocError>
        ensures asked { OnOk result ((r : ResendRecord P) → StandsFor S.stands_for P.size self.old r → self.new.state ≡ asked_for (resends_of P.size now (packet_at S.value_at self.old.cache) (numbers_of (last_position r.cache.events) entries.now)) self.old.state) }
        ensures cache { self.new.cache ≡ self.old.cache }
        ensures err { OnErr result (self.new ≡ self.old) }
    {
        let Some(last) = self.last_seq_no() else {
            return Ok(());
        };
        let more = self.named(entries, last, now)?;
        push_all(&mut self.resends, &more)
    }

    /// Takes in the entries of a NACK (RFC 4585 section 6.2.1): asks for the packets that they
    /// name, in order, as far as they are kept. The numbers are those nearest to the number that
    /// was kept last. Without memory nothing changes.
    pub fn handle_nack(&mut self, entries: &[NackEntry], now: Instant) -> Result<(), AllocError>
        ensures ok { OnOk result ((r : ResendRecord P) → StandsFor S.stands_for P.size self.old r → (more : List Resend) × Asks P.size now r.cache (numbers_of (last_position r.cache.events) entries.now) more × StandsFor S.stands_for P.size self.new (record r { state = asked_for more r.state })) }
        ensures asked { OnOk result ((r : ResendRecord P) → StandsFor S.stands_for P.size self.old r → self.new.state ≡ asked_for (resends_of P.size now (packet_at S.value_at self.old.cache) (numbers_of (last_position r.cache.events) entries.now)) self.old.state) }
        ensures cache { self.new.cache ≡ self.old.cache }
        ensures err { OnErr result (self.new ≡ self.old) }
    {
        S::laws();
        self.ask(entries, now)?;
        Ok(())
    }

    /// Whether nothing is asked for.
    pub fn is_empty(&self) -> bool
        ensures { result ≡ (length self.now.state.resends == 0) }
    {
        self.resends.is_empty()
    }

    /// The number of the next repair, at most 2^48.
    pub fn next_seq_no(&self) -> SeqNo
        ensures number { result ≡ self.now.state.next_seq_no }
        ensures small { result ≤ NUMBER_LIMIT }
    {
        SeqNo::from(self.next_seq_no)
    }

    /// Whether there is a cap of how much of what is sent may be repairs.
    pub fn has_cap(&self) -> bool
        ensures { result ≡ is_some self.now.state.cap }
    {
        self.cap.is_some()
    }

    /// Whether the cap is met at a moment.
    fn is_capped(&self, now: Instant) -> bool
        ensures { result ≡ is_capped now self.now.state.cap }
    {
        match &self.cap {
            Some(cap) => cap.is_met(now),
            None => false,
        }
    }

    /// What is to be sent again next, and how many resends there are up to it.
    fn next(&self, now: Instant) -> Option<(usize, &P)>
        ensures due { (r : ResendRecord P) → StandsFor S.stands_for P.size self.now r → IsNext now r (next_of now (packet_at S.value_at self.now.cache) self.now.state) }
        ensures found { next_of now (packet_at S.value_at self.now.cache) self.now.state ≡ option_map (λ f. (f.1.now, drop f.0 self.now.state.resends)) result }
        ensures within { IfSome result (λ f. (0 < f.0) × (f.0 ≤ length self.now.state.resends)) }
    {
        S::laws();
        if self.is_capped(now) {
            return None;
        }
        first_held(&self.resends, &self.cache)
    }

    /// The packet that is to be sent again next: the first that was asked for and is kept. None
    /// where there is none, or where the cap is met at the moment. It looks at those that are not
    /// kept any more.
    pub fn peek(&self, now: Instant) -> Option<&P>
        ensures due { (r : ResendRecord P) → StandsFor S.stands_for P.size self.now r → IsNext now r (next_of now (packet_at S.value_at self.now.cache) self.now.state) }
        ensures packet { option_copied result ≡ option_map (λ f. f.0) (next_of now (packet_at S.value_at self.now.cache) self.now.state) }
    {
        let (_, packet) = self.next(now)?;
        Some(packet)
    }

    /// Drops what is asked for, and reads the cap where that is due.
    pub fn give_up(&mut self, now: Instant)
        ensures { self.new ≡ record self.old { state = record self.old.state { resends = []; cap = cap_after now self.old.state } } }
    {
        if self.resends.is_empty() {
            return;
        }
        self.resends.clear();
        if let Some(cap) = &mut self.cap {
            cap.read(now);
        }
    }

    /// Counts a packet that is sent again. Without memory nothing changes.
    fn count_resent(&mut self, now: Instant, bytes: usize) -> Result<(), AllocError>
        ensures ok { OnOk result (self.new ≡ record self.old { state = record self.old.state { cap = option_map (λ c. with_resent now bytes (after_reading now c)) self.old.state.cap } }) }
        ensures err { OnErr result (self.new ≡ self.old) }
    {
        match &mut self.cap {
            Some(cap) => cap.count_resent(now, bytes),
            None => Ok(()),
        }
    }

    /// Takes what `peek` gives, and with it all that was asked for before it, and gives the number
    /// under which it is sent again; where `peek` gives nothing, nothing is asked for any more.
    ///
    /// # Errors
    /// `Exhausted` where something is to be sent again and 2^48 numbers were used; `Memory`.
    /// Nothing changes then.
    pub fn pop(&mut self, now: Instant) -> Result<Option<SeqNo>, ResendError>
        ensures number { IfOk result (λ o. o ≡ number_of (next_of now (packet_at S.value_at self.old.cache) self.old.state) self.old.state) }
        ensures small { IfOk result (λ o. IfSome o (λ n. n < NUMBER_LIMIT)) }
        ensures fewer { IfOk result (λ o. IfSome o (λ n. length self.new.state.resends < length self.old.state.resends)) }
        ensures state { OnOk result (self.new.state ≡ after_next now P.size (next_of now (packet_at S.value_at self.old.cache) self.old.state) self.old.state) }
        ensures cache { self.new.cache ≡ self.old.cache }
        ensures exhausted { IsErrOf result ResendError.Exhausted ↔ IsExhausted (next_of now (packet_at S.value_at self.old.cache) self.old.state) self.old.state }
        ensures due { (r : ResendRecord P) → StandsFor S.stands_for P.size self.old r → IsNext now r (next_of now (packet_at S.value_at self.old.cache) self.old.state) }
        ensures err { OnErr result (self.new ≡ self.old) }
    {
        let Some((count, packet)) = self.next(now) else {
            self.give_up(now);
            return Ok(None);
        };
        if self.next_seq_no >= NUMBER_LIMIT {
            return Err(ResendError::Exhausted);
        }
        let bytes = packet.payload_len();
        self.count_resent(now, bytes)?;
        drop_front(&mut self.resends, count);
        let number = SeqNo::from(self.next_seq_no);
        self.next_seq_no += 1;
        Ok(Some(number))
    }

    /// Closes the stream: nothing is kept, and nothing asked for.
    pub fn clear(&mut self)
        ensures { (r : ResendRecord P) → StandsFor S.stands_for P.size self.old r → StandsFor S.stands_for P.size self.new (closed r) }
    {
        self.resends.clear();
        self.cache.clear();
    }
}
