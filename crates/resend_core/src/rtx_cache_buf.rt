ghost use Rattle.std.specs.Prelude.{◌≡◌, ℕ, ◌-◌, ◌%◌, ◌<◌, ◌≤◌, ◌⊎◌, unwrap_or, Bool, Option, Some, None, true, nat_le, is_some, option_and_then, length, OnSome, OnOk, OnErr, IfOk, IsOk};
ghost use Rattle.std.specs.Option.{option_copied, option_copied_mut};
ghost use Rattle.std.specs.Borrow.{sem};
ghost use Rattle.std.specs.Bool.{OnTrue};
ghost use Rattle.resend_core.specs.Ring.{held};
ghost use Rattle.resend_core.specs.ResendStore.{evicted, Past, made, size_of, with_event, emptied, revalued, last_position, HeldAs, IsPassedOver, MarksPush, MarksEviction};
ghost use Rattle.resend_core.specs.Lending.{LendsValue};
ghost use Rattle.resend_core.specs.EvictingBuffer.{StandsFor, value_at, with_value, Grows, Places, IsBounded, Spans, Drops, DropsLowest, Sweeps, IsDone, IsReady, IsPushed, takes_push, lowered, swept as swept_to};

use crate::mark::{begin, raised};
use crate::ring::{
    Entry, blank, drop_at, drop_below, entry_at, entry_in, first_young, is_free, is_occupied,
    last_below, move_all, place_of, put, slot_index,
};
use media_units::{Duration, Instant};
use std::alloc::{AllocError, Global};
use std::mem;

/// Values under rising positions, each until it is too old or its room is needed: a ring in which a
/// value stands in the slot of its position's remainder. It grows up to its greatest size.
#[derive(Debug, Drop)]
pub struct EvictingBuffer<T> {
    alloc: Global,
    ring: Vec<Option<Entry<T>>>,
    age: Duration,
    size: usize,
    last: Option<u64>,
    mark: Option<u64>,
    low: u64,
    high: u64,
    timeout: Instant,
}

impl<T: Drop> EvictingBuffer<T> {
    /// A buffer with so many slots, which holds no value longer than the age and grows up to the
    /// greatest number of slots. With no slots or no age it stores nothing.
    pub fn new(
        alloc: Global,
        initial_size: usize,
        max_age: Duration,
        max_size: usize,
    ) -> Result<Self, AllocError>
        ensures stands { IfOk result (λ b. StandsFor b (made initial_size max_age max_size)) }
        ensures marks { IfOk result (λ b. b.mark ≡ None) }
    {
        let ring = blank(alloc, initial_size)?;
        Ok(EvictingBuffer {
            alloc,
            ring,
            age: max_age,
            size: initial_size.max(max_size),
            last: None,
            mark: None,
            low: u64::MAX,
            high: 0,
            timeout: Instant::from_nanos(0),
        })
    }

    /// As many slots as there are positions from the lowest to the greatest that is held, or to the
    /// position, and no fewer than eight times as many as before; at most the greatest size.
    fn grown_size(&self, position: u64) -> usize
        requires roomy { 0 < length self.now.ring.items }
        requires small { length self.now.ring.items < self.now.size }
        ensures above { length self.now.ring.items < result }
        ensures apart { Spans self.now position result ⊎ (result ≡ self.now.size) }
    {
        let below = self.high.max(position) - position.min(self.low);
        let more = (self.ring.len() as u64).saturating_mul(8);
        (self.size as u64).min(more.max(below.saturating_add(1))) as usize
    }

    /// Grows until what is held and the position have slots of their own, or to the greatest size.
    /// Without memory nothing changes.
    #[inline(never)]
    fn grow(&mut self, position: u64) -> Result<(), AllocError>
        requires roomy { 0 < length self.old.ring.items }
        requires small { length self.old.ring.items < self.old.size }
        ensures ok { OnOk result (Grows self.old self.new position) }
        ensures err { OnErr result (self.new ≡ self.old) }
    {
        let size = self.grown_size(position);
        let ring = blank(self.alloc, size)?;
        let mut old = mem::replace(&mut self.ring, ring);
        move_all(&mut self.ring, &mut old);
        Ok(())
    }

    #[inline(always)]
    fn make_room(&mut self, position: u64) -> Result<usize, AllocError>
        requires { 0 < length self.old.ring.items }
        ensures slot { IfOk result (λ i. i ≡ position % length self.new.ring.items) }
        ensures stands { OnOk result ((past : Past T) → StandsFor self.old past → StandsFor self.new past) }
        ensures ready { OnOk result ((past : Past T) → StandsFor self.old past → IsReady self.new position) }
        ensures roomy { OnOk result (0 < length self.new.ring.items) }
        ensures timeout { OnOk result (self.new.timeout ≡ self.old.timeout) }
        ensures mark { OnOk result (self.new.mark ≡ self.old.mark) }
        ensures err { OnErr result (self.new ≡ self.old) }
    {
        let index = slot_index(position, self.ring.len());
        if self.ring.len() < self.size && is_occupied(&self.ring, index, position) {
            self.grow(position)?;
            return Ok(slot_index(position, self.ring.len()));
        }
        Ok(index)
    }

    #[inline(always)]
    fn write(&mut self, index: usize, entry: Entry<T>)
        requires roomy { 0 < length self.old.ring.items }
        requires slot { index ≡ entry.position % length self.old.ring.items }
        ensures { Places self.old self.new entry }
    {
        self.last = Some(entry.position);
        begin(&mut self.mark, entry.position);
        self.low = self.lowered(entry.position);
        self.high = self.high.max(entry.position);
        put(&mut self.ring, index, entry);
    }

    #[inline(always)]
    fn lowered(&self, position: u64) -> u64
        ensures { result ≡ lowered self.now position }
    {
        if self.high < self.low {
            position
        } else {
            self.low.min(position)
        }
    }

    #[inline(always)]
    fn place(&mut self, index: usize, entry: Entry<T>)
        requires roomy { 0 < length self.old.ring.items }
        requires slot { index ≡ entry.position % length self.old.ring.items }
        requires timely { self.old.timeout ≤ entry.moment }
        ensures pushed { (past : Past T) → StandsFor self.old past → IsReady self.old entry.position → IsPushed past entry.position entry.moment entry.value self.new }
        ensures simple { (self.new.mark ≡ self.old.mark) ⊎ (self.new.mark ≡ Some (unwrap_or self.old.mark entry.position)) }
        ensures marked { (past : Past T) → StandsFor self.old past → MarksPush (value_at self.old) (value_at self.new) past entry.position entry.moment self.old.mark self.new.mark }
    {
        if is_free(&self.ring, index, entry.position) {
            self.write(index, entry);
        }
    }

    #[inline(always)]
    fn takes(&self, position: u64, timestamp: Instant) -> bool
        ensures exact { result ≡ takes_push self.now position timestamp }
        ensures roomy { OnTrue result (0 < length self.now.ring.items) }
        ensures timely { OnTrue result (self.now.timeout ≤ timestamp) }
    {
        if self.ring.is_empty() || self.age.as_nanos() == 0 || timestamp < self.timeout {
            return false;
        }
        match self.mark {
            Some(mark) => mark <= position,
            None => true,
        }
    }

    /// Stores a value under its position. A buffer without slots or without an age, a moment before
    /// the last eviction and a position below the mark are passed over: the mark is the first
    /// position pushed, then one above the greatest that was dropped for its age. Without memory
    /// nothing changes.
    #[inline(always)]
    pub fn push(&mut self, position: u64, timestamp: Instant, value: T) -> Result<(), AllocError>
        ensures ok { OnOk result ((past : Past T) → StandsFor self.old past → IsPushed past position timestamp value self.new) }
        ensures inert { (past : Past T) → StandsFor self.old past → past.initial ≡ 0 → (self.new ≡ self.old) × IsOk result }
        ensures passed { (past : Past T) → StandsFor self.old past → IsPassedOver self.old.mark past position timestamp → (self.new ≡ self.old) × IsOk result }
        ensures marked { OnOk result ((past : Past T) → StandsFor self.old past → MarksPush (value_at self.old) (value_at self.new) past position timestamp self.old.mark self.new.mark) }
        ensures err { OnErr result (self.new ≡ self.old) }
    {
        if !self.takes(position, timestamp) {
            return Ok(());
        }
        let index = self.make_room(position)?;
        let entry = Entry {
            position,
            moment: timestamp,
            value,
        };
        self.place(index, entry);
        Ok(())
    }

    #[inline(always)]
    fn drop_lowest(&mut self, index: usize)
        requires roomy { 0 < length self.old.ring.items }
        requires slot { index ≡ self.old.low % length self.old.ring.items }
        ensures { DropsLowest self.old self.new }
    {
        drop_at(&mut self.ring, index);
        self.mark = raised(self.mark, self.low);
        self.low = self.low.saturating_add(1);
    }

    /// Looks at the lowest position, and goes on to the next one unless a value that is not too old
    /// is held there. Tells whether nothing more is to be dropped.
    #[inline(always)]
    fn advance(&mut self, now: Instant) -> bool
        ensures drops { IsBounded self.old → Drops self.old self.new now }
        ensures done { OnTrue result (IsBounded self.old → IsDone self.new now) }
    {
        if self.high < self.low || self.ring.is_empty() {
            return true;
        }
        let index = slot_index(self.low, self.ring.len());
        match entry_in(&self.ring, index, self.low) {
            Some(entry) => {
                if is_young(entry, now, self.age) {
                    return true;
                }
            }
            None => {
                self.low = self.low.saturating_add(1);
                return false;
            }
        }
        self.drop_lowest(index);
        false
    }

    /// Looks at all slots at once.
    fn sweep(&mut self, now: Instant)
        ensures { Sweeps self.old self.new now }
    {
        let first = first_young(&self.ring, now, self.age);
        let dropped = last_below(&self.ring, first);
        drop_below(&mut self.ring, first);
        self.mark = swept(self.mark, dropped);
        self.low = first.unwrap_or(self.low);
    }

    fn drop_old(&mut self, now: Instant)
        ensures drops { IsBounded self.old → Drops self.old self.new now }
        ensures done { IsBounded self.old → IsDone self.new now }
    {
        for _step in 0..self.ring.len() {
            if self.advance(now) {
                return;
            }
        }
        self.sweep(now);
    }

    /// Drops the values that are older than the age, from the lowest position on, up to the first
    /// that is not. A moment before the last such call is passed over. Where positions rise by ones
    /// it looks at no more values than it drops and one; where they jump, at each slot at most
    /// twice.
    pub fn maybe_evict(&mut self, now: Instant)
        ensures stands { (past : Past T) → StandsFor self.old past → StandsFor self.new (with_event past (evicted now)) }
        ensures marks { (past : Past T) → StandsFor self.old past → MarksEviction (value_at self.old) (value_at self.new) self.old.mark self.new.mark }
    {
        if now.as_nanos() < self.timeout.as_nanos() {
            return;
        }
        self.drop_old(now);
        self.timeout = now;
    }

    /// Drops all values, and makes the buffer as new, with the slots that it has.
    pub fn clear(&mut self)
        ensures stands { (past : Past T) → StandsFor self.old past → StandsFor self.new (emptied past) }
        ensures marks { self.new.mark ≡ None }
    {
        drop_below(&mut self.ring, None);
        self.last = None;
        self.mark = None;
        self.low = u64::MAX;
        self.high = 0;
        self.timeout = Instant::from_nanos(0);
    }

    /// The value of a position, where it is held.
    #[tactic(auto, unfolding(crate::specs::EvictingBuffer::value_at))]
    pub fn get(&self, position: u64) -> Option<&T>
        ensures value { option_copied result ≡ value_at self.now position }
        ensures held { (past : Past T) → StandsFor self.now past → HeldAs past position (option_copied result) }
    {
        match entry_at(&self.ring, position) {
            Some(entry) => Some(&entry.value),
            None => None,
        }
    }

    /// The value of a position, where it is held, to be changed in its place.
    #[tactic(auto, unfolding(crate::specs::EvictingBuffer::value_at, crate::specs::EvictingBuffer::with_value))]
    pub fn get_mut(&mut self, position: u64) -> Option<&mut T>
        ensures* writes_back { sem 𝓛 (LendsValue T.row self.entry position result) }
        ensures value { option_copied_mut result ≡ value_at self.old position }
        ensures stands { OnSome result ((past : Past T) (w : T) → StandsFor self.old past → StandsFor (with_value self.old position w) (revalued past position w)) }
    {
        let index = place_of(&self.ring, position)?;
        let entry = self.ring[index].as_mut()?;
        Some(&mut entry.value)
    }

    /// Whether the value of a position is held.
    #[tactic(auto, unfolding(crate::specs::EvictingBuffer::value_at))]
    pub fn contains(&self, position: u64) -> bool
        ensures { result ≡ is_some (value_at self.now position) }
    {
        entry_at(&self.ring, position).is_some()
    }

    /// How many slots it grows to.
    pub fn max_size(&self) -> usize
        ensures { (past : Past T) → StandsFor self.now past → result ≡ size_of past }
    {
        self.size
    }

    /// The age beyond which it holds no value.
    pub fn max_age(&self) -> Duration
        ensures { (past : Past T) → StandsFor self.now past → result ≡ past.age }
    {
        self.age
    }

    /// The position that was stored last.
    pub fn last_position(&self) -> Option<u64>
        ensures { (past : Past T) → StandsFor self.now past → result ≡ last_position past.events }
    {
        self.last
    }

    /// The value of the position that was stored last, where it is held.
    pub fn last(&self) -> Option<&T>
        ensures { (past : Past T) → StandsFor self.now past → option_copied result ≡ option_and_then (value_at self.now) (last_position past.events) }
    {
        match self.last {
            Some(position) => self.get(position),
            None => None,
        }
    }
}

/// Whether an entry is not older than the age.
#[inline(always)]
fn is_young<T>(entry: &Entry<T>, now: Instant, age: Duration) -> bool
    ensures { result ≡ nat_le (now - entry.now.moment) age }
{
    now.as_nanos().saturating_sub(entry.moment.as_nanos()) <= age.as_nanos()
}

/// The mark after values were dropped for their age, of which this position is the greatest.
fn swept(mark: Option<u64>, dropped: Option<u64>) -> Option<u64>
    ensures { result ≡ swept_to mark dropped }
{
    match dropped {
        Some(dropped) => raised(mark, dropped),
        None => mark,
    }
}
