ghost use Rattle.std.specs.Prelude.{◌≡◌, ℕ, Bool, Option, Some, None, true, is_some, option_and_then, OnSome, OnOk, OnErr, IfOk, IsOk};
ghost use Rattle.std.specs.Option.{option_copied, option_copied_mut};
ghost use Rattle.std.specs.Borrow.{sem, LendsIf};
ghost use Rattle.resend_core.specs.ResendStore.{Past, evicted, with_event, emptied, made, size_of, revalued, last_position, HeldAs, IsPushedInto, IsPassedOver, MarksPush, MarksEviction};

use crate::rtx_cache_buf::EvictingBuffer;
use media_units::{Duration, Instant};
use std::alloc::{AllocError, Global};

/// What holds values under rising positions, each until it is too old or its room is needed.
pub trait ResendStore<T: Drop>: Drop {
    /// It was made with these limits, and this happened to it. One value may stand for several
    /// pasts.
    ghost stands_for: { Self → Past T → Type 0 };

    /// The value that is held under a position.
    ghost value_at: { Self → ℕ → Option T };

    /// It, with another value held under a position.
    ghost with_value: { Self → ℕ → T → Self };

    /// The position below which no push is looked at, where there is one: the first that was
    /// pushed, then one above the greatest that was dropped for its age.
    ghost mark: { Self → Option ℕ };

    /// One with room for so many values at first, and in the end for the greatest number, which
    /// holds no value longer than the age.
    fn new(
        alloc: Global,
        initial_size: usize,
        max_age: Duration,
        max_size: usize,
    ) -> Result<Self, AllocError>
        ensures stands { IfOk result (λ s. stands_for s (made initial_size max_age max_size)) }
        ensures marks { IfOk result (λ s. mark s ≡ None) };

    /// Stores a value under its position, or passes over it: where values are held for no time,
    /// where an eviction came at a later moment, and below the mark. Without memory nothing
    /// changes.
    fn push(&mut self, position: u64, timestamp: Instant, value: T) -> Result<(), AllocError>
        ensures ok { OnOk result ((past : Past T) → stands_for self.old past → IsPushedInto stands_for past position timestamp value self.new) }
        ensures passed { (past : Past T) → stands_for self.old past → IsPassedOver (mark self.old) past position timestamp → (self.new ≡ self.old) × IsOk result }
        ensures marked { OnOk result ((past : Past T) → stands_for self.old past → MarksPush (value_at self.old) (value_at self.new) past position timestamp (mark self.old) (mark self.new)) }
        ensures err { OnErr result (self.new ≡ self.old) };

    /// Drops values that are older than the age.
    fn maybe_evict(&mut self, now: Instant)
        ensures stands { (past : Past T) → stands_for self.old past → stands_for self.new (with_event past (evicted now)) }
        ensures marks { (past : Past T) → stands_for self.old past → MarksEviction (value_at self.old) (value_at self.new) (mark self.old) (mark self.new) };

    /// Drops all values.
    fn clear(&mut self)
        ensures stands { (past : Past T) → stands_for self.old past → stands_for self.new (emptied past) }
        ensures marks { mark self.new ≡ None };

    /// The value of a position, where it is held.
    fn get(&self, position: u64) -> Option<&T>
        ensures value { option_copied result ≡ value_at self.now position }
        ensures held { (past : Past T) → stands_for self.now past → HeldAs past position (option_copied result) };

    /// The value of a position, where it is held, to be changed in its place.
    fn get_mut(&mut self, position: u64) -> Option<&mut T>
        ensures* writes_back { sem 𝓛 (LendsIf Self.row T.row self.entry result (with_value self.entry.now position) self.entry.now) }
        ensures value { option_copied_mut result ≡ value_at self.old position }
        ensures stands { OnSome result ((past : Past T) (w : T) → stands_for self.old past → stands_for (with_value self.old position w) (revalued past position w)) };

    /// Whether the value of a position is held.
    fn contains(&self, position: u64) -> bool
        ensures { result ≡ is_some (value_at self.now position) };

    /// How many values it may hold in the end.
    fn max_size(&self) -> usize
        ensures { (past : Past T) → stands_for self.now past → result ≡ size_of past };

    /// The age beyond which it holds no value.
    fn max_age(&self) -> Duration
        ensures { (past : Past T) → stands_for self.now past → result ≡ past.age };

    /// The position that was stored last.
    fn last_position(&self) -> Option<u64>
        ensures { (past : Past T) → stands_for self.now past → result ≡ last_position past.events };

    /// The value of the position that was stored last, where it is held.
    fn last(&self) -> Option<&T>
        ensures { (past : Past T) → stands_for self.now past → option_copied result ≡ option_and_then (value_at self.now) (last_position past.events) };

    /// The laws of every store; the call computes nothing. What is held under a position is what
    /// the past lets be held. Another value under a position where one is held is held there, and
    /// changes nothing under other positions.
    fn laws()
        ensures holds { (s : Self) (past : Past T) (p : ℕ) → stands_for s past → HeldAs past p (value_at s p) }
        ensures here { (s : Self) (p : ℕ) (v w : T) → value_at s p ≡ Some v → value_at (with_value s p w) p ≡ Some w }
        ensures other { (s : Self) (p q : ℕ) (v w : T) → value_at s p ≡ Some v → (q ≡ p → ⊥) → value_at (with_value s p w) q ≡ value_at s q };
}

impl<T: Drop> ResendStore<T> for EvictingBuffer<T> {
    ghost use Rattle.resend_core.specs.EvictingBuffer.{StandsFor, value_at as value_of, with_value as with_value_at};

    ghost stands_for = { StandsFor };

    ghost value_at = { value_of };

    ghost with_value = { with_value_at };

    ghost mark = { λ b. b.mark };

    fn new(
        alloc: Global,
        initial_size: usize,
        max_age: Duration,
        max_size: usize,
    ) -> Result<Self, AllocError> {
        EvictingBuffer::new(alloc, initial_size, max_age, max_size)
    }

    #[inline(always)]
    fn push(&mut self, position: u64, timestamp: Instant, value: T) -> Result<(), AllocError> {
        EvictingBuffer::push(self, position, timestamp, value)
    }

    fn maybe_evict(&mut self, now: Instant) {
        EvictingBuffer::maybe_evict(self, now);
    }

    fn clear(&mut self) {
        EvictingBuffer::clear(self);
    }

    #[inline(always)]
    fn get(&self, position: u64) -> Option<&T> {
        EvictingBuffer::get(self, position)
    }

    fn get_mut(&mut self, position: u64) -> Option<&mut T> {
        EvictingBuffer::get_mut(self, position)
    }

    #[inline(always)]
    fn contains(&self, position: u64) -> bool {
        EvictingBuffer::contains(self, position)
    }

    fn max_size(&self) -> usize {
        EvictingBuffer::max_size(self)
    }

    fn max_age(&self) -> Duration {
        EvictingBuffer::max_age(self)
    }

    fn last_position(&self) -> Option<u64> {
        EvictingBuffer::last_position(self)
    }

    fn last(&self) -> Option<&T> {
        EvictingBuffer::last(self)
    }

    #[inline(always)]
    fn laws() {}
}
