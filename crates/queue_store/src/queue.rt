ghost use Rattle.std.specs.Prelude.{◌≡◌, ℕ, ◌+◌, ◌*◌, ◌^◌, ◌-◌, ◌<◌, ◌≤◌, ◌⊎◌, Bool, Option, Some, None, true, is_some, option_and_then, drop, length, OnSome, OnOk, OnErr, IfOk, IsOk};
ghost use Rattle.std.specs.Option.{option_copied};
ghost use Rattle.std.specs.Borrow.{sem};
ghost use Rattle.std.specs.Bool.{OnTrue};
ghost use Rattle.resend_core.specs.ResendStore.{evicted, Past, made, with_event, emptied, revalued, last_position, HeldAs, IsPassedOver, MarksPush, MarksEviction};
ghost use Rattle.queue_store.specs.Stamps.{first_of, AllAbove};
ghost use Rattle.queue_store.specs.Queue.{StandsFor, value_at, with_value, takes_push, Puts, Drops, IsOld, IsFar, IsThat, IsDone, held, put_held, IsPaired, index_of};

use crate::stamps::{Stamp, Stamps};
use crate::steps::Steps;
use crate::values::Values;
use media_units::{Duration, Instant};
use resend_core::mark::{begin, raised};
use resend_core::{ResendStore, event_laws};
use std::alloc::{AllocError, Global};
use std::sync::ledger::Ledger;

/// The fewest values that room is made for beside those that are held, where the size allows: a
/// choice.
const MIN_GROWTH: usize = 16;

/// How many times the values that are held room is made for beside them, where that is more: a
/// choice.
const GROWTH: usize = 3;

/// Values under rising positions, each until it is too old or its room is needed: a queue in which
/// a position is found at once where all between it and the greatest are held, else by halving. It
/// holds no position that is its size or more below the greatest.
#[derive(Debug, Drop)]
pub struct QueueStore<T> {
    stamps: Stamps,
    values: Values<T>,
    age: Duration,
    size: usize,
    last: Option<u64>,
    mark: Option<u64>,
    timeout: Instant,
}

impl<T: Drop> QueueStore<T> {
    #[inline(always)]
    fn takes(&self, position: u64, timestamp: Instant) -> bool
        ensures { result ≡ takes_push self.now position timestamp }
    {
        if self.age.as_nanos() == 0 || timestamp < self.timeout {
            return false;
        }
        match self.mark {
            Some(mark) => mark <= position,
            None => true,
        }
    }

    /// Makes room for four times the values that are held, at most for one more than the size.
    /// Without memory nothing changes.
    #[inline(never)]
    fn grow(&mut self) -> Result<(), AllocError>
        ensures { self.new ≡ self.old }
    {
        let held = self.values.len();
        let more = held.saturating_mul(GROWTH).max(MIN_GROWTH);
        let more = more.min(self.size.saturating_sub(held).saturating_add(1));
        self.values.reserve(more)?;
        self.stamps.reserve(more)
    }

    /// Puts a value under its position. Without memory nothing changes.
    #[inline(always)]
    fn put(&mut self, position: u64, moment: Instant, value: T) -> Result<(), AllocError>
        ensures ok { OnOk result (IsPaired self.old → Puts self.old self.new position moment value) }
        ensures err { OnErr result (self.new ≡ self.old) }
    {
        if self.values.is_full() {
            self.grow()?;
        }
        place(
            &mut self.stamps,
            &mut self.values,
            Stamp { position, moment },
            value,
        )?;
        self.last = Some(position);
        begin(&mut self.mark, position);
        Ok(())
    }

    /// The value of a position, where it is held, found by halving alone: each comparison of
    /// positions is a step. Where it is not among the n that are held there are at least log2 (n +
    /// 2) - 1.
    pub fn get_counted<L: Ledger>(&self, position: u64, steps: &mut Steps<L>) -> Option<&T>
        ensures value { option_copied result ≡ value_at self.now position }
        ensures cost { 2 ^ (steps.new - steps.old) ≤ 2 * length self.now.stamps + 1 }
        ensures counted { index_of self.now.stamps position ≡ None
            → length self.now.stamps + 2 ≤ 2 ^ (steps.new - steps.old + 1) }
    {
        let index = self.stamps.index_counted(position, steps)?;
        self.values.get(index)
    }

    /// Drops the value of the lowest position.
    #[inline(always)]
    fn drop_lowest(&mut self, lowest: Stamp)
        requires lowest { first_of self.old.stamps ≡ Some lowest }
        requires above { AllAbove lowest.position (drop 1 self.old.stamps) }
        ensures drops { IsPaired self.old → Drops (IsThat lowest) self.old self.new }
        ensures shorter { length self.new.stamps < length self.old.stamps }
    {
        self.stamps.pop_first();
        self.values.pop_first();
        self.mark = raised(self.mark, lowest.position);
    }

    /// Drops what is older than the age, from the lowest position on, up to the first that is not.
    fn drop_old(&mut self, now: Instant)
        ensures drops { IsPaired self.old → Drops (IsOld now self.old.age) self.old self.new }
        ensures done { IsPaired self.old → IsDone self.new now }
    {
        while let Some(lowest) = self.stamps.first() {
            let passed = now.as_nanos().saturating_sub(lowest.moment.as_nanos());
            if passed <= self.age.as_nanos() {
                return;
            }
            self.drop_lowest(lowest);
        }
    }

    /// Drops what is the size or more below the greatest position.
    #[inline(always)]
    fn trim(&mut self)
        ensures { IsPaired self.old → Drops (IsFar self.old) self.old self.new }
    {
        if self.stamps.span() < self.size as u64 {
            return;
        }
        self.trim_far();
    }

    /// The same, where something is so far below.
    #[inline(never)]
    fn trim_far(&mut self)
        ensures { IsPaired self.old → Drops (IsFar self.old) self.old self.new }
    {
        let Some(last) = self.stamps.last() else {
            return;
        };
        while let Some(lowest) = self.stamps.first() {
            match last.position.checked_sub(lowest.position) {
                Some(below) if self.size as u64 <= below => self.drop_lowest(lowest),
                _ => return,
            }
        }
    }
}

impl<T: Drop> ResendStore<T> for QueueStore<T> {
    ghost stands_for = { StandsFor };

    ghost value_at = { value_at };

    ghost with_value = { with_value };

    ghost mark = { λ q. q.mark };

    fn new(
        alloc: Global,
        initial_size: usize,
        max_age: Duration,
        max_size: usize,
    ) -> Result<Self, AllocError> {
        Ok(QueueStore {
            stamps: Stamps::new(alloc),
            values: Values::new(alloc),
            age: max_age,
            size: initial_size.max(max_size),
            last: None,
            mark: None,
            timeout: Instant::from_nanos(0),
        })
    }

    #[inline(always)]
    fn push(&mut self, position: u64, timestamp: Instant, value: T) -> Result<(), AllocError> {
        event_laws::<T>();
        if !self.takes(position, timestamp) {
            return Ok(());
        }
        self.put(position, timestamp, value)?;
        self.trim();
        Ok(())
    }

    fn maybe_evict(&mut self, now: Instant) {
        event_laws::<T>();
        if now.as_nanos() < self.timeout.as_nanos() {
            return;
        }
        self.drop_old(now);
        self.timeout = now;
    }

    fn clear(&mut self) {
        self.stamps.clear();
        self.values.clear();
        self.last = None;
        self.mark = None;
        self.timeout = Instant::from_nanos(0);
    }

    #[inline(always)]
    fn get(&self, position: u64) -> Option<&T> {
        let index = self.stamps.index(position)?;
        self.values.get(index)
    }

    fn get_mut(&mut self, position: u64) -> Option<&mut T> {
        event_laws::<T>();
        let index = self.stamps.index(position)?;
        self.values.get_mut(index)
    }

    fn contains(&self, position: u64) -> bool {
        self.get(position).is_some()
    }

    fn max_size(&self) -> usize {
        self.size
    }

    fn max_age(&self) -> Duration {
        self.age
    }

    fn last_position(&self) -> Option<u64> {
        self.last
    }

    fn last(&self) -> Option<&T> {
        match self.last {
            Some(position) => self.get(position),
            None => None,
        }
    }

    #[inline(always)]
    fn laws() {}
}

/// Puts a value at the place of its position, in both queues or none.
#[inline(always)]
fn place<T: Drop>(
    stamps: &mut Stamps,
    values: &mut Values<T>,
    stamp: Stamp,
    value: T,
) -> Result<(), AllocError>
    ensures ok { OnOk result (length stamps.old ≡ length values.old → (length stamps.new ≡ length values.new) × ((k : ℕ) → held stamps.new values.new k ≡ put_held stamp value stamps.old values.old k)) }
    ensures err { OnErr result ((stamps.new ≡ stamps.old) × (values.new ≡ values.old)) }
{
    match stamps.search(stamp.position) {
        Ok(index) => {
            stamps.set(index, stamp);
            values.set(index, value);
            Ok(())
        }
        Err(index) => {
            let end = index.min(values.len());
            values.insert(end, value)?;
            if stamps.insert(index, stamp).is_err() {
                values.remove(end);
                return Err(AllocError);
            }
            Ok(())
        }
    }
}
