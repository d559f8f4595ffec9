ghost use Rattle.std.specs.Prelude.{◌≡◌, ◌<◌, ◌%◌, slice_set, Some, None, map, replicate, length, IfOk, IfSome};
ghost use Rattle.std.specs.Option.{option_copied};
ghost use Rattle.resend_core.specs.Ring.{slot_of, held, place_in, has_room, is_other, put_in, settled, settled_all, least_young, lower as lower_of, kept_from, raise, raised_all};

use media_units::{Duration, Instant};
use std::alloc::{AllocError, Global};

/// A value under its position, and when it was stored. Position and value, which a look-up reads,
/// stand side by side.
#[derive(Debug, Drop)]
pub struct Entry<T> {
    pub position: u64,
    pub value: T,
    pub moment: Instant,
}

/// The index of the slot of a position: its remainder, which of a low position is the position.
#[inline(always)]
#[tactic(auto, using(crate::proofs::RingLaws::low_rest))]
pub fn slot_index(position: u64, slots: usize) -> usize
    requires { 0 < slots }
    ensures value { result ≡ position % slots }
    ensures within { result < slots }
{
    if position < slots as u64 {
        position as usize
    } else {
        (position % slots as u64) as usize
    }
}

/// The entry of a position, which stands in this slot or is not held.
#[inline(always)]
pub fn entry_in<T>(ring: &[Option<Entry<T>>], index: usize, position: u64) -> Option<&Entry<T>>
    requires some { 0 < length ring.now }
    requires slot { index ≡ position % length ring.now }
    ensures { option_copied result ≡ held ring.now position }
{
    match &ring[index] {
        Some(entry) if entry.position == position => Some(entry),
        _ => None,
    }
}

/// The entry of a position, which stands in the slot of its remainder.
#[inline(always)]
pub fn entry_at<T>(ring: &[Option<Entry<T>>], position: u64) -> Option<&Entry<T>>
    ensures { option_copied result ≡ held ring.now position }
{
    if ring.is_empty() {
        return None;
    }
    entry_in(ring, slot_index(position, ring.len()), position)
}

/// The index of the slot of a position, where its entry stands there.
#[inline(always)]
pub fn place_of<T>(ring: &[Option<Entry<T>>], position: u64) -> Option<usize>
    ensures place { result ≡ place_in ring.now position }
    ensures within { IfSome result (λ i. i < length ring.now) }
{
    if ring.is_empty() {
        return None;
    }
    let index = slot_index(position, ring.len());
    match &ring[index] {
        Some(entry) if entry.position == position => Some(index),
        _ => None,
    }
}

/// Whether the slot of a position has no entry of a greater one.
#[inline(always)]
pub fn is_free<T>(ring: &[Option<Entry<T>>], index: usize, position: u64) -> bool
    requires some { 0 < length ring.now }
    requires slot { index ≡ position % length ring.now }
    ensures { result ≡ has_room ring.now position }
{
    match &ring[index] {
        Some(entry) => entry.position <= position,
        None => true,
    }
}

/// Whether an entry of another position stands in the slot of a position.
#[inline(always)]
pub fn is_occupied<T>(ring: &[Option<Entry<T>>], index: usize, position: u64) -> bool
    requires some { 0 < length ring.now }
    requires slot { index ≡ position % length ring.now }
    ensures { result ≡ is_other position (slot_of ring.now position) }
{
    match &ring[index] {
        Some(entry) => entry.position != position,
        None => false,
    }
}

/// Drops the entry in a slot.
#[inline(always)]
pub fn drop_at<T: Drop>(ring: &mut [Option<Entry<T>>], index: usize)
    requires { index < length ring.old }
    ensures { ring.new ≡ slice_set ring.old index None }
{
    ring[index] = None;
}

/// Puts an entry into the slot of its position.
#[inline(always)]
pub fn put<T: Drop>(ring: &mut [Option<Entry<T>>], index: usize, entry: Entry<T>)
    requires some { 0 < length ring.old }
    requires slot { index ≡ entry.position % length ring.old }
    ensures { ring.new ≡ put_in ring.old entry }
{
    ring[index] = Some(entry);
}

/// Puts an entry into the slot of its position, unless an entry stands there of a position that is
/// no lower.
#[inline(always)]
pub fn settle<T: Drop>(ring: &mut [Option<Entry<T>>], entry: Entry<T>)
    requires { 0 < length ring.old }
    ensures { ring.new ≡ settled ring.old (Some entry) }
{
    let index = slot_index(entry.position, ring.len());
    let free = match &ring[index] {
        Some(other) => other.position < entry.position,
        None => true,
    };
    if free {
        ring[index] = Some(entry);
    }
}

/// Moves all entries into another ring.
pub fn move_all<T: Drop>(ring: &mut [Option<Entry<T>>], old: &mut [Option<Entry<T>>])
    requires { 0 < length ring.old }
    ensures { ring.new ≡ settled_all ring.old old.old }
{
    for slot in old.iter_mut() {
        if let Some(entry) = slot.take() {
            settle(ring, entry);
        }
    }
}

/// A ring of so many slots with no entry.
pub fn blank<T: Drop>(alloc: Global, size: usize) -> Result<Vec<Option<Entry<T>>>, AllocError>
    ensures { IfOk result (λ r. r.items ≡ replicate size None) }
{
    let mut ring = Vec::with_capacity(alloc, size)?;
    for _count in 0..size {
        ring.push_reserved(None);
    }
    Ok(ring)
}

/// The lowest position of an entry that is not older than the age.
pub fn first_young<T>(ring: &[Option<Entry<T>>], now: Instant, age: Duration) -> Option<u64>
    ensures { result ≡ least_young now age None ring.now }
{
    let mut first = None;
    for slot in ring {
        if let Some(entry) = slot {
            let passed = now.as_nanos().saturating_sub(entry.moment.as_nanos());
            if passed <= age.as_nanos() {
                first = lower(first, entry.position);
            }
        }
    }
    first
}

fn lower(first: Option<u64>, position: u64) -> Option<u64>
    ensures { result ≡ lower_of first position }
{
    match first {
        Some(other) if other <= position => first,
        _ => Some(position),
    }
}

/// What stays of a slot when the entries of positions below the first are dropped, all of them
/// where there is none.
fn kept<T: Drop>(slot: Option<Entry<T>>, first: Option<u64>) -> Option<Entry<T>>
    ensures { result ≡ kept_from first slot }
{
    match slot {
        Some(entry) => match first {
            Some(first) if first <= entry.position => Some(entry),
            _ => None,
        },
        None => None,
    }
}

/// Drops the entries of positions below the first, all of them where there is none.
fn keep_from<T: Drop>(ring: &mut [Option<Entry<T>>], first: Option<u64>)
    ensures { ring.new ≡ map (kept_from first) ring.old }
{
    for slot in ring.iter_mut() {
        let old = slot.take();
        *slot = kept(old, first);
    }
}

/// Drops the entries of positions below the first, all of them where there is none.
pub fn drop_below<T: Drop>(ring: &mut Vec<Option<Entry<T>>>, first: Option<u64>)
    ensures { ring.new.items ≡ map (kept_from first) ring.old.items }
{
    keep_from(ring, first);
}

/// The position of the slot's entry, if it is below the first, any where there is none, and above
/// the last; else the last.
fn raised<T>(last: Option<u64>, slot: &Option<Entry<T>>, first: Option<u64>) -> Option<u64>
    ensures { result ≡ raise last slot.now first }
{
    let Some(entry) = slot else {
        return last;
    };
    let below = match first {
        Some(first) => entry.position < first,
        None => true,
    };
    let above = match last {
        Some(last) => last < entry.position,
        None => true,
    };
    if below && above {
        Some(entry.position)
    } else {
        last
    }
}

/// The greatest position of an entry below the first, of any entry where there is none.
pub fn last_below<T>(ring: &[Option<Entry<T>>], first: Option<u64>) -> Option<u64>
    ensures { result ≡ raised_all None ring.now first }
{
    let mut last = None;
    for slot in ring {
        last = raised(last, slot, first);
    }
    last
}
