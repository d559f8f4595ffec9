use media_units::{Duration, Instant};
use resend_core::EvictingBuffer;
use std::alloc::{AllocError, Global};
use std::test::Fail;

/// What is done to a buffer, and what it answers. Times are milliseconds.
#[derive(Clone, Copy)]
enum Step {
    /// The value is pushed under a position, at a time.
    Push(u64, u64, char),
    /// What is too old at a time goes.
    Evict(u64),
    /// All goes.
    Clear,
    /// The position has this value.
    Has(u64, char),
    /// The position has no value.
    Lacks(u64),
    /// The greatest position is this one.
    Last(Option<u64>),
    /// The value under the greatest position is this one.
    LastValue(char),
}

use Step::{Clear, Evict, Has, Lacks, Last, LastValue, Push};

/// A fresh buffer: its slots at first and at most, and its age in milliseconds.
#[derive(Clone, Copy)]
struct Made {
    slots: usize,
    age: u64,
    most: usize,
}

// What is too old goes by its position, also where a young value stands in an earlier slot; the
// mark then stands right above the greatest that went.
static BY_POSITION: [Step; 11] = [
    Push(0, 0, 'A'),
    Push(5, 0, 'B'),
    Push(13, 2_000, 'C'),
    Evict(3_500),
    Lacks(0),
    Lacks(5),
    Has(13, 'C'),
    Push(5, 3_500, 'D'),
    Lacks(5),
    Push(6, 3_500, 'E'),
    Has(6, 'E'),
];

// It grows until each has a slot of its own.
static GROWS: [Step; 11] = [
    Push(2, 0, 'A'),
    Push(3, 1_000, 'B'),
    Push(4, 2_000, 'C'),
    Has(2, 'A'),
    Has(3, 'B'),
    Has(4, 'C'),
    Last(Some(4)),
    LastValue('C'),
    Clear,
    Last(None),
    Lacks(4),
];

// What is older than ten seconds goes.
static AGES_OUT: [Step; 11] = [
    Push(5, 0, 'A'),
    Push(7, 2_000, 'C'),
    Push(8, 3_000, 'D'),
    Evict(13_000),
    Lacks(5),
    Lacks(7),
    Has(8, 'D'),
    Push(7, 14_000, 'E'),
    Lacks(7),
    Push(9, 12_000, 'F'),
    Lacks(9),
];

// At the greatest size the greater position stays.
static FULL: [Step; 8] = [
    Push(1, 0, 'A'),
    Push(2, 0, 'B'),
    Push(3, 0, 'C'),
    Lacks(1),
    Has(2, 'B'),
    Has(3, 'C'),
    Push(1, 0, 'D'),
    Has(3, 'C'),
];

fn millis(count: u64) -> Instant {
    Instant::from_nanos(count.saturating_mul(1_000_000))
}

fn has(buffer: &EvictingBuffer<char>, position: u64, value: Option<char>) -> bool {
    buffer.contains(position) == value.is_some() && buffer.get(position).copied() == value
}

fn push(
    buffer: &mut EvictingBuffer<char>,
    position: u64,
    time: u64,
    value: char,
) -> Result<bool, AllocError> {
    match buffer.push(position, millis(time), value) {
        Ok(_) => Ok(true),
        Err(error) => Err(error),
    }
}

// Takes a step, and tells whether the buffer answers so.
fn takes(buffer: &mut EvictingBuffer<char>, step: Step) -> Result<bool, AllocError> {
    match step {
        Push(position, time, value) => return push(buffer, position, time, value),
        Evict(time) => buffer.maybe_evict(millis(time)),
        Clear => buffer.clear(),
        Has(position, value) => return Ok(has(buffer, position, Some(value))),
        Lacks(position) => return Ok(has(buffer, position, None)),
        Last(position) => return Ok(buffer.last_position() == position),
        LastValue(value) => return Ok(buffer.last().copied() == Some(value)),
    }
    Ok(true)
}

// How many steps a fresh buffer takes and answers, up to the first that it answers otherwise.
fn taken(alloc: Global, made: Made, steps: &[Step]) -> Result<usize, AllocError> {
    let age = Duration::from_millis(made.age);
    let mut buffer = EvictingBuffer::new(alloc, made.slots, age, made.most)?;
    take_all(&mut buffer, steps)
}

fn take_all(buffer: &mut EvictingBuffer<char>, steps: &[Step]) -> Result<usize, AllocError> {
    for (at, step) in steps.iter().enumerate() {
        if !takes(buffer, *step)? {
            return Ok(at);
        }
    }
    Ok(steps.len())
}

#[test]
fn buffers_answer(rt: HostRuntime) -> Result<(), Fail> {
    let rows = [
        ((10, 3_000, 10), BY_POSITION.as_slice()),
        ((2, 10_000, 10), GROWS.as_slice()),
        ((4, 10_000, 10), AGES_OUT.as_slice()),
        ((1, 10_000, 2), FULL.as_slice()),
    ];
    for ((slots, age, most), steps) in rows {
        let taken = taken(rt.alloc(), Made { slots, age, most }, steps)?;
        assert_eq!(rt; taken, steps.len(), "steps of {slots}, {age} and {most}");
    }
    Ok(())
}
