// Timing a row.

use crate::error::BenchError;
use crate::table::Row;
use std::alloc::Global;
use std::time::{Clock, Instant};

/// What a row's rounds came to.
#[derive(Clone, Copy)]
pub struct Figure {
    /// The median time of a round, in tenths of a nanosecond an operation.
    pub tenths: u64,
    /// What the last round answered.
    pub answer: u64,
}

/// How many rounds a row is timed for.
const ROUNDS: usize = 5;

// The time of a round in nanoseconds, and what it answered.
fn play_round<C: Clock>(clock: &C, alloc: Global, row: &Row) -> Result<(u64, u64), BenchError> {
    let start = Instant::now(clock)?;
    let answer = row.work.play(alloc, row.count)?;
    let nanos = start.elapsed(clock)?.as_nanos();
    Ok((nanos.min(0xffff_ffff_ffff) as u64, answer))
}

// The one in the middle of the times in order.
fn median(times: [u64; ROUNDS]) -> u64 {
    let mut sorted = times;
    sorted.sort_unstable();
    sorted[ROUNDS / 2]
}

/// Times some rounds of a row.
///
/// # Errors
/// `Clock` where the clock cannot be read, `Memory`.
pub fn time_row<C: Clock>(clock: &C, alloc: Global, row: &Row) -> Result<Figure, BenchError> {
    let mut times = [0; ROUNDS];
    let mut answer = 0;
    for i in 0..ROUNDS {
        let (nanos, told) = play_round(clock, alloc, row)?;
        times[i] = nanos;
        answer = told;
    }
    let tenths = median(times).saturating_mul(10) / row.count.max(1);
    Ok(Figure { tenths, answer })
}
