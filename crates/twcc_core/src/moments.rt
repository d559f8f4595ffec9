// The arrivals that feedback tells.
ghost use Rattle.std.specs.Prelude.{◌≡◌, IfOk};
ghost use Rattle.twcc_core.specs.Times.{moment_after, row_moment, moments_from, moments_of};
ghost use Rattle.twcc_core.specs.Runs.{left_of};

use crate::feedback::reference_bits;
use crate::{PacketStatus, StatusIter, Twcc};
use media_base::Listed;
use media_units::Instant;
use std::alloc::{AllocError, Global};

/// A step of deltas, in nanoseconds
/// (draft-holmer-rmcat-transport-wide-cc-extensions-01 section 3.1.5).
pub const DELTA_NANOS: u64 = 250_000;

/// A step of the reference time, in nanoseconds
/// (draft-holmer-rmcat-transport-wide-cc-extensions-01 section 3.1).
pub const REFERENCE_NANOS: u64 = 64_000_000;

// So many steps of 250 us after a moment, or before it, in nanoseconds.
fn later(moment: u64, delta: i16) -> u64
    ensures { result ≡ moment_after moment delta }
{
    if delta >= 0 {
        moment.saturating_add(delta as u64 * DELTA_NANOS)
    } else {
        moment.saturating_sub((0 - i64::from(delta)) as u64 * DELTA_NANOS)
    }
}

// When a packet came, if it did.
fn moment_of(last: u64, row: PacketStatus) -> Option<u64>
    ensures { result ≡ row_moment last row }
{
    match row {
        PacketStatus::NotReceived => None,
        PacketStatus::Received(delta) => Some(later(last, delta)),
    }
}

fn instant_at(nanos: Option<u64>) -> Option<Instant>
    ensures { result ≡ nanos }
{
    match nanos {
        Some(nanos) => Some(Instant::from_nanos(nanos)),
        None => None,
    }
}

fn moments_after(
    alloc: Global,
    start: u64,
    rows: StatusIter<'_>,
) -> Result<Listed<Option<Instant>>, AllocError>
    ensures { IfOk result (λ moments. moments ≡ moments_from start (left_of rows.entry)) }
{
    let mut moments = Listed::new(alloc);
    let mut last = start;
    for row in rows {
        let moment = moment_of(last, row);
        moments.push(instant_at(moment))?;
        last = moment.unwrap_or(last);
    }
    Ok(moments)
}

/// When each packet came that feedback speaks of, from the first number on, None where it did not.
/// The moments are the receiver's, in steps of 250 us from its beginning, and come round with the
/// reference time after 2^24 steps of 64 ms.
pub fn arrivals(alloc: Global, twcc: &Twcc) -> Result<Listed<Option<Instant>>, AllocError>
    ensures { IfOk result (λ moments. moments ≡ moments_of twcc.now) }
{
    let start = u64::from(reference_bits(twcc)) * REFERENCE_NANOS;
    moments_after(alloc, start, twcc.rows.iter())
}
