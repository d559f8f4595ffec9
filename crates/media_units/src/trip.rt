ghost use Rattle.std.specs.Prelude.{◌≡◌, ◌+◌, ◌-◌, ◌<◌, ◌≤◌, SomeIff};
ghost use Rattle.media_units.specs.Trip.{middle_bits, trip_nanos};

use crate::Duration;

/// The round trip to a peer by its report block (RFC 3550, section 6.4.1), rounded down to
/// nanoseconds.
///
/// `ntp` is the moment now, counted from 1900. `delay` is the block's delay since the last report,
/// in 65,536ths of a second; it is 0 where the peer had no report. `last_report` is the middle 32
/// bits of the moment of that report. None where the peer had no report, or reports more than has
/// passed.
pub fn calculate_rtt(ntp: Duration, delay: u32, last_report: u32) -> Option<Duration>
    ensures { SomeIff result ((0 < delay) × (delay + last_report ≤ middle_bits ntp))
        (trip_nanos (middle_bits ntp - delay - last_report)) }
{
    if delay == 0 {
        return None;
    }
    let fraction = ntp.subsec_nanos() as u64 * u32::MAX as u64 / 1_000_000_000;
    let now = ntp.as_secs() % 65_536 * 65_536 + fraction / 65_536;
    let units = now
        .checked_sub(delay as u64)?
        .checked_sub(last_report as u64)?;
    let nanos = units / 65_536 * 1_000_000_000 + units % 65_536 * 1_000_000_000 / 65_535;
    Some(Duration::from_nanos(nanos))
}
