//! The round trip to a peer, as its reports tell it.
ghost use Rattle.std.specs.Prelude.{◌≡◌};
ghost use Rattle.media_units.specs.Wallclock.{ntp_nanos};
ghost use Rattle.report_core.specs.Trip.{trip_told};
ghost use Rattle.report_core.specs.Exchange.{TripsAreMeasured};

use media_units::{Beginning, Duration, Instant, InstantExt, calculate_rtt};
use rtcp_items::DlrrItem;
use rtp_base::ReceptionReport;

/// How long a peer holds a moment at least where the round trip is measured, in nanoseconds: the
/// delay that it tells is then at least a 65,536th of a second (RFC 3550 section 6.4.1).
pub const LEAST_HELD_NANOS: u64 = 16_000;

/// How far a round trip that is told is from the one that was at most, and how long that takes at
/// least where so much is promised, in nanoseconds.
pub const TRIP_ERROR_NANOS: u64 = 50_000;

/// The round trip that the answer to a receiver's moment tells, where it comes at a moment (RFC
/// 3611 section 4.5), rounded down to nanoseconds. None where its delay is 0, or it tells more than
/// passed. Takes constant time.
pub fn receiver_trip(item: &DlrrItem, now: Instant, beginning: &Beginning) -> Option<Duration>
    ensures { result ≡ trip_told (ntp_nanos beginning.now.unix_secs now)
        item.now.last_rr_delay item.now.last_rr_time }
{
    let ntp = now.to_ntp_duration(beginning);
    calculate_rtt(ntp, item.last_rr_delay, item.last_rr_time)
}

/// The round trip that a reception block tells, where it comes at a moment (RFC 3550 section
/// 6.4.1), as `receiver_trip` of a sender report's moment.
pub fn sender_trip(block: &ReceptionReport, now: Instant, beginning: &Beginning) -> Option<Duration>
    ensures { result ≡ trip_told (ntp_nanos beginning.now.unix_secs now)
        block.now.last_sr_delay block.now.last_sr_time }
{
    let ntp = now.to_ntp_duration(beginning);
    calculate_rtt(ntp, block.last_sr_delay, block.last_sr_time)
}

/// A round trip that is measured by an exchange of reports is told to 50 us.
#[tactic(auto, using(crate::proofs::Exchange::trips_are_measured))]
pub fn trips_are_measured()
    ensures { TripsAreMeasured }
{}
