//! The round trip that an exchange of reports tells.
ghost use Rattle.std.specs.Prelude.{◌≡◌, ℕ, ◌+◌, ◌-◌, ◌*◌, ◌^◌, ◌<◌, ◌≤◌, IsSomeAnd};
ghost use Rattle.media_units.specs.Wallclock.{nanos_1900, ntp_nanos, ntp_of_unix, unix_of_ntp};
ghost use Rattle.report_core.specs.Exchange.{span_of};
ghost use Rattle.report_core.specs.LastReport.{compact_of, delay_units};
ghost use Rattle.report_core.specs.Trip.{trip_told};

use media_units::{Beginning, Duration, Instant};
use report_core::{
    LEAST_HELD_NANOS, SenderNews, TRIP_ERROR_NANOS, sender_trip, trips_are_measured,
};
use rtcp_items::SenderInfo;
use rtp_base::ReceptionReport;

/// The round trip that a sender learns: its report came to a receiver, which told of it later in
/// the block of what it had counted, and the block came back. The receiver's moments are its own.
pub fn measured_trip(
    info: SenderInfo,
    counted: &ReceptionReport,
    came: Instant,
    told: Instant,
    back: Instant,
    beginning: &Beginning,
) -> Option<Duration>
    ensures trip { result ≡ trip_told (ntp_nanos beginning.now.unix_secs back)
        (delay_units (told - came)) (compact_of info.ntp_time) }
    ensures measured { let held = told - came in (unix trip : ℕ)
        → info.ntp_time ≡ unix_of_ntp (ntp_of_unix unix)
        → beginning.now.unix_secs * 1000000000 + back ≡ unix + held + trip
        → unix + held + trip + nanos_1900 < 2 ^ 32 * 1000000000
        → span_of unix ≡ span_of (unix + held + trip) → LEAST_HELD_NANOS ≤ held → TRIP_ERROR_NANOS ≤ trip
        → IsSomeAnd result (λ t. (t ≤ trip + TRIP_ERROR_NANOS) × (trip ≤ t + TRIP_ERROR_NANOS)) }
{
    trips_are_measured();
    let ssrc = info.ssrc;
    let mut news = SenderNews::new();
    news.take(info, came);
    let block = news.block(ssrc, counted, told);
    sender_trip(&block, back, beginning)
}
