// Moments against the calendar: Unix time, and the time of NTP in which RFC 3550 tells them.
ghost use Rattle.std.specs.Prelude.{◌≡◌, ◌==◌, ◌+◌, ◌-◌, ◌*◌, ◌/◌, ◌^◌, ◌<◌, ◌≤◌, ℕ, min};
ghost use Rattle.media_units.specs.Wallclock.{unix_nanos, ntp_nanos, unix_of_ntp, ntp_of_unix};

use crate::{Duration, Instant};
use std::marker::Model;

/// The Unix time, in seconds, of the moment that all others are counted from.
#[derive(Clone, Copy, Debug, PartialEq, Eq)]
pub struct Beginning {
    /// Seconds from the Unix epoch.
    pub unix_secs: u64,
}

/// From the Unix epoch to the beginning, at most 2^64 - 1 ns.
pub fn epoch_to_beginning(beginning: &Beginning) -> Duration
    ensures { result ≡ min (beginning.now.unix_secs * 1000000000) (2 ^ 64 - 1) }
{
    Duration::from_secs(beginning.unix_secs)
}

/// A moment of the calendar, in nanoseconds from the Unix epoch. Contracts see the number.
#[derive(Clone, Copy, Debug, PartialEq, Eq, PartialOrd, Ord, Hash)]
pub struct SystemTime {
    nanos: u64,
}

impl Model for SystemTime {
    ghost use Rattle.std.specs.Prelude.{ℕ};

    ghost Value = { ℕ };

    ghost view = { λ t. t.nanos };

    ghost inverse = { λ n. record { nanos = n } };
}

impl SystemTime {
    /// So many nanoseconds from the Unix epoch.
    pub fn from_unix_nanos(nanos: u64) -> Self
        ensures { result ≡ nanos }
    {
        SystemTime { nanos }
    }

    /// Nanoseconds from the Unix epoch.
    pub fn as_unix_nanos(self) -> u64
        ensures { result ≡ self }
    {
        self.nanos
    }
}

/// A moment counted from a beginning, told by the calendar.
pub trait InstantExt {
    /// Nanoseconds from the beginning.
    ghost nanos: { Self → ℕ };

    /// From the Unix epoch to this moment, at most 2^64 - 1 ns.
    fn to_unix_duration(&self, beginning: &Beginning) -> Duration
        ensures { result ≡ unix_nanos beginning.now.unix_secs (nanos self.now) };

    /// From 1900 to this moment, as NTP counts, at most 2^64 - 1 ns.
    fn to_ntp_duration(&self, beginning: &Beginning) -> Duration
        ensures { result ≡ ntp_nanos beginning.now.unix_secs (nanos self.now) };

    /// This moment by the calendar, at most 2^64 - 1 ns from the Unix epoch.
    fn to_system_time(&self, beginning: &Beginning) -> SystemTime
        ensures { result ≡ unix_nanos beginning.now.unix_secs (nanos self.now) };
}

impl InstantExt for Instant {
    ghost nanos = { λ i. i };

    fn to_unix_duration(&self, beginning: &Beginning) -> Duration {
        epoch_to_beginning(beginning).saturating_add(Duration::from_nanos(self.as_nanos()))
    }

    fn to_ntp_duration(&self, beginning: &Beginning) -> Duration {
        self.to_unix_duration(beginning)
            .saturating_add(Duration::from_secs(SECONDS_1900))
    }

    fn to_system_time(&self, beginning: &Beginning) -> SystemTime {
        SystemTime::from_unix_nanos(self.to_unix_duration(beginning).as_nanos())
    }
}

/// Seconds from 1900 to the Unix epoch: 70 years, 17 of them with a leap day (RFC 868).
pub const SECONDS_1900: u64 = 2_208_988_800;

/// A moment of the calendar, and the 64 bits that tell it in RTCP (RFC 3550, section 4): seconds
/// from 1900 in the upper 32 bits, their fraction in the lower.
pub trait SystemTimeExt {
    /// Nanoseconds from the Unix epoch.
    ghost unix: { Self → ℕ };

    /// The last whole nanosecond at or before these bits. Before 1970 is 1970.
    fn from_ntp_64(bits: u64) -> Self
        ensures { unix result ≡ unix_of_ntp bits };

    /// The last bits at or before this moment, at most 2^64 - 1 (from 2036 on).
    fn as_ntp_64(&self) -> u64
        ensures { result ≡ ntp_of_unix (unix self.now) };
}

impl SystemTimeExt for SystemTime {
    ghost unix = { λ t. t };

    fn from_ntp_64(bits: u64) -> Self {
        let since_1900 = bits as u128 * 1_000_000_000 / 4_294_967_296;
        let before_1970 = SECONDS_1900 as u128 * 1_000_000_000;
        SystemTime::from_unix_nanos(since_1900.saturating_sub(before_1970) as u64)
    }

    fn as_ntp_64(&self) -> u64 {
        let since_1900 = self.nanos as u128 + SECONDS_1900 as u128 * 1_000_000_000;
        let bits = since_1900 * 4_294_967_296 / 1_000_000_000;
        bits.min(u64::MAX as u128) as u64
    }
}
