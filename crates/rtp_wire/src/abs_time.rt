// Moments as header extensions tell them.
ghost use Rattle.std.specs.Prelude.{◌≡◌, ◌%◌, ◌<◌, ◌≤◌, ◌^◌};
ghost use Rattle.media_units.specs.Wallclock.{ntp_nanos};
ghost use Rattle.rtp_wire.specs.AbsTime.{send_units, sent_at};

use media_units::{Beginning, Duration, Instant, InstantExt, already_happened};
use std::marker::Model;

/// The units of an absolute send time in a second: 18 bits are behind the point.
pub const SEND_TIME_UNITS: u64 = 0x4_0000;

/// The number of units behind the last one of an absolute send time, which has 24 bits.
pub const SEND_TIME_LIMIT: u64 = 0x100_0000;

/// When a packet was sent: NTP seconds in units of 2^-18 s, modulo 2^24. Contracts see the number.
#[derive(Clone, Copy, Debug, PartialEq, Eq, Hash)]
pub struct AbsSendTime(u32);

impl Model for AbsSendTime {
    ghost use Rattle.std.specs.Prelude.{ℕ, ◌<◌};
    ghost use Rattle.rtp_wire.specs.declared.abs_time.TheConstants.{SEND_TIME_LIMIT};

    ghost Value = { ℕ };

    ghost view = { λ t. t.0 };

    ghost invariant = { λ t. t.0 < SEND_TIME_LIMIT };

    ghost inverse = { λ n. record { 0 = n } };
}

fn units_of(length: Duration) -> u128
    ensures value { result ≡ send_units length }
    ensures bound { result < 2 ^ 53 }
{
    u128::from(length.as_nanos()) * SEND_TIME_UNITS as u128 / 1_000_000_000
}

impl AbsSendTime {
    /// The low 24 bits of a number of units of 2^-18 s.
    pub fn from_units(units: u64) -> Self
        ensures { result ≡ units % SEND_TIME_LIMIT }
    {
        AbsSendTime((units % SEND_TIME_LIMIT) as u32)
    }

    /// When a moment of a run is, rounded down.
    pub fn new(moment: Instant, beginning: &Beginning) -> Self
        ensures { result ≡ send_units (ntp_nanos beginning.now.unix_secs moment) % SEND_TIME_LIMIT }
    {
        AbsSendTime((units_of(moment.to_ntp_duration(beginning)) % SEND_TIME_LIMIT as u128) as u32)
    }

    /// The moment of a run that is nearest at or before `now` and has these 24 bits, rounded down:
    /// the beginning where that is before it.
    pub fn moment(self, now: Instant, beginning: &Beginning) -> Instant
        ensures value { result ≡ sent_at self beginning.now.unix_secs now }
        ensures before { result ≤ now }
    {
        let last = units_of(now.to_ntp_duration(beginning));
        let ago = (last + SEND_TIME_LIMIT as u128 - u128::from(self.0)) % SEND_TIME_LIMIT as u128;
        let nanos = last.saturating_sub(ago) * 1_000_000_000 / SEND_TIME_UNITS as u128;
        let start = already_happened().to_ntp_duration(beginning);
        Instant::from_nanos(nanos as u64).saturating_sub(start)
    }

    /// Units of 2^-18 s, modulo 2^24.
    pub fn units(self) -> u32
        ensures { result ≡ self }
    {
        self.0
    }
}

/// When media was captured: NTP seconds in units of 2^-32 s. Contracts see the number.
#[derive(Clone, Copy, Debug, PartialEq, Eq, PartialOrd, Ord, Hash)]
pub struct AbsCaptureTime(u64);

impl Model for AbsCaptureTime {
    ghost use Rattle.std.specs.Prelude.{ℕ};

    ghost Value = { ℕ };

    ghost view = { λ t. t.0 };

    ghost inverse = { λ n. record { 0 = n } };
}

impl AbsCaptureTime {
    /// The moment that 64 bits of NTP tell (RFC 3550 section 4).
    pub fn from_ntp_64(bits: u64) -> Self
        ensures { result ≡ bits }
    {
        AbsCaptureTime(bits)
    }

    /// The 64 bits of NTP (RFC 3550 section 4).
    pub fn as_ntp_64(self) -> u64
        ensures { result ≡ self }
    {
        self.0
    }
}
