// Moments and lengths of time, as numbers of nanoseconds.
ghost use Rattle.std.specs.Prelude.{◌≡◌, ◌==◌, ◌+◌, ◌-◌, ◌*◌, ◌/◌, ◌%◌, ◌^◌, ◌<◌, ◌≤◌, min, SomeIff};

use std::marker::Model;

/// A moment, in nanoseconds from a beginning. Contracts see the number.
#[derive(Clone, Copy, Debug, PartialEq, Eq, PartialOrd, Ord, Hash)]
pub struct Instant {
    nanos: u64,
}

impl Model for Instant {
    ghost use Rattle.std.specs.Prelude.{ℕ};

    ghost Value = { ℕ };

    ghost view = { λ i. i.nanos };

    ghost inverse = { λ n. record { nanos = n } };
}

impl Instant {
    /// The moment so many nanoseconds after the beginning.
    pub fn from_nanos(nanos: u64) -> Self
        ensures { result ≡ nanos }
    {
        Instant { nanos }
    }

    /// Nanoseconds from the beginning.
    pub fn as_nanos(self) -> u64
        ensures { result ≡ self }
    {
        self.nanos
    }

    /// The moment that much later, or None where it is past the last one, 2^64 - 1 ns.
    pub fn checked_add(self, length: Duration) -> Option<Self>
        ensures { SomeIff result (self + length < 2 ^ 64) (self + length) }
    {
        let nanos = self.nanos.checked_add(length.nanos)?;
        Some(Instant { nanos })
    }

    /// The moment that much earlier, or None where it is before the beginning.
    pub fn checked_sub(self, length: Duration) -> Option<Self>
        ensures { SomeIff result (length ≤ self) (self - length) }
    {
        let nanos = self.nanos.checked_sub(length.nanos)?;
        Some(Instant { nanos })
    }

    /// The moment that much later, or the last one, 2^64 - 1 ns.
    pub fn saturating_add(self, length: Duration) -> Self
        ensures { result ≡ min (self + length) (2 ^ 64 - 1) }
    {
        Instant {
            nanos: self.nanos.saturating_add(length.nanos),
        }
    }

    /// The moment that much earlier, or the beginning.
    pub fn saturating_sub(self, length: Duration) -> Self
        ensures { result ≡ self - length }
    {
        Instant {
            nanos: self.nanos.saturating_sub(length.nanos),
        }
    }

    /// How long after `earlier` this moment is, or None where it is before.
    pub fn checked_duration_since(self, earlier: Instant) -> Option<Duration>
        ensures { SomeIff result (earlier ≤ self) (self - earlier) }
    {
        let nanos = self.nanos.checked_sub(earlier.nanos)?;
        Some(Duration { nanos })
    }

    /// How long after `earlier` this moment is, or no time where it is before.
    pub fn duration_since(self, earlier: Instant) -> Duration
        ensures { result ≡ self - earlier }
    {
        self.saturating_duration_since(earlier)
    }

    /// How long after `earlier` this moment is, or no time where it is before.
    pub fn saturating_duration_since(self, earlier: Instant) -> Duration
        ensures { result ≡ self - earlier }
    {
        Duration {
            nanos: self.nanos.saturating_sub(earlier.nanos),
        }
    }
}

/// The beginning: whatever was due then is due.
pub fn already_happened() -> Instant
    ensures { result ≡ 0 }
{
    Instant { nanos: 0 }
}

/// How long after the beginning the moment is that never comes, in seconds: a hundred years of 365
/// days, a choice.
pub const NOT_HAPPENING_SECONDS: u64 = 3_153_600_000;

/// A moment that never comes: a hundred years of 365 days after the beginning.
pub fn not_happening() -> Instant
    ensures { result ≡ NOT_HAPPENING_SECONDS * 1000000000 }
{
    Instant {
        nanos: NOT_HAPPENING_SECONDS * 1_000_000_000,
    }
}

/// A length of time, in nanoseconds. Contracts see the number.
#[derive(Clone, Copy, Debug, PartialEq, Eq, PartialOrd, Ord, Hash)]
pub struct Duration {
    nanos: u64,
}

impl Model for Duration {
    ghost use Rattle.std.specs.Prelude.{ℕ};

    ghost Value = { ℕ };

    ghost view = { λ d. d.nanos };

    ghost inverse = { λ n. record { nanos = n } };
}

impl Duration {
    /// No time.
    pub const ZERO: Duration = Duration { nanos: 0 };

    /// So many nanoseconds.
    pub fn from_nanos(nanos: u64) -> Self
        ensures { result ≡ nanos }
    {
        Duration { nanos }
    }

    /// So many microseconds, at most 2^64 - 1 ns.
    pub fn from_micros(micros: u64) -> Self
        ensures { result ≡ min (micros * 1000) (2 ^ 64 - 1) }
    {
        Duration {
            nanos: micros.saturating_mul(1_000),
        }
    }

    /// So many milliseconds, at most 2^64 - 1 ns.
    pub fn from_millis(millis: u64) -> Self
        ensures { result ≡ min (millis * 1000000) (2 ^ 64 - 1) }
    {
        Duration {
            nanos: millis.saturating_mul(1_000_000),
        }
    }

    /// So many seconds, at most 2^64 - 1 ns.
    pub fn from_secs(secs: u64) -> Self
        ensures { result ≡ min (secs * 1000000000) (2 ^ 64 - 1) }
    {
        Duration {
            nanos: secs.saturating_mul(1_000_000_000),
        }
    }

    /// The length in nanoseconds.
    pub fn as_nanos(self) -> u64
        ensures { result ≡ self }
    {
        self.nanos
    }

    /// The whole microseconds in it.
    pub fn as_micros(self) -> u64
        ensures { result ≡ self / 1000 }
    {
        self.nanos / 1_000
    }

    /// The whole milliseconds in it.
    pub fn as_millis(self) -> u64
        ensures { result ≡ self / 1000000 }
    {
        self.nanos / 1_000_000
    }

    /// The whole seconds in it.
    pub fn as_secs(self) -> u64
        ensures { result ≡ self / 1000000000 }
    {
        self.nanos / 1_000_000_000
    }

    /// The nanoseconds past its whole seconds.
    pub fn subsec_nanos(self) -> u32
        ensures { result ≡ self % 1000000000 }
    {
        (self.nanos % 1_000_000_000) as u32
    }

    /// Whether it is no time.
    pub fn is_zero(self) -> bool
        ensures { result ≡ (self == 0) }
    {
        self.nanos == 0
    }

    /// The sum, or None where it is above 2^64 - 1 ns.
    pub fn checked_add(self, more: Duration) -> Option<Self>
        ensures { SomeIff result (self + more < 2 ^ 64) (self + more) }
    {
        let nanos = self.nanos.checked_add(more.nanos)?;
        Some(Duration { nanos })
    }

    /// The difference, or None where it is below no time.
    pub fn checked_sub(self, less: Duration) -> Option<Self>
        ensures { SomeIff result (less ≤ self) (self - less) }
    {
        let nanos = self.nanos.checked_sub(less.nanos)?;
        Some(Duration { nanos })
    }

    /// So many times this length, or None where it is above 2^64 - 1 ns.
    pub fn checked_mul(self, times: u64) -> Option<Self>
        ensures { SomeIff result (self * times < 2 ^ 64) (self * times) }
    {
        let nanos = self.nanos.checked_mul(times)?;
        Some(Duration { nanos })
    }

    /// The sum, at most 2^64 - 1 ns.
    pub fn saturating_add(self, more: Duration) -> Self
        ensures { result ≡ min (self + more) (2 ^ 64 - 1) }
    {
        Duration {
            nanos: self.nanos.saturating_add(more.nanos),
        }
    }

    /// The difference, at least no time.
    pub fn saturating_sub(self, less: Duration) -> Self
        ensures { result ≡ self - less }
    {
        Duration {
            nanos: self.nanos.saturating_sub(less.nanos),
        }
    }

    /// So many times this length, at most 2^64 - 1 ns.
    pub fn saturating_mul(self, times: u64) -> Self
        ensures { result ≡ min (self * times) (2 ^ 64 - 1) }
    {
        Duration {
            nanos: self.nanos.saturating_mul(times),
        }
    }
}
