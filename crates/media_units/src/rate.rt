// Rates, sizes, and what is owed at a rate.
ghost use Rattle.std.specs.Prelude.{◌≡◌, ◌==◌, ◌+◌, ◌-◌, ◌*◌, ◌/◌, ◌^◌, ◌<◌, ◌≤◌, min};
ghost use Rattle.std.specs.Int.{div_ceil};

use crate::Duration;
use std::marker::Model;
use std::ops::Mul;

/// The greatest rate, in bits a second: a choice.
pub const GREATEST_RATE: u64 = 10_000_000_000;

/// A rate in bits a second, at most 10,000,000,000. Contracts see the number.
#[derive(Clone, Copy, Debug, PartialEq, Eq, PartialOrd, Ord, Hash)]
pub struct Bitrate {
    bits: u64,
}

impl Model for Bitrate {
    ghost use Rattle.std.specs.Prelude.{ℕ, ◌≤◌};
    ghost use Rattle.media_units.specs.declared.rate.TheConstants.{GREATEST_RATE};

    ghost Value = { ℕ };

    ghost view = { λ r. r.bits };

    ghost invariant = { λ r. r.bits ≤ GREATEST_RATE };

    ghost inverse = { λ n. record { bits = n } };
}

impl Bitrate {
    /// So many bits a second, at most 10,000,000,000.
    pub fn bps(bits: u64) -> Self
        ensures { result ≡ min bits GREATEST_RATE }
    {
        Bitrate {
            bits: bits.min(GREATEST_RATE),
        }
    }

    /// So many thousand bits a second, at most 10,000,000,000 bits.
    pub fn kbps(kilobits: u64) -> Self
        ensures { result ≡ min (kilobits * 1000) GREATEST_RATE }
    {
        Self::bps(kilobits.saturating_mul(1_000))
    }

    /// So many million bits a second, at most 10,000,000,000 bits.
    pub fn mbps(megabits: u64) -> Self
        ensures { result ≡ min (megabits * 1000000) GREATEST_RATE }
    {
        Self::bps(megabits.saturating_mul(1_000_000))
    }

    /// The bits a second.
    pub fn as_u64(self) -> u64
        ensures value { result ≡ self }
        ensures at_most { result ≤ GREATEST_RATE }
    {
        self.bits
    }

    /// Whether nothing is sent at this rate.
    pub fn is_zero(self) -> bool
        ensures { result ≡ (self == 0) }
    {
        self.bits == 0
    }
}

/// What is owed after that long at this rate.
impl Mul<Duration> for Bitrate {
    type Output = Debt;

    ghost mul_gives = { λ rate length debt. debt ≡ rate * length };

    fn mul(self, length: Duration) -> Debt {
        Debt {
            billionths: self.bits as u128 * length.as_nanos() as u128,
        }
    }
}

/// A number of bytes. Contracts see the number.
#[derive(Clone, Copy, Debug, PartialEq, Eq, PartialOrd, Ord, Hash)]
pub struct DataSize {
    count: u64,
}

impl Model for DataSize {
    ghost use Rattle.std.specs.Prelude.{ℕ};

    ghost Value = { ℕ };

    ghost view = { λ s. s.count };

    ghost inverse = { λ n. record { count = n } };
}

impl DataSize {
    /// So many bytes.
    pub fn bytes(count: u64) -> Self
        ensures { result ≡ count }
    {
        DataSize { count }
    }

    /// The bytes.
    pub fn as_u64(self) -> u64
        ensures { result ≡ self }
    {
        self.count
    }

    /// Whether it is no bytes.
    pub fn is_zero(self) -> bool
        ensures { result ≡ (self == 0) }
    {
        self.count == 0
    }

    /// The sum, at most 2^64 - 1 bytes.
    pub fn saturating_add(self, more: DataSize) -> Self
        ensures { result ≡ min (self + more) (2 ^ 64 - 1) }
    {
        DataSize {
            count: self.count.saturating_add(more.count),
        }
    }

    /// The difference, at least 0 bytes.
    pub fn saturating_sub(self, less: DataSize) -> Self
        ensures { result ≡ self - less }
    {
        DataSize {
            count: self.count.saturating_sub(less.count),
        }
    }

    /// What so many bytes owe: 8 bits each.
    pub fn to_debt(self) -> Debt
        ensures { result ≡ self * 8000000000 }
    {
        Debt {
            billionths: self.count as u128 * 8_000_000_000,
        }
    }
}

/// What is owed, in billionths of a bit, so that a rate times nanoseconds is one. Contracts see the
/// number.
#[derive(Clone, Copy, Debug, PartialEq, Eq, PartialOrd, Ord, Hash)]
pub struct Debt {
    billionths: u128,
}

impl Model for Debt {
    ghost use Rattle.std.specs.Prelude.{ℕ};

    ghost Value = { ℕ };

    ghost view = { λ d. d.billionths };

    ghost inverse = { λ n. record { billionths = n } };
}

impl Debt {
    /// So many billionths of a bit.
    pub fn from_billionths(billionths: u128) -> Self
        ensures { result ≡ billionths }
    {
        Debt { billionths }
    }

    /// The billionths of a bit.
    pub fn as_billionths(self) -> u128
        ensures { result ≡ self }
    {
        self.billionths
    }

    /// Whether nothing is owed.
    pub fn is_zero(self) -> bool
        ensures { result ≡ (self == 0) }
    {
        self.billionths == 0
    }

    /// The sum, at most 2^128 - 1 billionths.
    pub fn saturating_add(self, more: Debt) -> Self
        ensures { result ≡ min (self + more) (2 ^ 128 - 1) }
    {
        Debt {
            billionths: self.billionths.saturating_add(more.billionths),
        }
    }

    /// The difference, at least nothing.
    pub fn saturating_sub(self, less: Debt) -> Self
        ensures { result ≡ self - less }
    {
        Debt {
            billionths: self.billionths.saturating_sub(less.billionths),
        }
    }

    /// The whole bytes in it, at most 2^64 - 1.
    pub fn whole_bytes(self) -> DataSize
        ensures { result ≡ min (self / 8000000000) (2 ^ 64 - 1) }
    {
        let count = self.billionths / 8_000_000_000;
        DataSize {
            count: count.min(u64::MAX as u128) as u64,
        }
    }

    /// How long it takes at this rate until nothing is owed, rounded up to nanoseconds, at most
    /// 2^64 - 1 ns.
    pub fn drain_time(self, rate: Bitrate) -> Duration
        requires { 0 < rate }
        ensures { result ≡ min (div_ceil self rate) (2 ^ 64 - 1) }
    {
        let nanos = self.billionths.div_ceil(rate.bits as u128);
        Duration::from_nanos(nanos.min(u64::MAX as u128) as u64)
    }
}
